//! Names of classes, features and entities.

ghost use Rattle.std.specs.Prelude.{◌≡◌, ◌++◌, ◌∷◌, [], OnOk, map};
ghost use Rattle.std.specs.List.{flat_map};
ghost use Rattle.std.specs.Option.{option_map, option_or};
ghost use Rattle.sc_tree.specs.View.{declaration_of, name_of, type_if_any, type_of};
ghost use Rattle.sc_class.specs.SystemIn.{system_in};
ghost use Rattle.sc_class.specs.Tables.ByClass.{ancestors_of};
ghost use Rattle.sc_class.specs.Tables.Heirs.{topmost_along};
ghost use Rattle.sc_class.specs.declared.identity.ClassId.TheVariants.{Declared};
ghost use Rattle.sc_class.specs.View.{entry_of};
ghost use Rattle.sc_typing.specs.Views.{entity_of, routine_in};
ghost use Rattle.sc_symbols.specs.Mentions as spec;
ghost use Rattle.sc_symbols.specs.Internal.{scope_of};

use crate::scope::Scope;
use crate::symbol::{Mention, Symbol};
use sc_class::{ClassId, FeatureEntry, Tables};
use sc_rules::entity_types::EntityType;
use sc_text::Span;
use sc_tree::{Declaration, DeclaredType, HandlerTag, Name};
use sc_typing::{Entity, RoutineContext};
use std::alloc::AllocError;

/// Adds a name that means a symbol of which no class has another version.
fn add(
    name: &Name,
    symbol: Symbol,
    declaration: Span,
    mentions: &mut Vec<Mention>,
) -> Result<(), AllocError>
    ensures { OnOk result (mentions.new.items
        ≡ mentions.old.items ++ spec.mention (name_of name.now) symbol declaration ∷ []) }
{
    mentions.push(Mention {
        span: name.span,
        symbol,
        declaration,
        origin: declaration,
    })?;
    Ok(())
}

/// Adds the name of a class, if the text declares it.
#[tactic(auto, unfolding(sc_tree::specs::View::class_of))]
pub fn add_class_name(
    tables: &Tables,
    name: &Name,
    mentions: &mut Vec<Mention>,
) -> Result<(), AllocError>
    ensures { OnOk result (mentions.new.items
        ≡ mentions.old.items ++ spec.mentions_of_class (system_in tables.now) (name_of name.now)) }
{
    let Some(ClassId::Declared(number)) = tables.class_named(name.as_str()) else {
        return Ok(());
    };
    let Some(class) = tables.class(number) else {
        return Ok(());
    };
    add(name, Symbol::Class(number), class.name.span, mentions)
}

/// Adds names of classes.
pub fn add_class_names(
    tables: &Tables,
    names: &[Name],
    mentions: &mut Vec<Mention>,
) -> Result<(), AllocError>
    ensures { OnOk result (mentions.new.items
        ≡ mentions.old.items ++ flat_map (spec.mentions_of_class (system_in tables.now)) (map name_of names.now)) }
{
    for name in names {
        add_class_name(tables, name, mentions)?;
    }
    Ok(())
}

/// The first of these that is there.
fn first_of<'s>(
    one: Option<FeatureEntry<'s>>,
    other: Option<FeatureEntry<'s>>,
) -> Option<FeatureEntry<'s>>
    ensures { option_map entry_of result ≡ option_or (option_map entry_of one.entry) (option_map entry_of other.entry) }
{
    match one {
        Some(_) => one,
        None => other,
    }
}

/// The version of the feature of this name that the topmost of these classes has declared, each the parent of the one
/// before it.
fn topmost<'s>(tables: &Tables<'s>, name: &str, ancestors: &[usize]) -> Option<FeatureEntry<'s>>
    ensures { option_map entry_of result ≡ topmost_along (system_in tables.now) name.now ancestors.now }
{
    let mut found = None;
    for class in ancestors {
        found = first_of(tables.declared(*class, name), found);
    }
    found
}

/// Where the topmost ancestor that has a feature of this name declares it.
#[tactic(auto, unfolding(sc_tree::specs::View::feature_of))]
fn origin_of(tables: &Tables, entry: &FeatureEntry) -> Span
    ensures { result ≡ spec.origin_of (system_in tables.now) (entry_of entry.now) }
{
    let ancestors = tables.ancestors(ClassId::Declared(entry.class));
    match topmost(tables, entry.feature.name.as_str(), ancestors) {
        None => entry.feature.name.span,
        Some(origin) => origin.feature.name.span,
    }
}

/// Adds the name of a feature of this class.
#[tactic(auto, unfolding(sc_tree::specs::View::feature_of))]
pub fn add_feature_name(
    tables: &Tables,
    class: ClassId,
    name: &Name,
    mentions: &mut Vec<Mention>,
) -> Result<(), AllocError>
    ensures { OnOk result (mentions.new.items
        ≡ mentions.old.items ++ spec.mentions_of_feature (system_in tables.now) class (name_of name.now)) }
{
    let Some(entry) = tables.feature(class, name.as_str()) else {
        return Ok(());
    };
    let Some(number) = tables.declared_number(entry.class, name.as_str()) else {
        return Ok(());
    };
    mentions.push(Mention {
        span: name.span,
        symbol: Symbol::Feature(entry.class, number),
        declaration: entry.feature.name.span,
        origin: origin_of(tables, &entry),
    })?;
    Ok(())
}

/// Adds names of features of this class.
pub fn add_feature_names(
    tables: &Tables,
    class: ClassId,
    names: &[Name],
    mentions: &mut Vec<Mention>,
) -> Result<(), AllocError>
    ensures { OnOk result (mentions.new.items
        ≡ mentions.old.items ++ flat_map (spec.mentions_of_feature (system_in tables.now) class) (map name_of names.now)) }
{
    for name in names {
        add_feature_name(tables, class, name, mentions)?;
    }
    Ok(())
}

/// Adds the name of a feature after a target of this type, if it has one.
pub fn add_name_after(
    tables: &Tables,
    target: Option<EntityType>,
    name: &Name,
    mentions: &mut Vec<Mention>,
) -> Result<(), AllocError>
    ensures { OnOk result (mentions.new.items
        ≡ mentions.old.items ++ spec.mentions_after (system_in tables.now) target (name_of name.now)) }
{
    match target {
        None => Ok(()),
        Some(target) => add_feature_name(tables, target.class, name, mentions),
    }
}

/// Adds the name of an entity that is declared at this place.
#[inline]
pub fn add_entity(
    name: &Name,
    known: Entity,
    place: Span,
    mentions: &mut Vec<Mention>,
) -> Result<(), AllocError>
    ensures { OnOk result (mentions.new.items
        ≡ mentions.old.items ++ spec.mention_of_entity (name_of name.now) (entity_of known.entry) place ∷ []) }
{
    let symbol = Symbol::Entity(known.role, known.entity_type);
    add(name, symbol, place, mentions)
}

/// Adds the name of the entity at this number.
fn add_name_at(
    scope: &Scope,
    name: &Name,
    number: usize,
    mentions: &mut Vec<Mention>,
) -> Result<(), AllocError>
    ensures { OnOk result (mentions.new.items
        ≡ mentions.old.items ++ spec.mentions_at (scope_of scope.now) (name_of name.now) number) }
{
    match scope.names.get(number) {
        None => Ok(()),
        Some(known) => match scope.places.get(number) {
            None => Ok(()),
            Some(place) => add_entity(name, *known, *place, mentions),
        },
    }
}

/// Adds the name of an entity, if it is known.
pub fn add_known_name(
    scope: &Scope,
    name: &Name,
    mentions: &mut Vec<Mention>,
) -> Result<(), AllocError>
    ensures { OnOk result (mentions.new.items
        ≡ mentions.old.items ++ spec.mentions_of_known (scope_of scope.now) (name_of name.now)) }
{
    match scope.number(name.as_str()) {
        None => Ok(()),
        Some(number) => add_name_at(scope, name, number, mentions),
    }
}

/// Adds a name without a target.
pub fn add_name(
    routine: &RoutineContext,
    scope: &Scope,
    name: &Name,
    mentions: &mut Vec<Mention>,
) -> Result<(), AllocError>
    ensures { OnOk result (mentions.new.items
        ≡ mentions.old.items ++ spec.mentions_of_name (routine_in routine.now) (scope_of scope.now) (name_of name.now)) }
{
    match scope.number(name.as_str()) {
        None => add_feature_name(
            routine.tables,
            ClassId::Declared(routine.class),
            name,
            mentions,
        ),
        Some(number) => add_name_at(scope, name, number, mentions),
    }
}

/// Adds the names in a type.
#[tactic(auto, using(crate::proofs::Added::mentioned_two))]
pub fn add_type(
    tables: &Tables,
    scope: &Scope,
    declared: &DeclaredType,
    mentions: &mut Vec<Mention>,
) -> Result<(), AllocError>
    ensures { OnOk result (mentions.new.items
        ≡ mentions.old.items ++ spec.mentions_of_type (system_in tables.now) (scope_of scope.now) (type_of declared.now)) }
{
    if let HandlerTag::HandlerOf(name) = &declared.tag {
        add_known_name(scope, name, mentions)?;
    }
    add_class_name(tables, &declared.class, mentions)
}

/// Adds the names in a type, if one is written.
pub fn add_type_if_any(
    tables: &Tables,
    scope: &Scope,
    declared: &Option<DeclaredType>,
    mentions: &mut Vec<Mention>,
) -> Result<(), AllocError>
    ensures { OnOk result (mentions.new.items ≡ mentions.old.items
        ++ spec.mentions_of_type_if_any (system_in tables.now) (scope_of scope.now) (type_if_any declared.now)) }
{
    match declared {
        None => Ok(()),
        Some(declared) => add_type(tables, scope, declared, mentions),
    }
}

/// Adds the names in a declaration of an entity that is known there.
#[tactic(auto, using(crate::proofs::Added::mentioned_two))]
fn add_declaration(
    tables: &Tables,
    scope: &Scope,
    declaration: &Declaration,
    mentions: &mut Vec<Mention>,
) -> Result<(), AllocError>
    ensures { OnOk result (mentions.new.items ≡ mentions.old.items
        ++ spec.mentions_of_declaration (system_in tables.now) (scope_of scope.now) (declaration_of declaration.now)) }
{
    add_known_name(scope, &declaration.name, mentions)?;
    add_type(tables, scope, &declaration.declared_type, mentions)
}

/// Adds the names in declarations of entities that are known there.
pub fn add_declarations(
    tables: &Tables,
    scope: &Scope,
    declarations: &[Declaration],
    mentions: &mut Vec<Mention>,
) -> Result<(), AllocError>
    ensures { OnOk result (mentions.new.items ≡ mentions.old.items
        ++ flat_map (spec.mentions_of_declaration (system_in tables.now) (scope_of scope.now))
        (map declaration_of declarations.now)) }
{
    for declaration in declarations {
        add_declaration(tables, scope, declaration, mentions)?;
    }
    Ok(())
}
