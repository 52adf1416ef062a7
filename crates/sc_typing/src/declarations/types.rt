//! Types as they are declared (ECMA-367, 8.11).

ghost use Rattle.std.specs.Prelude.{◌≡◌, [], map};
ghost use Rattle.std.specs.Option.{option_map};
ghost use Rattle.sc_tree.specs.View.{declaration_of, handler_tag_of, type_if_any, type_of};
ghost use Rattle.sc_rules.specs.Types as types;
ghost use Rattle.sc_rules.specs.Names as names;
ghost use Rattle.sc_rules.specs.Judging as judging;
ghost use Rattle.sc_typing.specs.Judges.{Passes};
ghost use Rattle.sc_class.specs.SystemIn.{system_in};

use crate::fault::{CheckFault, required};
use sc_class::{ClassId, Tables};
use sc_rules::Rule;
use sc_rules::entity_types::{EntityType, Reserved, Tag, combine_result};
use sc_tree::{Declaration, DeclaredType, HandlerTag};

/// Whether it is written `separate`.
fn is_separate(tag: &HandlerTag) -> bool
    ensures { result ≡ types.is_separate (handler_tag_of tag.now) }
{
    match tag {
        HandlerTag::Separate => true,
        HandlerTag::Own | HandlerTag::HandlerOf(_) => false,
    }
}

/// Whether it is written without a tag.
pub fn is_own(tag: &HandlerTag) -> bool
    ensures { result ≡ types.is_own (handler_tag_of tag.now) }
{
    match tag {
        HandlerTag::Own => true,
        HandlerTag::Separate | HandlerTag::HandlerOf(_) => false,
    }
}

/// Whether a tag may name the formal: it is attached and `separate`.
fn is_nameable(formal: &Declaration) -> bool
    ensures { result ≡ types.is_nameable (declaration_of formal.now) }
{
    !formal.declared_type.is_detachable && is_separate(&formal.declared_type.tag)
}

/// The number of the formal that a tag names.
fn number_of_named(name: &str, formals: &[Declaration]) -> Option<usize>
    ensures { result ≡ types.number_of_named name.now (map declaration_of formals.now) }
{
    for index in 0..formals.len() {
        let formal = &formals[index];
        if formal.name.as_str() == name {
            return if is_nameable(formal) {
                Some(index)
            } else {
                None
            };
        }
    }
    None
}

/// The tag that is declared, if it may name these formals; none if it names no such formal.
fn declared_tag(formals: &[Declaration], tag: &HandlerTag) -> Option<Tag>
    ensures { result ≡ types.declared_tag (map declaration_of formals.now) (handler_tag_of tag.now) }
{
    match tag {
        HandlerTag::Own => Some(Tag::Own),
        HandlerTag::Separate => Some(Tag::Any),
        HandlerTag::HandlerOf(name) => match number_of_named(name.as_str(), formals) {
            None => None,
            Some(number) => Some(Tag::With(Reserved::Formal(number))),
        },
    }
}

/// Whether the type is written `detachable` or with a tag.
fn is_marked(declared: &DeclaredType) -> bool
    ensures { result ≡ types.is_marked (type_of declared.now) }
{
    declared.is_detachable || !is_own(&declared.tag)
}

/// The type of this class and tag, where both are known; INTEGER and BOOLEAN take no mark.
fn typed(declared: &DeclaredType, class: Option<ClassId>, tag: Option<Tag>) -> Option<EntityType>
    ensures { result ≡ types.typed (type_of declared.now) class tag }
{
    let class = class?;
    let tag = tag?;
    if class.is_expanded() && is_marked(declared) {
        return None;
    }
    Some(EntityType {
        attached: !declared.is_detachable,
        tag,
        class,
    })
}

/// The type that is declared, where a tag may name these formals; it is none where the declaration is faulty.
pub fn declared_type(
    tables: &Tables,
    formals: &[Declaration],
    declared: &DeclaredType,
) -> Option<EntityType>
    ensures { result ≡ types.declared_type (system_in tables.now) (map declaration_of formals.now)
        (type_of declared.now) }
{
    typed(
        declared,
        tables.type_class(declared.class.as_str()),
        declared_tag(formals, &declared.tag),
    )
}

/// The type of Result in a routine that is declared with this type, if it is a function; it is none where the
/// declaration is faulty.
pub fn result_type(tables: &Tables, declared: &Option<DeclaredType>) -> Option<Option<EntityType>>
    ensures { result ≡ option_map (types.declared_type (system_in tables.now) []) (type_if_any declared.now) }
{
    match declared {
        None => None,
        Some(declared) => Some(declared_type(tables, &[], declared)),
    }
}

/// The class of a declared type, then its tag and its mark.
pub fn judge_type(
    tables: &Tables,
    formals: &[Declaration],
    declared: &DeclaredType,
) -> Result<(), CheckFault>
    ensures { Passes (judging.judge_type (system_in tables.now) (map declaration_of formals.now)
        (type_of declared.now)) result }
{
    let class = tables.type_class(declared.class.as_str());
    required(class.is_some(), Rule::UnknownName, declared.class.span)?;
    let typed = declared_type(tables, formals, declared);
    required(typed.is_some(), Rule::TagName, declared.span)
}

/// The type that an attribute or a function has after a target of this type.
pub fn given_type(
    tables: &Tables,
    target: EntityType,
    declared: &DeclaredType,
) -> Option<EntityType>
    ensures { result ≡ names.given_type (system_in tables.now) target (type_of declared.now) }
{
    match declared_type(tables, &[], declared) {
        None => None,
        Some(declared) => Some(combine_result(target, declared)),
    }
}

/// The type that a routine has after a target of this type, if it is a function.
pub fn given_type_if_any(
    tables: &Tables,
    target: EntityType,
    declared: &Option<DeclaredType>,
) -> Option<Option<EntityType>>
    ensures { result ≡ option_map (names.given_type (system_in tables.now) target) (type_if_any declared.now) }
{
    match declared {
        None => None,
        Some(declared) => Some(given_type(tables, target, declared)),
    }
}

/// Whether it is of the current handler, or of one that is reserved.
pub fn is_controlled_tag(tag: Tag) -> bool
    ensures { result ≡ types.is_controlled_tag tag }
{
    match tag {
        Tag::Own | Tag::With(_) => true,
        Tag::Any | Tag::None => false,
    }
}

/// Whether a call is separate where its target has this tag.
pub fn is_foreign(tag: Tag) -> bool
    ensures { result ≡ types.is_foreign tag }
{
    match tag {
        Tag::Own => false,
        Tag::With(_) | Tag::Any | Tag::None => true,
    }
}
