//! The names in features, in classes and in a system.

ghost use Rattle.std.specs.Prelude.{◌≡◌, ◌++◌, IfOk, OnOk, map};
ghost use Rattle.std.specs.List.{flat_map};
ghost use Rattle.sc_tree.specs.View.{class_of, clause_of, feature_of, kind_of, name_of, parent_of, routine_of};
ghost use Rattle.sc_class.specs.SystemIn.{system_in};
ghost use Rattle.sc_rules.specs.Names as names;
ghost use Rattle.sc_typing.specs.Marks.{is_marked};
ghost use Rattle.sc_typing.specs.Views.{routine_in};
ghost use Rattle.sc_symbols.specs.Mentions as spec;
ghost use Rattle.sc_symbols.specs.Internal.{judged, scope_of};

use crate::expressions::add_clauses;
use crate::instructions::add_instructions;
use crate::names::{
    add_class_name, add_class_names, add_declarations, add_feature_name, add_feature_names,
    add_type, add_type_if_any,
};
use crate::scope::{Scope, scope_of_body, scope_of_formals};
use crate::symbol::Mention;
use sc_class::{ClassId, Tables};
use sc_rules::Context;
use sc_tree::{Class, Clause, Feature, FeatureKind, Parent, Routine};
use sc_typing::{Purity, RoutineContext, result_type};
use std::alloc::{AllocError, Global};

/// Adds the names in the text of a routine after its formals and its result type.
#[tactic(auto, using(crate::proofs::Added::mentioned_four))]
fn add_text<'s>(
    context: &RoutineContext<'_, 's>,
    routine: &'s Routine,
    contract: &Scope<'s>,
    mentions: &mut Vec<Mention>,
) -> Result<(), AllocError>
    ensures { OnOk result (mentions.new.items ≡ mentions.old.items
        ++ spec.mentions_in_text judged (routine_in context.now) (scope_of contract.now) (routine_of routine.now)) }
{
    let body = scope_of_body(context.alloc, context.tables, routine)?;
    add_clauses(
        context,
        Context::Require,
        contract,
        &routine.precondition,
        mentions,
    )?;
    add_declarations(context.tables, &body, &routine.locals, mentions)?;
    add_instructions(context, &body, &routine.body, mentions)?;
    add_clauses(
        context,
        Context::Ensure,
        contract,
        &routine.postcondition,
        mentions,
    )
}

/// A routine of the class at this number, as its text is judged.
fn context_of<'t, 's>(
    alloc: Global,
    tables: &'t Tables<'s>,
    class: usize,
    routine: &'s Routine,
    purity: &'t Purity<'t, 's>,
) -> RoutineContext<'t, 's>
    ensures { routine_in result
        ≡ names.context_of (system_in tables.now) (is_marked purity.now) class (routine_of routine.now) }
{
    RoutineContext {
        alloc,
        tables,
        class,
        formals: &routine.formals,
        result: result_type(tables, &routine.result_type),
        purity,
    }
}

/// Adds the names in a routine of the class at this number.
fn add_routine<'s>(
    alloc: Global,
    tables: &Tables<'s>,
    class: usize,
    routine: &'s Routine,
    mentions: &mut Vec<Mention>,
) -> Result<(), AllocError>
    ensures { OnOk result (mentions.new.items ≡ mentions.old.items
        ++ spec.mentions_in_routine judged (system_in tables.now) class (routine_of routine.now)) }
{
    let contract = scope_of_formals(alloc, tables, &routine.formals)?;
    add_declarations(tables, &contract, &routine.formals, mentions)?;
    add_type_if_any(tables, &Scope::new(alloc), &routine.result_type, mentions)?;
    let context = context_of(alloc, tables, class, routine, &Purity::NotAsked);
    add_text(&context, routine, &contract, mentions)
}

/// Adds the names in an attribute or a routine of the class at this number.
#[tactic(auto, unfolding(sc_tree::specs::View::kind_of))]
fn add_kind<'s>(
    alloc: Global,
    tables: &Tables<'s>,
    class: usize,
    kind: &'s FeatureKind,
    mentions: &mut Vec<Mention>,
) -> Result<(), AllocError>
    ensures { OnOk result (mentions.new.items ≡ mentions.old.items
        ++ spec.mentions_in_kind judged (system_in tables.now) class (kind_of kind.now)) }
{
    match kind {
        FeatureKind::Attribute(declared) => {
            add_type(tables, &Scope::new(alloc), declared, mentions)
        }
        FeatureKind::Routine(routine) => add_routine(alloc, tables, class, routine, mentions),
    }
}

/// Adds the names in a feature of the class at this number.
#[tactic(auto, unfolding(sc_tree::specs::View::feature_of), using(crate::proofs::Added::mentioned_three))]
fn add_feature<'s>(
    alloc: Global,
    tables: &Tables<'s>,
    class: usize,
    feature: &'s Feature,
    mentions: &mut Vec<Mention>,
) -> Result<(), AllocError>
    ensures { OnOk result (mentions.new.items ≡ mentions.old.items
        ++ spec.mentions_in_feature judged (system_in tables.now) class (feature_of feature.now)) }
{
    add_class_names(tables, &feature.exports, mentions)?;
    add_feature_name(tables, ClassId::Declared(class), &feature.name, mentions)?;
    add_kind(alloc, tables, class, &feature.kind, mentions)
}

/// Adds the names in features of the class at this number.
fn add_features<'s>(
    alloc: Global,
    tables: &Tables<'s>,
    class: usize,
    features: &'s [Feature],
    mentions: &mut Vec<Mention>,
) -> Result<(), AllocError>
    ensures { OnOk result (mentions.new.items ≡ mentions.old.items
        ++ flat_map (spec.mentions_in_feature judged (system_in tables.now) class) (map feature_of features.now)) }
{
    for feature in features {
        add_feature(alloc, tables, class, feature, mentions)?;
    }
    Ok(())
}

/// Adds the names of a parent and of the features that are redefined.
#[tactic(auto, using(crate::proofs::Added::mentioned_two))]
fn add_parent(
    tables: &Tables,
    parent: &Parent,
    mentions: &mut Vec<Mention>,
) -> Result<(), AllocError>
    ensures { OnOk result (mentions.new.items ≡ mentions.old.items
        ++ spec.mentions_in_parent (system_in tables.now) (parent_of parent.now)) }
{
    add_class_name(tables, &parent.name, mentions)?;
    match tables.class_named(parent.name.as_str()) {
        None => Ok(()),
        Some(class) => add_feature_names(tables, class, &parent.redefined, mentions),
    }
}

/// Adds the names of parents and of the features that are redefined.
fn add_parents(
    tables: &Tables,
    parents: &[Parent],
    mentions: &mut Vec<Mention>,
) -> Result<(), AllocError>
    ensures { OnOk result (mentions.new.items ≡ mentions.old.items
        ++ flat_map (spec.mentions_in_parent (system_in tables.now)) (map parent_of parents.now)) }
{
    for parent in parents {
        add_parent(tables, parent, mentions)?;
    }
    Ok(())
}

/// Adds the names in the invariant of the class at this number.
fn add_invariant<'s>(
    alloc: Global,
    tables: &Tables<'s>,
    class: usize,
    clauses: &'s [Clause],
    mentions: &mut Vec<Mention>,
) -> Result<(), AllocError>
    ensures { OnOk result (mentions.new.items ≡ mentions.old.items
        ++ spec.mentions_in_invariant judged (system_in tables.now) class (map clause_of clauses.now)) }
{
    let context = RoutineContext {
        alloc,
        tables,
        class,
        formals: &[],
        result: None,
        purity: &Purity::NotAsked,
    };
    add_clauses(
        &context,
        Context::Invariant,
        &Scope::new(alloc),
        clauses,
        mentions,
    )
}

/// Adds the names in the class at this number.
#[tactic(auto, unfolding(sc_tree::specs::View::class_of), using(crate::proofs::Added::mentioned_five))]
fn add_class<'s>(
    alloc: Global,
    tables: &Tables<'s>,
    number: usize,
    class: &'s Class,
    mentions: &mut Vec<Mention>,
) -> Result<(), AllocError>
    ensures { OnOk result (mentions.new.items ≡ mentions.old.items
        ++ spec.mentions_in_class judged (system_in tables.now) number (class_of class.now)) }
{
    let id = ClassId::Declared(number);
    add_class_name(tables, &class.name, mentions)?;
    add_parents(tables, &class.parents, mentions)?;
    add_feature_names(tables, id, &class.creators, mentions)?;
    add_features(alloc, tables, number, &class.features, mentions)?;
    add_invariant(alloc, tables, number, &class.invariant, mentions)
}

/// Adds the names in the classes of these tables.
fn add_classes(
    alloc: Global,
    tables: &Tables,
    mentions: &mut Vec<Mention>,
) -> Result<(), AllocError>
    ensures { OnOk result (mentions.new.items ≡ mentions.old.items
        ++ spec.mentions_in_system judged (system_in tables.now)) }
{
    let classes = tables.classes();
    for number in 0..classes.len() {
        add_class(alloc, tables, number, &classes[number], mentions)?;
    }
    Ok(())
}

/// The names of the classes of these tables, and what each means. What is declared together gives the names that it
/// shares once for each declaration.
///
/// # Errors
///
/// Memory ran out.
pub fn mentions_of(alloc: Global, tables: &Tables) -> Result<Vec<Mention>, AllocError>
    ensures { IfOk result (λ mentions. spec.AreMentions (system_in tables.now) mentions.items) }
{
    let mut mentions = Vec::new(alloc);
    add_classes(alloc, tables, &mut mentions)?;
    Ok(mentions)
}
