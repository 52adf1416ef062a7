//! The faults of features.

ghost use Rattle.std.specs.Prelude.{◌≡◌, ◌++◌, OnOk, map};
ghost use Rattle.sc_tree.specs.Plain as plain;
ghost use Rattle.sc_tree.specs.View.{clause_of, declaration_of, instrs_of, kind_of, routine_of, type_if_any};
ghost use Rattle.sc_class.specs.SystemIn.{system_in};
ghost use Rattle.sc_rules.specs.Names as names;
ghost use Rattle.sc_typing.specs.Marks.{is_marked};
ghost use Rattle.sc_typing.specs.Views.{entity_of, routine_in};
ghost use Rattle.sc_faults.specs.Internal.Listing as listing;

use crate::conditions::add_clauses;
use crate::instructions::add_instructions;
use crate::types::{add_type, add_type_if_any};
use sc_check::ClassText;
use sc_class::Tables;
use sc_rules::{Context, Fault};
use sc_tree::{Declaration, DeclaredType, FeatureKind, Instr, Routine};
use sc_typing::{Entity, RoutineContext, add_formals, add_locals, result_type};
use std::alloc::{AllocError, Global};

/// Adds the faults of each declared type, whose tag may name these formals.
fn add_types(
    alloc: Global,
    tables: &Tables,
    formals: &[Declaration],
    declarations: &[Declaration],
    faults: &mut Vec<Fault>,
) -> Result<(), AllocError>
    ensures { OnOk result (faults.new.items ≡ faults.old.items ++ listing.faults_of_types (system_in tables.now)
        (map declaration_of formals.now) (map declaration_of declarations.now)) }
{
    for declaration in declarations {
        add_type(alloc, tables, formals, &declaration.declared_type, faults)?;
    }
    Ok(())
}

/// A routine of the class with these formals and this result type.
pub fn context_of<'t, 's>(
    class: &ClassText<'t, 's>,
    formals: &'s [Declaration],
    declared: &Option<DeclaredType>,
) -> RoutineContext<'t, 's>
    ensures { routine_in result
        ≡ names.routine_context (system_in class.now.tables.now) (is_marked class.now.purity.now) class.now.class
        (map declaration_of formals.now) (type_if_any declared.now) }
{
    RoutineContext {
        alloc: class.alloc,
        tables: class.tables,
        class: class.class,
        formals,
        result: result_type(class.tables, declared),
        purity: class.purity,
    }
}

/// Adds the faults of a routine's locals and body, before which these names are known.
fn add_body<'s>(
    routine: &RoutineContext<'_, 's>,
    names: &[Entity<'s>],
    locals: &'s [Declaration],
    body: &'s [Instr],
    faults: &mut Vec<Fault>,
) -> Result<(), AllocError>
    ensures { OnOk result (faults.new.items ≡ faults.old.items ++ listing.faults_of_body (routine_in routine.now)
        (map entity_of names.now) (map declaration_of locals.now) (instrs_of body.now)) }
{
    add_types(
        routine.alloc,
        routine.tables,
        routine.formals,
        locals,
        faults,
    )?;
    let mut known = Vec::from_slice(routine.alloc, names)?;
    add_locals(routine.tables, routine.formals, locals, &mut known)?;
    add_instructions(routine, &known, body, faults)
}

/// Adds the faults of a routine's text after its types: precondition, locals, body and postcondition.
fn add_text<'s>(
    routine: &RoutineContext<'_, 's>,
    declared: &'s Routine,
    faults: &mut Vec<Fault>,
) -> Result<(), AllocError>
    ensures { OnOk result (faults.new.items ≡ faults.old.items ++ listing.faults_of_text (routine_in routine.now)
        (map clause_of declared.now.precondition.items) (map declaration_of declared.now.locals.items)
        (instrs_of declared.now.body.items) (map clause_of declared.now.postcondition.items)) }
{
    let mut names = Vec::new(routine.alloc);
    add_formals(routine.tables, routine.formals, &mut names)?;
    let known = names.as_slice();
    add_clauses(
        routine,
        Context::Require,
        known,
        &declared.precondition,
        faults,
    )?;
    add_body(routine, known, &declared.locals, &declared.body, faults)?;
    add_clauses(
        routine,
        Context::Ensure,
        known,
        &declared.postcondition,
        faults,
    )
}

/// Adds the faults of a routine: of its types, precondition, locals, body and postcondition.
#[tactic(auto, unfolding(sc_tree::specs::View::kind_of))]
fn add_routine<'s>(
    class: &ClassText<'_, 's>,
    declared: &'s Routine,
    faults: &mut Vec<Fault>,
) -> Result<(), AllocError>
    ensures { OnOk result (faults.new.items ≡ faults.old.items ++ listing.faults_of_kind
        (system_in class.now.tables.now) (is_marked class.now.purity.now) class.now.class
        (plain.Routine (routine_of declared.now))) }
{
    let formals = declared.formals.as_slice();
    add_types(class.alloc, class.tables, formals, formals, faults)?;
    add_type_if_any(
        class.alloc,
        class.tables,
        &[],
        &declared.result_type,
        faults,
    )?;
    let routine = context_of(class, formals, &declared.result_type);
    add_text(&routine, declared, faults)
}

/// Adds the faults of a feature.
#[tactic(auto, unfolding(sc_tree::specs::View::kind_of))]
pub fn add_feature<'s>(
    class: &ClassText<'_, 's>,
    kind: &'s FeatureKind,
    faults: &mut Vec<Fault>,
) -> Result<(), AllocError>
    ensures { OnOk result (faults.new.items ≡ faults.old.items ++ listing.faults_of_kind
        (system_in class.now.tables.now) (is_marked class.now.purity.now) class.now.class (kind_of kind.now)) }
{
    match kind {
        FeatureKind::Attribute(declared) => {
            add_type(class.alloc, class.tables, &[], declared, faults)
        }
        FeatureKind::Routine(routine) => add_routine(class, routine, faults),
    }
}
