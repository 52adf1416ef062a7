//! The faults of conditions, of clauses and of the heads of blocks.

ghost use Rattle.std.specs.Prelude.{◌≡◌, ◌++◌, OnOk, map};
ghost use Rattle.sc_tree.specs.View.{clause_of, expr_of, head_of};
ghost use Rattle.sc_rules.specs.declared.position.Context.TheVariants.{Body};
ghost use Rattle.sc_rules.specs.declared.position.Position.TheVariants.{Condition, Plain};
ghost use Rattle.sc_typing.specs.Views.{entity_of, routine_in};
ghost use Rattle.sc_typing.specs.Judges.{Passes};
ghost use Rattle.sc_faults.specs.Internal.Listing as listing;

use crate::expressions::add_site;
use sc_check::{judge_condition, judge_head, judge_if_condition};
use sc_rules::{Context, Fault, Position};
use sc_tree::{Clause, Expr, Head};
use sc_typing::{CheckFault, Entity, RoutineContext};
use std::alloc::AllocError;

/// Adds the faults of the condition of an `if` or `elseif`.
pub fn add_if_condition<'s>(
    routine: &RoutineContext<'_, 's>,
    names: &[Entity<'s>],
    condition: &'s Expr,
    faults: &mut Vec<Fault>,
) -> Result<(), AllocError>
    ensures { OnOk result (faults.new.items ≡ faults.old.items ++ listing.faults_of_condition (routine_in routine.now)
        Body Condition (map entity_of names.now) (expr_of condition.now)) }
{
    let mut known = Vec::from_slice(routine.alloc, names)?;
    let judged = judge_if_condition(routine, &mut known, condition);
    add_site(
        routine,
        Context::Body,
        Position::Condition,
        names,
        condition,
        &judged,
        faults,
    )
}

/// Adds the faults of a condition that gives no names.
pub fn add_condition<'s>(
    routine: &RoutineContext<'_, 's>,
    context: Context,
    names: &[Entity<'s>],
    condition: &'s Expr,
    faults: &mut Vec<Fault>,
) -> Result<(), AllocError>
    ensures { OnOk result (faults.new.items ≡ faults.old.items ++ listing.faults_of_condition (routine_in routine.now)
        context Plain (map entity_of names.now) (expr_of condition.now)) }
{
    let judged = judge_condition(routine, context, names, condition);
    add_site(
        routine,
        context,
        Position::Plain,
        names,
        condition,
        &judged,
        faults,
    )
}

/// Adds the faults of clauses.
#[tactic(auto, unfolding(sc_tree::specs::View::clause_of))]
pub fn add_clauses<'s>(
    routine: &RoutineContext<'_, 's>,
    context: Context,
    names: &[Entity<'s>],
    clauses: &'s [Clause],
    faults: &mut Vec<Fault>,
) -> Result<(), AllocError>
    ensures { OnOk result (faults.new.items ≡ faults.old.items ++ listing.faults_of_each (listing.faults_of_clause
        (routine_in routine.now) context (map entity_of names.now)) (map clause_of clauses.now)) }
{
    for clause in clauses {
        add_condition(routine, context, names, &clause.condition, faults)?;
    }
    Ok(())
}

/// Judges a head of a block.
fn judge_value<'s>(
    routine: &RoutineContext<'_, 's>,
    names: &[Entity<'s>],
    head: &'s Head,
) -> Result<(), CheckFault>
    ensures { Passes (listing.judge_value (routine_in routine.now) (map entity_of names.now) (head_of head.now)) result }
{
    match judge_head(routine, names, 0, head) {
        Ok(_) => Ok(()),
        Err(fault) => Err(fault),
    }
}

/// Adds the faults of the heads of a block.
pub fn add_heads<'s>(
    routine: &RoutineContext<'_, 's>,
    names: &[Entity<'s>],
    heads: &'s [Head],
    faults: &mut Vec<Fault>,
) -> Result<(), AllocError>
    ensures { OnOk result (faults.new.items ≡ faults.old.items ++ listing.faults_of_each (listing.faults_of_head
        (routine_in routine.now) (map entity_of names.now)) (map head_of heads.now)) }
{
    for head in heads {
        let judged = judge_value(routine, names, head);
        add_site(
            routine,
            Context::Body,
            Position::Plain,
            names,
            &head.value,
            &judged,
            faults,
        )?;
    }
    Ok(())
}
