//! Conditions and clauses: the first rule that fails (ECMA-367, 8.9 and 8.17).

ghost use Rattle.std.specs.Prelude.{◌≡◌, OnOk, Ok, map};
ghost use Rattle.sc_tree.specs.View.{clause_of, expr_of};
ghost use Rattle.sc_rules.specs.Judging as judging;
ghost use Rattle.sc_rules.specs.JudgingText as judging_text;
ghost use Rattle.sc_rules.specs.declared.position.Context.TheVariants.{Body};
ghost use Rattle.sc_rules.specs.declared.position.Position.TheVariants.{Condition, Plain};
ghost use Rattle.sc_typing.specs.Views.{routine_in, entity_of};
ghost use Rattle.sc_typing.specs.Judges.{Passes};

use sc_rules::entity_types::EntityType;
use sc_rules::{Context, Position, Rule};
use sc_tree::{Clause, Expr};
use sc_typing::{CheckFault, Entity, RoutineContext, is_boolean, required};

/// Whether it is BOOLEAN, as far as there is a type.
fn is_boolean_if_any(condition: Option<EntityType>) -> bool
    ensures { result ≡ judging_text.is_boolean_if_any condition }
{
    match condition {
        None => true,
        Some(condition) => is_boolean(condition.class),
    }
}

/// Judges a condition that gives no names.
pub fn judge_condition<'s>(
    routine: &RoutineContext<'_, 's>,
    context: Context,
    names: &[Entity<'s>],
    e: &Expr,
) -> Result<(), CheckFault>
    ensures { Passes (judging_text.judge_condition (routine_in routine.now) context Plain (map entity_of names.now)
        (expr_of e.now)) result }
{
    let condition = routine.expression(context, Position::Plain, names, e)?;
    let is_boolean = is_boolean_if_any(condition.entity_type);
    required(is_boolean, Rule::NotBoolean, e.span())
}

/// Judges the condition of an `if`, and makes the names known that it gives.
pub fn judge_if_condition<'s>(
    routine: &RoutineContext<'_, 's>,
    names: &mut Vec<Entity<'s>>,
    e: &'s Expr,
) -> Result<(), CheckFault>
    ensures judged { Passes (judging_text.judge_condition (routine_in routine.now) Body Condition
        (map entity_of names.old.items) (expr_of e.now)) result }
    ensures given { OnOk result (judging.judge_given (routine_in routine.now) Body (map entity_of names.old.items)
        (expr_of e.now) ≡ Ok (map entity_of names.new.items)) }
{
    let condition = routine.condition(Context::Body, names, e)?;
    let is_boolean = is_boolean_if_any(condition.entity_type);
    required(is_boolean, Rule::NotBoolean, e.span())
}

/// Judges a clause.
#[tactic(auto, unfolding(sc_tree::specs::View::clause_of))]
pub fn judge_clause<'s>(
    routine: &RoutineContext<'_, 's>,
    context: Context,
    names: &[Entity<'s>],
    clause: &Clause,
) -> Result<(), CheckFault>
    ensures { Passes (judging_text.judge_clause (routine_in routine.now) context (map entity_of names.now)
        (clause_of clause.now)) result }
{
    judge_condition(routine, context, names, &clause.condition)
}

/// Judges clauses, one after the other.
pub fn judge_clauses<'s>(
    routine: &RoutineContext<'_, 's>,
    context: Context,
    names: &[Entity<'s>],
    clauses: &[Clause],
) -> Result<(), CheckFault>
    ensures { Passes (judging.judge_each (judging_text.judge_clause (routine_in routine.now) context
        (map entity_of names.now)) (map clause_of clauses.now)) result }
{
    for clause in clauses {
        judge_clause(routine, context, names, clause)?;
    }
    Ok(())
}
