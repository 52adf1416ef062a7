//! Assignments: the first rule that fails (ECMA-367, 8.22).

ghost use Rattle.std.specs.Prelude.{◌≡◌, map};
ghost use Rattle.sc_tree.specs.View.{expr_of, variable_of};
ghost use Rattle.sc_rules.specs.JudgingText as judging_text;
ghost use Rattle.sc_typing.specs.Views.{assignee_in, routine_in, entity_of};
ghost use Rattle.sc_typing.specs.Judges.{Judges, Passes};
ghost use Rattle.sc_check.specs.Internal.Parts as parts;

use crate::instructions::conforms_if_any;
use sc_rules::entity_types::EntityType;
use sc_rules::{Context, Position, Rule};
use sc_text::Span;
use sc_tree::{Expr, Variable};
use sc_typing::{Assignee, CheckFault, Entity, RoutineContext, judge_result, refusal, required};

/// The type of what may be assigned.
fn judge_assignee(span: Span, assigned: Assignee) -> Result<Option<EntityType>, CheckFault>
    ensures { Judges (λ t. t) (judging_text.judge_assignee span (assignee_in assigned)) result }
{
    match assigned {
        Assignee::Unknown => Err(refusal(Rule::UnknownName, span)),
        Assignee::NotAssignable => Err(refusal(Rule::NotAssignable, span)),
        Assignee::Local(entity_type) => Ok(entity_type),
        Assignee::Attribute(entity_type) => Ok(entity_type),
    }
}

/// The type of what is assigned or created.
pub fn judge_variable<'s>(
    routine: &RoutineContext<'_, 's>,
    names: &[Entity<'s>],
    variable: &Variable,
) -> Result<Option<EntityType>, CheckFault>
    ensures { Judges (λ t. t) (judging_text.judge_variable (routine_in routine.now) (map entity_of names.now)
        (variable_of variable.now)) result }
{
    match variable {
        Variable::Named(name) => judge_assignee(name.span, routine.assignee(names, variable)),
        Variable::Result(span) => judge_result(*span, routine.result),
    }
}

/// Judges an assignment: its left side, then its right side.
pub fn judge_assignment<'s>(
    routine: &RoutineContext<'_, 's>,
    names: &[Entity<'s>],
    variable: &Variable,
    value: &Expr,
) -> Result<(), CheckFault>
    ensures { Passes (parts.judge_assignment (routine_in routine.now) (map entity_of names.now)
        (variable_of variable.now) (expr_of value.now)) result }
{
    let assigned = judge_variable(routine, names, variable)?;
    let actual = routine.expression(Context::Body, Position::Source, names, value)?;
    let conforms = conforms_if_any(routine.tables, actual.entity_type, assigned);
    required(conforms, Rule::AssignType, value.span())
}
