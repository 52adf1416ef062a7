//! The faults of expressions.

ghost use Rattle.std.specs.Prelude.{◌≡◌, ◌++◌, OnOk, map};
ghost use Rattle.sc_tree.specs.View.{expr_of, exprs_of, name_of, target_of};
ghost use Rattle.sc_class.specs.SystemIn.{system_in};
ghost use Rattle.sc_rules.specs.declared.position.Position.TheVariants.{Condition};
ghost use Rattle.sc_rules.specs.Judging as judging;
ghost use Rattle.sc_rules.specs.Positions as positions;
ghost use Rattle.sc_typing.specs.Views.{entity_of, formals_in, meaning_in, routine_in, types_in, typing_of};
ghost use Rattle.sc_typing.specs.Judges.{Judges, Passes};
ghost use Rattle.sc_faults.specs.Internal.Listing as listing;
ghost use Rattle.sc_faults.specs.Internal.Adding.{AddsFaults, AddsWhereKnown};

use crate::calls::{
    formals_of, found_actuals, judge_before, judge_name, receiver_type, target_type, untyped,
};
use crate::found::{add, add_alone, add_first};
use crate::passing::{Passing, known_handlers};
use crate::scopes::give_names;
use crate::types::add_type_if_any;
use sc_rules::entity_types::EntityType;
use sc_rules::{Context, Fault, Position, Rule, Use};
use sc_text::Span;
use sc_tree::{BinaryOperator, Call, Expr, UnaryOperator};
use sc_typing::{
    CallContext, CheckFault, Entity, Meaning, RoutineContext, Typing, judge_unary, operand_context,
    operand_position, refusal,
};
use std::alloc::AllocError;

/// Judges an expression in its position.
fn judge_expression<'s>(
    routine: &RoutineContext<'_, 's>,
    context: Context,
    position: Position,
    names: &[Entity<'s>],
    e: &'s Expr,
) -> Result<Typing, CheckFault>
    ensures { Judges typing_of (judging.judge (routine_in routine.now) context position (map entity_of names.now)
        (expr_of e.now)) result }
{
    match position {
        Position::Plain => routine.expression(context, Position::Plain, names, e),
        Position::Source => routine.expression(context, Position::Source, names, e),
        Position::Condition => {
            let mut known = Vec::from_slice(routine.alloc, names)?;
            routine.condition(context, &mut known, e)
        }
    }
}

/// Whether the names that the left operand gives are known in the right one.
fn shares_names(position: Position, operator: BinaryOperator) -> bool
    ensures { result ≡ positions.shares_names position operator }
{
    match position {
        Position::Condition => operator.is_and_then(),
        Position::Plain | Position::Source => false,
    }
}

/// Judges `old`, whatever its operand is.
fn judge_old(context: Context, span: Span, operator: UnaryOperator) -> Result<(), CheckFault>
    ensures { Passes (listing.judge_old context operator span) result }
{
    match judge_unary(context, span, operator, untyped()) {
        Ok(_) => Ok(()),
        Err(fault) => Err(fault),
    }
}

/// Judges the place of an object test, whatever its operand is.
fn judge_place(position: Position, span: Span) -> Result<(), CheckFault>
    ensures { Passes (listing.judge_place position span) result }
{
    match position {
        Position::Condition => Ok(()),
        Position::Plain | Position::Source => Err(refusal(Rule::ObjectTestPlace, span)),
    }
}

/// Adds the faults of an expression and of its operands.
#[cycle(expressions)]
pub fn add_expression<'s>(
    routine: &RoutineContext<'_, 's>,
    context: Context,
    position: Position,
    names: &[Entity<'s>],
    e: &'s Expr,
    faults: &mut Vec<Fault>,
) -> Result<(), AllocError>
    ensures { OnOk result (faults.new.items ≡ faults.old.items ++ listing.faults_of (routine_in routine.now) context
        position (map entity_of names.now) (expr_of e.now)) }
{
    match judge_expression(routine, context, position, names, e) {
        Ok(_) => Ok(()),
        Err(CheckFault::Refused(fault)) => {
            let mut operands = Vec::new(routine.alloc);
            add_operands(routine, context, position, names, e, &mut operands)?;
            add_first(fault, &mut operands, faults)
        }
        Err(CheckFault::OutOfMemory) => Err(AllocError),
    }
}

/// Adds the fault that judging a site has reported, if it has reported one, then those of the expression at the site.
#[cycle(expressions)]
pub fn add_site<'s>(
    routine: &RoutineContext<'_, 's>,
    context: Context,
    position: Position,
    names: &[Entity<'s>],
    e: &'s Expr,
    judged: &Result<(), CheckFault>,
    faults: &mut Vec<Fault>,
) -> Result<(), AllocError>
    ensures { AddsFaults judged.now (listing.faults_of (routine_in routine.now) context position (map entity_of names.now)
        (expr_of e.now)) result faults.old.items faults.new.items }
{
    let mut operands = Vec::new(routine.alloc);
    add_expression(routine, context, position, names, e, &mut operands)?;
    add(judged, &mut operands, faults)
}

/// Adds the faults of the parts of an expression, with those of its own that don't depend on what its operands are.
#[cycle(expressions)]
fn add_operands<'s>(
    routine: &RoutineContext<'_, 's>,
    context: Context,
    position: Position,
    names: &[Entity<'s>],
    e: &'s Expr,
    faults: &mut Vec<Fault>,
) -> Result<(), AllocError>
    ensures { OnOk result (faults.new.items ≡ faults.old.items ++ listing.faults_in (routine_in routine.now) context
        position (map entity_of names.now) (expr_of e.now)) }
{
    match e {
        Expr::Integer(_, _) => Ok(()),
        Expr::Boolean(_, _) => Ok(()),
        Expr::Void(_) => Ok(()),
        Expr::Current(_) => Ok(()),
        Expr::Result(_) => Ok(()),
        Expr::Call(call) => add_call(routine, context, Use::Value, names, call, faults),
        Expr::Unary(span, operator, operand) => {
            let inside = operand_context(*operator, context);
            add_expression(routine, inside, Position::Plain, names, operand, faults)?;
            add_alone(judge_old(context, *span, *operator), faults)
        }
        Expr::Binary(_, operator, left, right) => {
            if shares_names(position, *operator) {
                add_expression(routine, context, Position::Condition, names, left, faults)?;
                add_right(routine, context, names, right, left, faults)
            } else {
                let side = operand_position(*operator);
                add_expression(routine, context, side, names, left, faults)?;
                add_expression(routine, context, side, names, right, faults)
            }
        }
        Expr::ObjectTest(span, declared, tested, _) => {
            add_type_if_any(
                routine.alloc,
                routine.tables,
                routine.formals,
                declared,
                faults,
            )?;
            add_expression(routine, context, Position::Plain, names, tested, faults)?;
            add_alone(judge_place(position, *span), faults)
        }
    }
}

/// Adds the faults of the right operand of an `and then` in a condition, in which the names are known that the left one
/// gives.
#[cycle(expressions)]
fn add_right<'s>(
    routine: &RoutineContext<'_, 's>,
    context: Context,
    names: &[Entity<'s>],
    right: &'s Expr,
    left: &'s Expr,
    faults: &mut Vec<Fault>,
) -> Result<(), AllocError>
    ensures { OnOk result (faults.new.items ≡ faults.old.items ++ listing.where_known (judging.judge_given
        (routine_in routine.now) context (map entity_of names.now) (expr_of left.now)) (λ known. listing.faults_of
        (routine_in routine.now) context Condition known (expr_of right.now))) }
{
    let mut known = Vec::from_slice(routine.alloc, names)?;
    let given = give_names(routine, context, &mut known, left);
    add_where_known(routine, context, given, &known, right, faults)
}

/// Adds the faults of the right operand of an `and then` in a condition, if what the left one gives is known.
#[cycle(expressions)]
fn add_where_known<'s>(
    routine: &RoutineContext<'_, 's>,
    context: Context,
    given: Result<(), CheckFault>,
    known: &[Entity<'s>],
    right: &'s Expr,
    faults: &mut Vec<Fault>,
) -> Result<(), AllocError>
    ensures { AddsWhereKnown (routine_in routine.now) context given (map entity_of known.now) (expr_of right.now) result
        faults.old.items faults.new.items }
{
    match given {
        Ok(()) => add_expression(routine, context, Position::Condition, known, right, faults),
        Err(CheckFault::Refused(_)) => Ok(()),
        Err(CheckFault::OutOfMemory) => Err(AllocError),
    }
}

/// Adds the faults of what is before the dot of a call, and the one of a target that may not be one.
#[cycle(expressions)]
fn add_target<'s>(
    routine: &RoutineContext<'_, 's>,
    context: Context,
    names: &[Entity<'s>],
    target: &'s Option<Box<Expr>>,
    faults: &mut Vec<Fault>,
) -> Result<(), AllocError>
    ensures { OnOk result (faults.new.items ≡ faults.old.items ++ listing.faults_in_target (routine_in routine.now) context
        (map entity_of names.now) (target_of target.now)) }
{
    match target {
        None => Ok(()),
        Some(target) => {
            let judged = judge_before(routine, context, names, target);
            add_site(
                routine,
                context,
                Position::Plain,
                names,
                target,
                &judged,
                faults,
            )
        }
    }
}

/// Adds the faults of the actuals of a call, each with the one of an actual that its formal doesn't take.
#[cycle(expressions)]
fn add_actuals<'s>(
    routine: &RoutineContext<'_, 's>,
    context: Context,
    names: &[Entity<'s>],
    passing: &Passing,
    actuals: &'s [Expr],
    faults: &mut Vec<Fault>,
) -> Result<(), AllocError>
    ensures { OnOk result (faults.new.items ≡ faults.old.items ++ listing.faults_in_actuals (routine_in routine.now) context
        (map entity_of names.now) (listing.judge_passed (routine_in routine.now) context passing.now.receiver
        passing.now.target (types_in passing.now.found.now)) (formals_in (system_in routine.now.tables.now)
        passing.now.formals) (exprs_of actuals.now)) }
{
    for number in 0..actuals.len() {
        let actual = &actuals[number];
        let judged = passing.judge(routine, context, names, number, actual);
        add_site(
            routine,
            context,
            Position::Source,
            names,
            actual,
            &judged,
            faults,
        )?;
    }
    Ok(())
}

/// Adds the faults of the actuals of a call that means this, where the target has this type, if it has one.
#[cycle(expressions)]
pub fn add_arguments<'s>(
    routine: &RoutineContext<'_, 's>,
    context: Context,
    names: &[Entity<'s>],
    receiver: Option<EntityType>,
    meaning: &Meaning<'s>,
    actuals: &'s [Expr],
    faults: &mut Vec<Fault>,
) -> Result<(), AllocError>
    ensures { OnOk result (faults.new.items ≡ faults.old.items ++ listing.faults_in_actuals (routine_in routine.now) context
        (map entity_of names.now) (listing.judge_passed_to (routine_in routine.now) context (map entity_of names.now)
        receiver (meaning_in (system_in routine.now.tables.now) meaning.now) (exprs_of actuals.now))
        (judging.formals_of (meaning_in (system_in routine.now.tables.now) meaning.now)) (exprs_of actuals.now)) }
{
    let found = found_actuals(routine, context, names, actuals)?;
    let known = known_handlers(routine.alloc, &found)?;
    let passing = Passing {
        receiver,
        target: target_type(routine, meaning),
        formals: formals_of(meaning),
        found: &found,
        known: &known,
    };
    add_actuals(routine, context, names, &passing, actuals, faults)
}

/// Adds the faults of a call: of its target, its actuals and its name.
#[cycle(expressions)]
pub fn add_call<'s>(
    routine: &RoutineContext<'_, 's>,
    context: Context,
    usage: Use,
    names: &[Entity<'s>],
    call: &'s Call,
    faults: &mut Vec<Fault>,
) -> Result<(), AllocError>
    ensures { OnOk result (faults.new.items ≡ faults.old.items ++ listing.faults_of_call (routine_in routine.now) context
        (map entity_of names.now) usage (target_of call.now.target) (name_of call.now.name)
        (exprs_of call.now.actuals.items)) }
{
    add_target(routine, context, names, &call.target, faults)?;
    let receiver = receiver_type(routine, context, names, &call.target)?;
    let meaning = routine.meaning_of(names, &call.target, receiver, &call.name);
    add_arguments(
        routine,
        context,
        names,
        receiver,
        &meaning,
        &call.actuals,
        faults,
    )?;
    let site = CallContext {
        context,
        usage,
        target: &call.target,
        span: call.name.span,
    };
    let judged = judge_name(routine, &site, &meaning, call.actuals.len());
    add_alone(judged, faults)
}
