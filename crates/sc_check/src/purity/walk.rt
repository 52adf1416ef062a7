//! What is done in expressions that bears on purity, found by the walk that types them.

ghost use Rattle.std.specs.Prelude.{◌≡◌, false, map, IfOk, OnOk};
ghost use Rattle.sc_tree.specs.View.{expr_of, exprs_of, name_of, target_of, type_if_any};
ghost use Rattle.sc_rules.specs.Positions as positions;
ghost use Rattle.sc_rules.specs.Judging as judging;
ghost use Rattle.sc_rules.specs.JudgingPurity as spec;
ghost use Rattle.sc_rules.specs.declared.position.Position.TheVariants.{Condition};
ghost use Rattle.sc_typing.specs.Views.{routine_in, entity_of, actual_in, judged_in, meaning_in, typing_of};
ghost use Rattle.sc_class.specs.SystemIn.{system_in};
ghost use Rattle.sc_typing.specs.Judges.{Judges, JudgesActuals, judge_call};
ghost use Rattle.sc_rules.specs.declared.position.Use.TheVariants.{Value};
ghost use Rattle.sc_check.specs.purity.Internal.Effects as internal;
ghost use Rattle.sc_check.specs.purity.Internal.Effects.{Adds, IsFound, effects_in_call, target_found};

use crate::purity::effects::{Effect, add_named};
use sc_rules::{Context, Fault, Position, Role, Rule, Use};
use sc_text::Span;
use sc_tree::{BinaryOperator, Call, DeclaredType, Expr, UnaryOperator};
use sc_typing::{
    CallContext, CheckFault, Entity, JudgedActual, Meaning, RoutineContext, Typing,
    as_check_result, judge_binary, judge_receiver, judge_unary, judged_type, keep_fault,
    operand_context, operand_position, refusal, simple_typing,
};

/// What is found of a target, as what is called sees it.
fn received(target: &Option<Box<Expr>>, found: Typing) -> Result<Typing, CheckFault>
    ensures { Judges typing_of (internal.received (target_of target.now) (typing_of found)) result }
{
    match target {
        None => Ok(found),
        Some(target) => judge_receiver(target.span(), found),
    }
}

/// Judges the effects of a unary operator, after those of its operand.
fn judge_behind_operand(
    context: Context,
    span: Span,
    operator: UnaryOperator,
    operand: Result<Typing, Fault>,
) -> Result<Typing, CheckFault>
    ensures { Judges typing_of (internal.judge_behind_operand context span operator (judged_in operand)) result }
{
    judge_unary(context, span, operator, as_check_result(operand)?)
}

/// Judges the effects of a binary operator, after those of its operands.
fn judge_behind_operands(
    span: Span,
    operator: BinaryOperator,
    left: Result<Typing, Fault>,
    right: Result<Typing, Fault>,
) -> Result<Typing, CheckFault>
    ensures { Judges typing_of (internal.judge_behind_operands span operator (judged_in left)
        (judged_in right)) result }
{
    let left = as_check_result(left)?;
    judge_binary(span, operator, left, as_check_result(right)?)
}

/// Judges an object test outside a condition, after what is tested.
fn judge_misplaced<'s>(
    routine: &RoutineContext<'_, 's>,
    span: Span,
    declared: &Option<DeclaredType>,
    tested: Result<Typing, Fault>,
) -> Result<Typing, CheckFault>
    ensures { Judges typing_of (internal.judge_misplaced (routine_in routine.now) span (type_if_any declared.now)
        (judged_in tested)) result }
{
    routine.judge_tested(declared)?;
    as_check_result(tested)?;
    Err(refusal(Rule::ObjectTestPlace, span))
}

/// Judges a call, after its target and its actuals.
fn judge_met<'s>(
    routine: &RoutineContext<'_, 's>,
    context: Context,
    call: &Call,
    meaning: &Meaning<'s>,
    found: &[JudgedActual],
    target: Result<Typing, Fault>,
) -> Result<Typing, CheckFault>
    ensures { Judges typing_of (internal.judge_met (routine_in routine.now) context (target_of call.now.target)
        (meaning_in (system_in routine.now.tables.now) meaning.now) call.now.name.span (map actual_in found.now)
        (judged_in target)) result }
{
    let target = as_check_result(target)?;
    let receiver = received(&call.target, target)?;
    let site = CallContext {
        context,
        usage: Use::Value,
        target: &call.target,
        span: call.name.span,
    };
    routine.judge_actuals_and_name(&site, meaning, found, receiver)
}

/// Adds what is done in the target of a call, and gives what is found of it.
#[cycle(expression_effects)]
#[tactic(auto, unfolding(sc_rules::specs::JudgingPurity::effects))]
pub fn add_target<'s>(
    routine: &RoutineContext<'_, 's>,
    context: Context,
    names: &[Entity<'s>],
    target: &'s Option<Box<Expr>>,
    effects: &mut Vec<Effect<'s>>,
) -> Result<Result<Typing, Fault>, CheckFault>
    ensures effects { Adds effects.old.items effects.new.items
        (spec.effects_of_target (routine_in routine.now) context (map entity_of names.now)
        (target_of target.now)) result }
    ensures found { IsFound (target_found (routine_in routine.now) context (map entity_of names.now)
        (target_of target.now)) result }
{
    match target {
        None => Ok(Ok(simple_typing(routine.current()))),
        Some(target) => add_expression(routine, context, Position::Plain, names, target, effects),
    }
}

/// Adds what is done in actuals, and gives what is found of them.
#[cycle(expression_effects)]
#[tactic(auto, unfolding(sc_rules::specs::JudgingPurity::effects, sc_rules::specs::Judging::judge))]
pub fn add_actuals<'s>(
    routine: &RoutineContext<'_, 's>,
    context: Context,
    names: &[Entity<'s>],
    actuals: &'s [Expr],
    effects: &mut Vec<Effect<'s>>,
) -> Result<Vec<JudgedActual>, CheckFault>
    ensures effects { Adds effects.old.items effects.new.items
        (spec.effects_of_actuals (routine_in routine.now) context (map entity_of names.now)
        (exprs_of actuals.now)) result }
    ensures found { JudgesActuals (judging.judged_actuals (routine_in routine.now) context (map entity_of names.now)
        (exprs_of actuals.now)) result }
{
    let mut found = Vec::with_capacity(routine.alloc, actuals.len())?;
    for actual in actuals {
        let judged = add_expression(routine, context, Position::Source, names, actual, effects)?;
        found.push(JudgedActual {
            span: actual.span(),
            judged,
        })?;
    }
    Ok(found)
}

/// Adds what is done in a call that is a value, and gives what is found of it.
#[cycle(expression_effects)]
fn add_call<'s>(
    routine: &RoutineContext<'_, 's>,
    context: Context,
    names: &[Entity<'s>],
    call: &'s Call,
    effects: &mut Vec<Effect<'s>>,
) -> Result<Result<Typing, Fault>, CheckFault>
    ensures effects { Adds effects.old.items effects.new.items
        (effects_in_call (routine_in routine.now) context (map entity_of names.now) (target_of call.now.target)
        (name_of call.now.name) (exprs_of call.now.actuals.items)) result }
    ensures found { IsFound (judge_call (routine_in routine.now) context (map entity_of names.now) Value
        (target_of call.now.target) (name_of call.now.name) (exprs_of call.now.actuals.items)) result }
{
    let target = add_target(routine, context, names, &call.target, effects)?;
    let found = add_actuals(routine, context, names, &call.actuals, effects)?;
    let meaning = add_named(routine, names, call, judged_type(target), effects)?;
    keep_fault(judge_met(routine, context, call, &meaning, &found, target))
}

/// Adds what is done in an expression that is no condition of an `if`, and gives what is found of it.
#[cycle(expression_effects)]
pub fn add_expression<'s>(
    routine: &RoutineContext<'_, 's>,
    context: Context,
    position: Position,
    names: &[Entity<'s>],
    e: &'s Expr,
    effects: &mut Vec<Effect<'s>>,
) -> Result<Result<Typing, Fault>, CheckFault>
    requires { positions.is_condition position ≡ false }
    ensures effects { Adds effects.old.items effects.new.items
        (spec.effects (routine_in routine.now) context position (map entity_of names.now) (expr_of e.now)) result }
    ensures found { IsFound (judging.judge (routine_in routine.now) context position (map entity_of names.now)
        (expr_of e.now)) result }
{
    match e {
        Expr::Integer(_, _) | Expr::Boolean(_, _) => {
            keep_fault(routine.expression(context, position, names, e))
        }
        Expr::Void(_) | Expr::Current(_) | Expr::Result(_) => {
            keep_fault(routine.expression(context, position, names, e))
        }
        Expr::Call(call) => add_call(routine, context, names, call, effects),
        Expr::Unary(span, operator, operand) => {
            let inside = operand_context(*operator, context);
            let found = add_expression(routine, inside, Position::Plain, names, operand, effects)?;
            keep_fault(judge_behind_operand(context, *span, *operator, found))
        }
        Expr::Binary(span, operator, left, right) => {
            let side = operand_position(*operator);
            let left = add_expression(routine, context, side, names, left, effects)?;
            let right = add_expression(routine, context, side, names, right, effects)?;
            keep_fault(judge_behind_operands(*span, *operator, left, right))
        }
        Expr::ObjectTest(span, declared, tested, _) => {
            let tested = add_expression(routine, context, Position::Plain, names, tested, effects)?;
            keep_fault(judge_misplaced(routine, *span, declared, tested))
        }
    }
}

/// Adds what is done in the condition of an `if` or an operand of the `and then`s at its top. The names that its object
/// tests give join those that are known, whatever rule fails in them.
#[tactic(auto, unfolding(sc_rules::specs::JudgingPurity::effects, sc_tree::specs::View::expr_of), using(crate::proofs::purity::EffectSteps::added_two))]
pub fn add_condition<'s>(
    routine: &RoutineContext<'_, 's>,
    context: Context,
    names: &mut Vec<Entity<'s>>,
    e: &'s Expr,
    effects: &mut Vec<Effect<'s>>,
) -> Result<(), CheckFault>
    ensures effects { Adds effects.old.items effects.new.items
        (spec.effects (routine_in routine.now) context Condition (map entity_of names.old.items)
        (expr_of e.now)) result }
    ensures given { OnOk result (map entity_of names.new.items
        ≡ spec.given_anyway (routine_in routine.now) context (map entity_of names.old.items) (expr_of e.now)) }
{
    match e {
        Expr::Binary(_, operator, left, right) if operator.is_and_then() => {
            add_condition(routine, context, names, left, effects)?;
            add_condition(routine, context, names, right, effects)?;
            Ok(())
        }
        Expr::ObjectTest(_, declared, tested, name) => {
            let tested = add_expression(routine, context, Position::Plain, names, tested, effects)?;
            names.push(Entity {
                name: name.as_str(),
                entity_type: routine.test_type(declared, judged_type(tested)),
                role: Role::Test,
            })?;
            Ok(())
        }
        _ => {
            let _ = add_expression(routine, context, Position::Plain, names, e, effects)?;
            Ok(())
        }
    }
}
