//! What is found of expressions.

ghost use Rattle.std.specs.Prelude.{◌≡◌, ◌||◌};
ghost use Rattle.sc_rules.specs.Typing as spec;
ghost use Rattle.sc_rules.specs.Judging as judging;
ghost use Rattle.sc_typing.specs.Views.{judged_in, typing_of};
ghost use Rattle.sc_typing.specs.Judges as judges;
ghost use Rattle.sc_typing.specs.Judges.{Judges, fault_kept};

use crate::declarations::types::is_foreign;
use crate::expressions::operators::{binary_result, unary_result};
use crate::expressions::positions::{is_ensure, is_require};
use crate::fault::{CheckFault, refusal, required};
use sc_rules::entity_types::EntityType;
use sc_rules::{Context, Fault, Rule};
use sc_text::Span;
use sc_tree::{BinaryOperator, UnaryOperator};

/// What is found of an expression in which no rule fails.
#[derive(Clone, Copy)]
pub struct Typing {
    /// Its type, or none if a declaration that it depends on is faulty.
    pub entity_type: Option<EntityType>,
    /// Whether a separate call is made in it.
    pub is_separate: bool,
}

/// An actual of a call.
#[derive(Clone, Copy)]
pub struct JudgedActual {
    /// Its place.
    pub span: Span,
    /// What is found of it, or the rule that fails in it.
    pub judged: Result<Typing, Fault>,
}

/// Of this type, with no separate call.
pub fn simple_typing(entity_type: EntityType) -> Typing
    ensures { typing_of result ≡ spec.simple_typing entity_type }
{
    Typing {
        entity_type: Some(entity_type),
        is_separate: false,
    }
}

/// Whether a separate call is made in one of two parts.
pub fn is_either_separate(one: bool, other: bool) -> bool
    ensures { result ≡ one || other }
{
    one || other
}

/// Whether a call is separate whose target has this type, if it has one.
pub fn is_foreign_type(target: Option<EntityType>) -> bool
    ensures { result ≡ spec.is_foreign_type target }
{
    match target {
        None => false,
        Some(target) => is_foreign(target.tag),
    }
}

/// Whether it is no reference, as far as there is a type.
pub fn is_value(actual: Option<EntityType>) -> bool
    ensures { result ≡ spec.is_value actual }
{
    match actual {
        None => true,
        Some(actual) => actual.is_expanded(),
    }
}

/// Whether a call with a target of this type may pass an actual of that type: in a precondition a separate call passes
/// no references.
pub fn may_pass(context: Context, target: Option<EntityType>, actual: Option<EntityType>) -> bool
    ensures { result ≡ judging.may_pass context target actual }
{
    !(is_require(context) && is_foreign_type(target)) || is_value(actual)
}

/// Whether `old` is in a postcondition and makes no separate call.
fn old_stands(context: Context, operator: UnaryOperator, operand: Typing) -> bool
    ensures { result ≡ spec.old_stands context operator (typing_of operand) }
{
    !operator.is_old() || (is_ensure(context) && !operand.is_separate)
}

/// Judges an operation, if its operator takes its operands.
fn judge_operation(
    span: Span,
    is_separate: bool,
    given: Option<Option<EntityType>>,
) -> Result<Typing, CheckFault>
    ensures { Judges typing_of (judging.judge_operation span is_separate given) result }
{
    match given {
        None => Err(refusal(Rule::OperatorType, span)),
        Some(entity_type) => Ok(Typing {
            entity_type,
            is_separate,
        }),
    }
}

/// Judges a unary operator, after its operand.
pub fn judge_unary(
    context: Context,
    span: Span,
    operator: UnaryOperator,
    operand: Typing,
) -> Result<Typing, CheckFault>
    ensures { Judges typing_of (judges.judge_unary context span operator (typing_of operand)) result }
{
    required(old_stands(context, operator, operand), Rule::OldPlace, span)?;
    let given = unary_result(operator, operand.entity_type);
    judge_operation(span, operand.is_separate, given)
}

/// Judges a binary operator, after its operands.
pub fn judge_binary(
    span: Span,
    operator: BinaryOperator,
    left: Typing,
    right: Typing,
) -> Result<Typing, CheckFault>
    ensures { Judges typing_of (judges.judge_binary span operator (typing_of left) (typing_of right)) result }
{
    let given = binary_result(operator, left.entity_type, right.entity_type);
    judge_operation(
        span,
        is_either_separate(left.is_separate, right.is_separate),
        given,
    )
}

/// The type of Result, in a function.
pub fn judge_result(
    span: Span,
    given: Option<Option<EntityType>>,
) -> Result<Option<EntityType>, CheckFault>
    ensures { Judges (λ t. t) (judging.judge_result span given) result }
{
    match given {
        None => Err(refusal(Rule::ResultType, span)),
        Some(given) => Ok(given),
    }
}

/// The type that is found, if one is.
pub fn judged_type(judged: Result<Typing, Fault>) -> Option<EntityType>
    ensures { result ≡ judging.judged_type (judged_in judged) }
{
    match judged {
        Err(_) => None,
        Ok(typing) => typing.entity_type,
    }
}

/// What is found, with its fault as that of the check.
pub fn as_check_result(judged: Result<Typing, Fault>) -> Result<Typing, CheckFault>
    ensures { Judges typing_of (judged_in judged) result }
{
    match judged {
        Err(fault) => Err(CheckFault::Refused(fault)),
        Ok(typing) => Ok(typing),
    }
}

/// What is found, with its fault kept for later, unless no memory was left.
pub fn keep_fault(judged: Result<Typing, CheckFault>) -> Result<Result<Typing, Fault>, CheckFault>
    ensures { result ≡ fault_kept judged }
{
    match judged {
        Err(CheckFault::OutOfMemory) => Err(CheckFault::OutOfMemory),
        Err(CheckFault::Refused(fault)) => Ok(Err(fault)),
        Ok(typing) => Ok(Ok(typing)),
    }
}
