//! Silent operations that ask nothing of the tables or the objects.
ghost use Rattle.std.specs.Prelude.{◌<◌, ◌∷◌, length};
ghost use Rattle.sc_region.specs.Frames.{activation_of};
ghost use Rattle.sc_code.specs.Operations as flat;
ghost use Rattle.sc_code.specs.Machine as machine;
ghost use Rattle.sc_interp.specs.Values.{value_of};
ghost use Rattle.sc_interp.specs.Standing.{Hops, Passes, Stays, stepped};

use crate::evaluation::{binary_value, decided_by, unary_value};
use crate::passing::{put_past, replace, skip, store};
use sc_model::Cause;
use sc_region::{Activation, Value};
use sc_tree::{BinaryOperator, UnaryOperator};

/// The last operand is the operand of the operator.
#[inline(always)]
pub fn apply_unary(
    activation: &mut Activation,
    count: usize,
    operator: UnaryOperator,
) -> Result<(), Cause>
    ensures hops { Hops count (flat.ApplyUnary operator) (stepped result) (activation_of activation.old) (activation_of activation.new) }
    ensures stays { Stays (activation_of activation.old) (activation_of activation.new) }
{
    match activation.operands.pop() {
        Some(value) => replace(activation, count, unary_value(operator, value)),
        None => Err(Cause::BadCode),
    }
}

/// The last two operands are those of the operator.
pub fn apply_binary(
    activation: &mut Activation,
    count: usize,
    operator: BinaryOperator,
) -> Result<(), Cause>
    ensures hops { Hops count (flat.ApplyBinary operator) (stepped result) (activation_of activation.old) (activation_of activation.new) }
    ensures stays { Stays (activation_of activation.old) (activation_of activation.new) }
{
    match activation.operands.pop() {
        Some(right) => apply_to(activation, count, operator, right),
        None => Err(Cause::BadCode),
    }
}

/// Applies an operator to the last operand and the right one, which was popped. If there is no left one, the right
/// one stays.
fn apply_to(
    activation: &mut Activation,
    count: usize,
    operator: BinaryOperator,
    right: Value,
) -> Result<(), Cause>
    requires { length (activation_of activation.old).operands.values < (activation_of activation.old).operands.depth }
    ensures passes { Passes count (λ c f. machine.applies c operator (value_of right) f.values (record f { values = value_of right ∷ f.values }))
        (stepped result) (activation_of activation.old) (activation_of activation.new) }
    ensures stays { Stays (activation_of activation.old) (activation_of activation.new) }
{
    match activation.operands.pop() {
        Some(left) => replace(activation, count, binary_value(operator, left, right)),
        None => {
            activation.operands.push(right);
            Err(Cause::BadCode)
        }
    }
}

/// Where the last operand decides, its decision comes in its place and the right operand is passed.
#[inline(always)]
pub fn decide(
    activation: &mut Activation,
    count: usize,
    operator: BinaryOperator,
    passed: usize,
) -> Result<(), Cause>
    ensures hops { Hops count (flat.Decide operator passed) (stepped result) (activation_of activation.old) (activation_of activation.new) }
    ensures stays { Stays (activation_of activation.old) (activation_of activation.new) }
{
    match activation.operands.pop() {
        Some(left) => match decided_by(operator, left) {
            Some(value) => put_past(activation, count, Value::Boolean(value), passed),
            None => skip(activation, count, 0),
        },
        None => Err(Cause::BadCode),
    }
}

/// The last operand is a truth value, and stays.
#[inline(always)]
pub fn conclude(activation: &mut Activation, count: usize) -> Result<(), Cause>
    ensures hops { Hops count flat.Conclude (stepped result) (activation_of activation.old) (activation_of activation.new) }
    ensures stays { Stays (activation_of activation.old) (activation_of activation.new) }
{
    match activation.operands.pop() {
        Some(Value::Boolean(value)) => put_past(activation, count, Value::Boolean(value), 0),
        _ => Err(Cause::BadCode),
    }
}

/// The last operand goes into the slot.
#[inline(always)]
pub fn store_slot(activation: &mut Activation, count: usize, slot: usize) -> Result<(), Cause>
    ensures hops { Hops count (flat.StoreSlot slot) (stepped result) (activation_of activation.old) (activation_of activation.new) }
    ensures stays { Stays (activation_of activation.old) (activation_of activation.new) }
{
    match activation.operands.pop() {
        Some(value) => store(activation, count, slot, value),
        None => Err(Cause::BadCode),
    }
}

/// The last operand is the Result.
#[inline(always)]
pub fn store_result(activation: &mut Activation, count: usize) -> Result<(), Cause>
    ensures hops { Hops count flat.StoreResult (stepped result) (activation_of activation.old) (activation_of activation.new) }
    ensures stays { Stays (activation_of activation.old) (activation_of activation.new) }
{
    match activation.operands.pop() {
        Some(value) => {
            activation.result = Some(value);
            skip(activation, count, 0)
        }
        None => Err(Cause::BadCode),
    }
}

/// Skips this number of operations if the last operand is False.
#[inline(always)]
pub fn skip_if_false(activation: &mut Activation, count: usize, passed: usize) -> Result<(), Cause>
    ensures hops { Hops count (flat.SkipIfFalse passed) (stepped result) (activation_of activation.old) (activation_of activation.new) }
    ensures stays { Stays (activation_of activation.old) (activation_of activation.new) }
{
    match activation.operands.pop() {
        Some(Value::Boolean(true)) => skip(activation, count, 0),
        Some(Value::Boolean(false)) => skip(activation, count, passed),
        _ => Err(Cause::BadCode),
    }
}

/// The last operand is True, or the handler fails so.
#[inline(always)]
pub fn expect(activation: &mut Activation, count: usize, why: Cause) -> Result<(), Cause>
    ensures hops { Hops count (flat.Expect why) (stepped result) (activation_of activation.old) (activation_of activation.new) }
    ensures stays { Stays (activation_of activation.old) (activation_of activation.new) }
{
    match activation.operands.pop() {
        Some(Value::Boolean(true)) => skip(activation, count, 0),
        Some(Value::Boolean(false)) => Err(why),
        _ => Err(Cause::BadCode),
    }
}
