//! Visible operations: what they name is returned, and the routine stays as it is.
ghost use Rattle.std.specs.Prelude.{◌≡◌, ℕ, IfSome};
ghost use Rattle.sc_acts.specs.declared.act.Act.TheVariants as act;
ghost use Rattle.sc_interp.specs.declared.hops.Hop.TheVariants as outcome;
ghost use Rattle.sc_code.specs.declared.operation.Operation.TheVariants as coded;
ghost use Rattle.sc_code.specs.declared.program.Image.{Image};
ghost use Rattle.sc_region.specs.declared.value.Reference as code;
ghost use Rattle.sc_region.specs.Frames.{PlainActivation, activation_of};
ghost use Rattle.sc_code.specs.Operations as flat;
ghost use Rattle.sc_interp.specs.Standing.{ComesToUntil, Demands, Follows, FollowsOnEach, Hops, Stays};
ghost use Rattle.sc_interp.specs.Told.{HasDemand, OnComes, Tells};

use crate::hops::{Hop, stepped};
use crate::passing::skip;
use sc_acts::Act;
use sc_code::Program;
use sc_model::Cause;
use sc_region::{Activation, Value};

/// Prints the value of the last operand: F16 if it is neither INTEGER nor BOOLEAN.
pub fn print(activation: &mut Activation) -> Hop
    ensures hops { (count : ℕ) → Hops count flat.Print result (activation_of activation.old) (activation_of activation.new) }
    ensures stays { Stays (activation_of activation.old) (activation_of activation.new) }
    ensures told { (p : Image) → Tells p result (activation_of activation.new) }
    ensures kept { OnComes result (activation_of activation.new ≡ activation_of activation.old) }
{
    match activation.operands.pop() {
        Some(Value::Integer(value)) => {
            activation.operands.push(Value::Integer(value));
            Hop::Comes(Act::PrintInteger(value))
        }
        Some(Value::Boolean(value)) => {
            activation.operands.push(Value::Boolean(value));
            Hop::Comes(Act::PrintBoolean(value))
        }
        Some(Value::Void | Value::Attached(_)) | None => Hop::Failed(Cause::BadCode),
    }
}

/// Prints the text of the number, if there is one.
pub fn print_text(program: &Program, text: usize) -> Hop
    ensures follows { (me : code.Reference) (count : ℕ) (a : PlainActivation) → Follows program.now.image me count (coded.PrintText text) result a a }
    ensures told { (a : PlainActivation) → Tells program.now.image result a }
{
    if text < program.pool().texts.len() {
        Hop::Comes(Act::PrintText(text))
    } else {
        Hop::Failed(Cause::BadCode)
    }
}

/// Ends the loop if the last operand is True; else its body comes again, this number of operations back.
pub fn end_loop(activation: &mut Activation, back: usize) -> Hop
    ensures hops { (count : ℕ) → Hops count (flat.EndLoop back) result (activation_of activation.old) (activation_of activation.new) }
    ensures stays { Stays (activation_of activation.old) (activation_of activation.new) }
    ensures told { (p : Image) → Tells p result (activation_of activation.new) }
    ensures kept { OnComes result (activation_of activation.new ≡ activation_of activation.old) }
{
    match activation.operands.pop() {
        Some(Value::Boolean(ends)) => {
            activation.operands.push(Value::Boolean(ends));
            Hop::Comes(Act::Until(if ends { None } else { Some(back) }))
        }
        _ => Hop::Failed(Cause::BadCode),
    }
}

/// The last operand is the value of a clause of a precondition, which names the formals of the list of the number.
#[inline(always)]
fn demand_on(activation: &mut Activation, count: usize, number: usize) -> Hop
    ensures demands { Demands count number result (activation_of activation.old) (activation_of activation.new) }
    ensures stays { Stays (activation_of activation.old) (activation_of activation.new) }
    ensures told { (p : Image) → HasDemand p number → Tells p result (activation_of activation.new) }
    ensures kept { OnComes result (activation_of activation.new ≡ activation_of activation.old) }
{
    match activation.operands.pop() {
        Some(Value::Boolean(true)) => stepped(skip(activation, count, 0)),
        Some(Value::Boolean(false)) => {
            activation.operands.push(Value::Boolean(false));
            Hop::Comes(Act::Refuse(number))
        }
        _ => Hop::Failed(Cause::BadCode),
    }
}

/// Takes a clause's value by the number of its list of formals, if the program has such a list.
#[inline]
pub fn demand(program: &Program, activation: &mut Activation, count: usize, number: usize) -> Hop
    ensures follows { FollowsOnEach program.now.image count (coded.Demand number) result (activation_of activation.old) (activation_of activation.new) }
    ensures stays { Stays (activation_of activation.old) (activation_of activation.new) }
    ensures told { Tells program.now.image result (activation_of activation.new) }
    ensures kept { OnComes result (activation_of activation.new ≡ activation_of activation.old) }
{
    if number < program.pool().demands.len() {
        demand_on(activation, count, number)
    } else {
        Hop::Failed(Cause::BadCode)
    }
}

/// The result of the `until` whose value is the last operand, if that is a truth value: the loop ends, or goes this
/// number of operations back.
pub fn until(activation: &Activation, back: usize) -> Option<Option<usize>>
    ensures hops { IfSome result (λ next. ComesToUntil back next (activation_of activation.now)) }
    ensures told { IfSome result (λ next. (p : Image) → Tells p (outcome.Comes (act.Until next)) (activation_of activation.now)) }
{
    match activation.operands.last() {
        Some(Value::Boolean(ends)) => Some(if ends { None } else { Some(back) }),
        _ => None,
    }
}
