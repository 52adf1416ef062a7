//! Operations that read and write what the routine itself has.
ghost use Rattle.std.specs.Prelude.{◌≡◌, IfOk, OnErr, slice_get};
ghost use Rattle.sc_region.specs.Frames.{activation_of};
ghost use Rattle.sc_code.specs.Operations as flat;
ghost use Rattle.sc_code.specs.View.{default_value};
ghost use Rattle.sc_interp.specs.Values.{value_of};
ghost use Rattle.sc_interp.specs.Standing.{Hops, Stays, stepped};
ghost use Rattle.sc_interp.specs.Told.{IsDone};

use crate::evaluation::{found, read};
use crate::hops::{Hop, stepped};
use crate::passing::{push_found, skip, store};
use sc_code::DefaultValue;
use sc_model::Cause;
use sc_region::{Activation, Value};
use std::alloc::AllocError;

/// Result is read.
#[inline(always)]
pub fn push_result(
    activation: &mut Activation,
    count: usize,
    is_attached: bool,
) -> Result<(), Cause>
    ensures hops { Hops count (flat.PushResult is_attached) (stepped result) (activation_of activation.old) (activation_of activation.new) }
    ensures stays { Stays (activation_of activation.old) (activation_of activation.new) }
{
    let value = read(is_attached, activation.result);
    push_found(activation, count, value)
}

/// The value in a slot.
#[inline(always)]
pub fn value_at(slots: &[Value], slot: usize) -> Option<Value>
    ensures { result ≡ slice_get slots.now slot }
{
    slots.get(slot).copied()
}

/// A slot is read.
#[inline(always)]
#[tactic(auto, using(crate::proofs::GoingOn::values_get))]
pub fn push_slot(
    activation: &mut Activation,
    count: usize,
    slot: usize,
    is_attached: bool,
) -> Result<(), Cause>
    ensures hops { Hops count (flat.PushSlot slot is_attached) (stepped result) (activation_of activation.old) (activation_of activation.new) }
    ensures stays { Stays (activation_of activation.old) (activation_of activation.new) }
{
    let value = read(is_attached, value_at(&activation.slots, slot));
    push_found(activation, count, value)
}

/// A kept value is read.
#[tactic(auto, using(crate::proofs::GoingOn::values_get))]
pub fn push_old(activation: &mut Activation, count: usize, number: usize) -> Result<(), Cause>
    ensures hops { Hops count (flat.PushOld number) (stepped result) (activation_of activation.old) (activation_of activation.new) }
    ensures stays { Stays (activation_of activation.old) (activation_of activation.new) }
{
    let value = found(activation.olds.get(number));
    push_found(activation, count, value)
}

/// The default of an entity.
#[inline(always)]
pub fn default_of(value: DefaultValue) -> Value
    ensures { value_of result ≡ default_value value }
{
    match value {
        DefaultValue::Zero => Value::Integer(0),
        DefaultValue::False => Value::Boolean(false),
        DefaultValue::Void => Value::Void,
    }
}

/// A local gets its default.
#[inline(always)]
pub fn initialize(
    activation: &mut Activation,
    count: usize,
    slot: usize,
    value: DefaultValue,
) -> Result<(), Cause>
    ensures hops { Hops count (flat.Initialize slot (default_value value)) (stepped result) (activation_of activation.old) (activation_of activation.new) }
    ensures stays { Stays (activation_of activation.old) (activation_of activation.new) }
{
    store(activation, count, slot, default_of(value))
}

/// Keeps the last operand as the value of the next `old`. Its error says that memory ran out, and nothing has changed
/// then.
#[tactic(auto, using(crate::proofs::GoingOn::values_more))]
pub fn keep_old(activation: &mut Activation, count: usize) -> Result<Hop, AllocError>
    ensures hops { IfOk result (λ hop. Hops count flat.KeepOld hop (activation_of activation.old) (activation_of activation.new)) }
    ensures stays { Stays (activation_of activation.old) (activation_of activation.new) }
    ensures err { OnErr result (activation_of activation.new ≡ activation_of activation.old) }
    ensures done { IfOk result (λ hop. IsDone hop) }
{
    match activation.operands.pop() {
        Some(value) => match activation.olds.keep(value) {
            Ok(()) => Ok(stepped(skip(activation, count, 0))),
            Err(error) => {
                activation.operands.push(value);
                Err(error)
            }
        },
        None => Ok(Hop::Failed(Cause::BadCode)),
    }
}
