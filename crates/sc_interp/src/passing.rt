//! Operations that pass on in the code: in place, on the activation.
ghost use Rattle.std.specs.Prelude.{◌<◌, ◌+◌, ◌∷◌, ◌↔◌, IsTrue, length};
ghost use Rattle.sc_code.specs.Machine as flat;
ghost use Rattle.sc_region.specs.Frames.{activation_of};
ghost use Rattle.sc_interp.specs.Values.{value_of, evaluated};
ghost use Rattle.sc_interp.specs.Standing.{Drops, Passes, Stays, stepped};

use sc_model::Cause;
use sc_region::{Activation, Value};

/// Skips this number of operations after this one; F16 if the code, of `count` operations, has none there.
#[inline(always)]
pub fn skip(activation: &mut Activation, count: usize, passed: usize) -> Result<(), Cause>
    ensures passes { Passes count (λ c f. flat.skips c passed f) (stepped result) (activation_of activation.old) (activation_of activation.new) }
    ensures stays { Stays (activation_of activation.old) (activation_of activation.new) }
{
    let behind = count.saturating_sub(1).saturating_sub(activation.place);
    if passed < behind {
        activation.place += 1 + passed;
        Ok(())
    } else {
        Err(Cause::BadCode)
    }
}

/// Pushes one more operand and goes on; F16 if there is no room.
#[inline(always)]
pub fn push(activation: &mut Activation, count: usize, value: Value) -> Result<(), Cause>
    ensures passes { Passes count (λ c f. flat.push c (value_of value) f) (stepped result) (activation_of activation.old) (activation_of activation.new) }
    ensures stays { Stays (activation_of activation.old) (activation_of activation.new) }
{
    if activation.operands.is_full() {
        return Err(Cause::BadCode);
    }
    activation.operands.push(value);
    skip(activation, count, 0)
}

/// Whether a code of `count` operations has one after this place.
#[inline(always)]
pub fn has_next(place: usize, count: usize) -> bool
    ensures { IsTrue result ↔ (place + 1 < count) }
{
    place < count && place + 1 < count
}

/// The value of an evaluation is one more operand, or the evaluation fails.
#[inline(always)]
pub fn push_found(
    activation: &mut Activation,
    count: usize,
    found: Result<Value, Cause>,
) -> Result<(), Cause>
    ensures passes { Passes count (λ c f. flat.pushes c (evaluated found) f) (stepped result) (activation_of activation.old) (activation_of activation.new) }
    ensures stays { Stays (activation_of activation.old) (activation_of activation.new) }
{
    match found {
        Ok(value) => push(activation, count, value),
        Err(why) => Err(why),
    }
}

/// Pushes the value in place of operands that were popped, and skips this number of operations.
#[inline(always)]
pub fn put_past(
    activation: &mut Activation,
    count: usize,
    value: Value,
    passed: usize,
) -> Result<(), Cause>
    requires { length (activation_of activation.old).operands.values < (activation_of activation.old).operands.depth }
    ensures passes { Passes count (λ c f. flat.skips c passed (record f { values = value_of value ∷ f.values }))
        (stepped result) (activation_of activation.old) (activation_of activation.new) }
    ensures stays { Stays (activation_of activation.old) (activation_of activation.new) }
{
    activation.operands.push(value);
    skip(activation, count, passed)
}

/// The value of an evaluation comes in the place of operands that were popped, or the evaluation fails.
#[inline(always)]
pub fn replace(
    activation: &mut Activation,
    count: usize,
    found: Result<Value, Cause>,
) -> Result<(), Cause>
    requires { length (activation_of activation.old).operands.values < (activation_of activation.old).operands.depth }
    ensures passes { Passes count (λ c f. flat.replaces c (evaluated found) f) (stepped result) (activation_of activation.old) (activation_of activation.new) }
    ensures stays { Stays (activation_of activation.old) (activation_of activation.new) }
{
    match found {
        Ok(value) => put_past(activation, count, value, 0),
        Err(why) => Err(why),
    }
}

/// The last operand goes, and on.
pub fn pass_last(activation: &mut Activation, count: usize) -> Result<(), Cause>
    ensures passes { Drops count (stepped result) (activation_of activation.old) (activation_of activation.new) }
    ensures stays { Stays (activation_of activation.old) (activation_of activation.new) }
{
    activation.operands.drop_last(1);
    skip(activation, count, 0)
}

/// Writes the value to the slot; F16 if there is no such slot.
#[inline(always)]
pub fn store(
    activation: &mut Activation,
    count: usize,
    slot: usize,
    value: Value,
) -> Result<(), Cause>
    ensures passes { Passes count (λ c f. flat.stores c slot (value_of value) f)
        (stepped result) (activation_of activation.old) (activation_of activation.new) }
    ensures stays { Stays (activation_of activation.old) (activation_of activation.new) }
{
    if slot >= activation.slots.len() {
        return Err(Cause::BadCode);
    }
    activation.slots[slot] = value;
    skip(activation, count, 0)
}
