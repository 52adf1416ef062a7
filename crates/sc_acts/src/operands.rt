//! The operands that an operation takes.
ghost use Rattle.std.specs.Prelude.{◌≡◌, ◌≤◌, ◌<◌, ◌+◌, ◌++◌, length};
ghost use Rattle.sc_region.specs.Frames.{activation_of};
ghost use Rattle.sc_region.specs.Calls.{last_values};
ghost use Rattle.sc_acts.specs.Operands.{has_actuals, has_call};

use arrayvec::ArrayVec;
use sc_region::{Activation, Value};

/// Whether the routine has this number of operands, and a request has room for as many actuals.
pub fn has_actuals(activation: &Activation, count: usize) -> bool
    ensures { result ≡ has_actuals count (activation_of activation.now) }
{
    count < 17 && count <= activation.operands.len()
}

/// Whether the routine has this number of operands with a target below them, and a request has room for as many
/// actuals.
pub fn has_call(activation: &Activation, count: usize) -> bool
    ensures { result ≡ has_call count (activation_of activation.now) }
{
    count < 17 && count < activation.operands.len()
}

/// Adds the last `count` operands, in the order of the text.
pub fn add_last_values(values: &mut ArrayVec<Value, 16>, activation: &Activation, count: usize)
    requires few { length values.old.items + count < 17 }
    requires enough { count ≤ length (activation_of activation.now).operands.values }
    ensures { values.new.items ≡ values.old.items ++ last_values count (activation_of activation.now).operands.values }
{
    for passed in 0..count {
        match activation.operands.under(count - 1 - passed) {
            Some(value) => values.push(value),
            None => unreachable!(),
        }
    }
}

/// The last `count` operands, in the order of the text.
pub fn last_values(activation: &Activation, count: usize) -> ArrayVec<Value, 16>
    requires few { count < 17 }
    requires enough { count ≤ length (activation_of activation.now).operands.values }
    ensures { result.items ≡ last_values count (activation_of activation.now).operands.values }
{
    let mut values = ArrayVec::new();
    add_last_values(&mut values, activation, count);
    values
}
