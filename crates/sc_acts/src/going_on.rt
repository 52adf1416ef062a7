//! How the topmost routine goes on after an operation: to the next one, or to a failure.
ghost use Rattle.std.specs.Prelude.{◌≡◌};
ghost use Rattle.sc_model.specs.declared.cause.Cause.TheVariants as cause;
ghost use Rattle.sc_region.specs.Calls.{past};
ghost use Rattle.sc_region.specs.Frames.{activation_of};
ghost use Rattle.sc_region.specs.Stores.{failed};
ghost use Rattle.sc_region.specs.declared.job.Want.TheVariants as want;

use sc_model::Cause;
use sc_region::{Activation, Store, Want};

/// Removes this number of operands and goes on to the next operation.
pub fn go_past(activation: &mut Activation, count: usize)
    ensures { activation_of activation.new ≡ past count (activation_of activation.old) }
{
    activation.operands.drop_last(count);
    activation.place = activation.place.saturating_add(1);
}

/// No case fits: the store ends in F16, and that is asked.
///
/// It stays a call, as `request` does.
#[inline(never)]
pub fn misfit(store: &mut Store<'_>, asked: &mut Want)
    ensures store { store.new ≡ failed cause.BadCode store.old }
    ensures want { asked.new ≡ want.Fail cause.BadCode }
{
    store.fail(Cause::BadCode);
    *asked = Want::Fail(Cause::BadCode);
}
