//! How the topmost routine goes on after a visible operation, and what it wants.
ghost use Rattle.std.specs.Prelude.{◌≡◌, drop};
ghost use Rattle.sc_region.specs.Frames.{activation_of};
ghost use Rattle.sc_region.specs.declared.job.Want.TheVariants as want;
ghost use Rattle.sc_region.specs.Calls.{on_top, past};
ghost use Rattle.sc_acts.specs.Turning.{back, round_ended, unless_failed};

use crate::going_on::go_past;
use sc_model::Cause;
use sc_region::{Activation, Operands, Store, Want};

/// Removes operands of the topmost routine and goes on to the next operation.
pub fn pass(store: &mut Store<'_>, count: usize)
    ensures { store.new ≡ on_top (past count) store.old }
{
    match store.top_mut() {
        Some(activation) => go_past(activation, count),
        None => (),
    }
}

/// The last operand goes, if there is one.
fn drop_operand(operands: &mut Operands)
    ensures { operands.new ≡ record operands.old { values = drop 1 operands.old.values } }
{
    match operands.pop() {
        Some(_value) => (),
        None => (),
    }
}

/// Removes the last operand and goes this number of operations back.
fn go_back(activation: &mut Activation, count: usize)
    ensures { activation_of activation.new ≡ back count (activation_of activation.old) }
{
    drop_operand(&mut activation.operands);
    activation.place = activation.place.saturating_sub(count);
}

/// Each clause of the precondition holds, so the body begins. Nothing is asked.
pub fn start(store: &mut Store<'_>)
    ensures { store.new ≡ on_top (past 0) store.old }
{
    pass(store, 0);
}

/// Ends an `until`: the loop ends, or its body comes again, this number of operations back.
pub fn end_round_on(activation: &mut Activation, back: Option<usize>)
    ensures { activation_of activation.new ≡ round_ended back (activation_of activation.old) }
{
    match back {
        None => go_past(activation, 1),
        Some(count) => go_back(activation, count),
    }
}

/// Ends an `until` of the topmost routine, and wants nothing.
pub fn end_round(store: &mut Store<'_>, back: Option<usize>)
    ensures { store.new ≡ on_top (round_ended back) store.old }
{
    match store.top_mut() {
        Some(activation) => end_round_on(activation, back),
        None => (),
    }
}

/// What is asked stays, where the store hasn't ended in a failure.
pub fn unless_failed(store: &Store<'_>, asked: &mut Want)
    ensures { asked.new ≡ unless_failed store.now.failure asked.old }
{
    match store.failure() {
        Some(why) => ask_failing(why, asked),
        None => (),
    }
}

/// The failure is asked. (A call of its own, since a turn seldom comes here: what it makes is big, and would be cleared in
/// each turn.)
#[inline(never)]
fn ask_failing(why: Cause, asked: &mut Want)
    ensures { asked.new ≡ want.Fail why }
{
    *asked = Want::Fail(why);
}
