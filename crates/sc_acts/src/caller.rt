//! A routine's state before a call, so that it can be restored.
ghost use Rattle.std.specs.Prelude.{◌≡◌, ◌≤◌, ◌<◌, ◌+◌, [], IsTrue, Some, false, true, length};
ghost use Rattle.sc_region.specs.Calls.{in_call, last_values, on_top};
ghost use Rattle.sc_region.specs.Frames.{PlainActivation, activation_of, top_activation};
ghost use Rattle.sc_region.specs.OperandList.{operands_onto};
ghost use Rattle.sc_acts.specs.Entering.{Calls, CallsNone, Has, StandsSo, has_operands, resumed};

use crate::going_on::go_past;
use arrayvec::ArrayVec;
use sc_region::{Activation, Operands, Stage, Store, Value};

/// How a routine stood before a call, and the operands that the call takes.
#[derive(Drop)]
pub struct Caller {
    pub values: ArrayVec<Value, 17>,
    pub place: usize,
    pub stage: Stage,
}

/// A caller for a variable that none has been looked at for yet.
pub fn no_caller() -> Caller
    ensures { result.values.items ≡ [] }
{
    Caller {
        values: ArrayVec::new(),
        place: 0,
        stage: Stage::Runs,
    }
}

/// Writes the last `count` operands into the values, in the order of the text.
fn take_last(values: &mut ArrayVec<Value, 17>, activation: &Activation, count: usize)
    requires few { count < 18 }
    requires enough { count ≤ length (activation_of activation.now).operands.values }
    ensures { values.new.items ≡ last_values count (activation_of activation.now).operands.values }
{
    values.clear();
    for passed in 0..count {
        match activation.operands.under(passed) {
            Some(value) => values.insert(0, value),
            None => unreachable!(),
        }
    }
}

/// Suspends the routine in a call that took this number of operands.
fn suspend_on(activation: &mut Activation, count: usize, gives: bool)
    ensures { activation_of activation.new ≡ in_call count gives (activation_of activation.old) }
{
    go_past(activation, count);
    activation.stage = Stage::InCall { gives };
}

/// Suspends the topmost routine in a call that took this number of operands.
pub fn suspend(store: &mut Store<'_>, count: usize, gives: bool)
    ensures { store.new ≡ on_top (in_call count gives) store.old }
{
    match store.top_mut() {
        Some(activation) => suspend_on(activation, count, gives),
        None => (),
    }
}

/// The values are operands, the last of them the last one.
fn push_all(operands: &mut Operands, values: &[Value])
    requires { length operands.old.values + length values.now ≤ operands.old.depth }
    ensures { operands.new ≡ record operands.old { values = operands_onto values.now operands.old.values } }
{
    for value in values {
        operands.push(*value);
    }
}

/// Restores the operands and the place of the topmost routine to those before the call.
fn resume_on(activation: &mut Activation, caller: &Caller)
    requires { length (activation_of activation.old).operands.values + length caller.now.values.items ≤ (activation_of activation.old).operands.depth }
    ensures { activation_of activation.new ≡ resumed caller.now.values.items caller.now.place caller.now.stage (activation_of activation.old) }
{
    push_all(&mut activation.operands, caller.values.as_slice());
    activation.place = caller.place;
    activation.stage = caller.stage;
}

/// Restores the topmost routine to what it was before the call.
pub fn resume(store: &mut Store<'_>, caller: &Caller)
    requires { (a : PlainActivation) → top_activation store.old.frames ≡ Some a → length a.operands.values + length caller.now.values.items ≤ a.operands.depth }
    ensures { store.new ≡ on_top (resumed caller.now.values.items caller.now.place caller.now.stage) store.old }
{
    match store.top_mut() {
        Some(activation) => resume_on(activation, caller),
        None => (),
    }
}

/// Operands have room: the last of them goes and comes again.
fn keep_room(activation: &mut Activation)
    ensures same { activation_of activation.new ≡ activation_of activation.old }
    ensures room { length (activation_of activation.new).operands.values ≤ (activation_of activation.new).operands.depth }
{
    match activation.operands.pop() {
        Some(value) => activation.operands.push(value),
        None => (),
    }
}

/// Whether the routine has this number of operands, and a call can take as many.
pub fn has_operands(activation: &Activation, count: usize) -> bool
    ensures { result ≡ has_operands count (activation_of activation.now) }
{
    count < 18 && count <= activation.operands.len()
}

/// Writes into the caller the routine with its last `count` operands.
fn look_on(caller: &mut Caller, activation: &mut Activation, count: usize)
    requires { has_operands count (activation_of activation.old) ≡ true }
    ensures same { activation_of activation.new ≡ activation_of activation.old }
    ensures stands { StandsSo count caller.new.values.items caller.new.place caller.new.stage (activation_of activation.old) }
{
    keep_room(activation);
    take_last(&mut caller.values, activation, count);
    caller.place = activation.place;
    caller.stage = activation.stage;
}

/// Writes into the caller the topmost routine with its last `count` operands, and returns whether there is one that
/// has as many.
pub fn look(caller: &mut Caller, store: &mut Store<'_>, count: usize) -> bool
    ensures same { store.new ≡ store.old }
    ensures some { IsTrue result → Calls count caller.new.values.items caller.new.place caller.new.stage (top_activation store.old.frames) }
    ensures has { IsTrue result → Has count (top_activation store.old.frames) }
    ensures none { result ≡ false → CallsNone count (top_activation store.old.frames) }
{
    match store.top_mut() {
        Some(activation) => {
            if has_operands(activation, count) {
                look_on(caller, activation, count);
                true
            } else {
                false
            }
        }
        None => false,
    }
}
