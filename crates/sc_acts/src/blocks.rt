//! The beginning of a separate block.
ghost use Rattle.std.specs.Prelude.{◌≡◌, ◌<◌, ◌≤◌, ◌+◌, [], ◌++◌, Some, length};
ghost use Rattle.std.specs.List.{cons_option};
ghost use Rattle.std.specs.Option.{option_map};
ghost use Rattle.sc_region.specs.Frames.{PlainActivation, activation_of, top_activation};
ghost use Rattle.sc_acts.specs.Entering.{handler_of};
ghost use Rattle.sc_region.specs.Calls.{on_top};
ghost use Rattle.sc_acts.specs.Blocks.{asks_opening, handlers_of, heads_in, heads_of, may_open, opened, opening, written};

use crate::going_on::{go_past, misfit};
use crate::operands::{has_actuals, last_values};
use arrayvec::ArrayVec;
use sc_lockpass::HandlerNumber;
use sc_region::{Activation, Stage, Store, Value, Want};

// ---- the heads of a block

/// Whether there are this number of operands, and of slots from this one on.
fn may_open(activation: &Activation, first: usize, count: usize) -> bool
    ensures { result ≡ may_open first count (activation_of activation.now) }
{
    let slots = activation.slots.len();
    has_actuals(activation, count) && first <= slots && count <= slots - first
}

/// The values of the heads, if there are as many operands and slots.
fn heads_of(activation: &Activation, first: usize, count: usize) -> Option<ArrayVec<Value, 16>>
    ensures { option_map (λ heads. heads.items) result ≡ heads_of first count (activation_of activation.now) }
{
    if may_open(activation, first, count) {
        Some(last_values(activation, count))
    } else {
        None
    }
}

/// The values of the heads of the topmost routine's block, if there are as many operands and slots.
fn heads_in(store: &Store<'_>, first: usize, count: usize) -> Option<ArrayVec<Value, 16>>
    ensures { option_map (λ heads. heads.items) result ≡ heads_in first count (top_activation store.now.frames) }
{
    match store.top() {
        Some(activation) => heads_of(activation, first, count),
        None => None,
    }
}

// ---- a block begins

/// The values go into the slots, from this one on.
fn write(slots: &mut [Value], first: usize, values: &[Value])
    requires { first + length values.now ≤ length slots.old }
    ensures { slots.new ≡ written first values.now slots.old }
{
    for (place, value) in values.iter().enumerate() {
        slots[first + place] = *value;
    }
}

/// The heads go into slots, and the reserve step comes next.
fn open_on(activation: &mut Activation, first: usize, heads: &[Value])
    requires { first + length heads.now ≤ length (activation_of activation.old).slots }
    ensures { activation_of activation.new ≡ opening first heads.now (activation_of activation.old) }
{
    write(&mut activation.slots, first, heads);
    go_past(activation, heads.len());
    activation.stage = Stage::ReservesBlock;
}

/// Opens the block of the topmost routine.
fn open_top(store: &mut Store<'_>, first: usize, heads: &[Value])
    requires { (a : PlainActivation) → top_activation store.old.frames ≡ Some a → first + length heads.now ≤ length a.slots }
    ensures { store.new ≡ on_top (opening first heads.now) store.old }
{
    match store.top_mut() {
        Some(activation) => open_on(activation, first, heads),
        None => (),
    }
}

/// The handler of the value, if it is an object.
fn handler_of(value: Value) -> Option<HandlerNumber>
    ensures { result ≡ handler_of (Some value) }
{
    match value {
        Value::Attached(object) => Some(object.handler),
        Value::Integer(_) | Value::Boolean(_) | Value::Void => None,
    }
}

/// The handler that was found, if one was.
fn add(handlers: &mut ArrayVec<HandlerNumber, 16>, found: Option<HandlerNumber>)
    requires { length handlers.old.items < 16 }
    ensures items { handlers.new.items ≡ handlers.old.items ++ cons_option found [] }
    ensures few { length handlers.new.items ≤ length handlers.old.items + 1 }
{
    match found {
        Some(handler) => handlers.push(handler),
        None => (),
    }
}

/// The handlers of the values that are objects.
fn handlers_of(values: &[Value]) -> ArrayVec<HandlerNumber, 16>
    requires { length values.now ≤ 16 }
    ensures { result.items ≡ handlers_of values.now }
{
    let mut handlers = ArrayVec::new();
    for value in values {
        add(&mut handlers, handler_of(*value));
    }
    handlers
}

/// Opens a separate block, whose heads are the last `count` operands and go into the slots from `first` on: F16 if
/// there are fewer of either. The reserve step of their handlers comes next.
///
/// It isn't inlined, for the reason that `request` isn't.
#[inline(never)]
pub fn open(store: &mut Store<'_>, first: usize, count: usize, asked: &mut Want)
    ensures store { store.new ≡ opened first count store.old }
    ensures want { asked.new ≡ asks_opening first count (top_activation store.old.frames) }
{
    match heads_in(store, first, count) {
        Some(heads) => {
            open_top(store, first, heads.as_slice());
            *asked = Want::Reserve(handlers_of(heads.as_slice()));
        }
        None => misfit(store, asked),
    }
}
