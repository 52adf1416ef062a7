//! What a routine asks that begins.
ghost use Rattle.std.specs.Prelude.{◌≡◌, ◌++◌, [], slice_get, take};
ghost use Rattle.std.specs.List.{cons_option};
ghost use Rattle.sc_region.specs.Frames.{top_activation};
ghost use Rattle.sc_region.specs.declared.job.Want.TheVariants as want;
ghost use Rattle.sc_acts.specs.Entering.{asks_beginning, asks_reserving, handler_of, handlers_in};

use arrayvec::ArrayVec;
use sc_lockpass::HandlerNumber;
use sc_region::{Store, Value, Want};

/// The handler of the value in the slot, if it is an object.
fn handler_at(slots: &[Value], slot: usize) -> Option<HandlerNumber>
    ensures { result ≡ handler_of (slice_get slots.now slot) }
{
    match slots.get(slot) {
        Some(Value::Attached(object)) => Some(object.handler),
        Some(Value::Integer(_) | Value::Boolean(_) | Value::Void) | None => None,
    }
}

/// Adds the handler that was found, if one was and there are fewer than 16.
#[tactic(auto, using(crate::proofs::FirstItems::take_full, crate::proofs::FirstItems::take_none, crate::proofs::FirstItems::take_one))]
fn add(handlers: &mut ArrayVec<HandlerNumber, 16>, found: Option<HandlerNumber>)
    ensures { handlers.new.items ≡ take 16 (handlers.old.items ++ cons_option found []) }
{
    if handlers.is_full() {
        return;
    }
    match found {
        Some(handler) => handlers.push(handler),
        None => (),
    }
}

/// The handlers of the values in these slots, at most 16.
fn handlers_in(slots: &[Value], separate: &[usize]) -> ArrayVec<HandlerNumber, 16>
    ensures { result.items ≡ handlers_in slots.now separate.now }
{
    let mut handlers = ArrayVec::new();
    for slot in separate {
        add(&mut handlers, handler_at(slots, *slot));
    }
    handlers
}

/// What a routine asks that begins with these slots, which reserves the handlers of some.
fn ask_reserving(slots: &[Value], separate: &[usize], asked: &mut Want)
    requires { asked.old ≡ want.Continue }
    ensures { asked.new ≡ asks_reserving separate.now slots.now }
{
    if !separate.is_empty() {
        ask_handlers(slots, separate, asked);
    }
}

/// The handlers of the values in these slots are to be reserved. (A call of its own, since most routines reserve none: what
/// it makes is big, and would be cleared as each begins.)
#[inline(never)]
fn ask_handlers(slots: &[Value], separate: &[usize], asked: &mut Want)
    ensures { asked.new ≡ want.Reserve (record { items = handlers_in slots.now separate.now }) }
{
    *asked = Want::Reserve(handlers_in(slots, separate));
}

/// Writes what the topmost routine wants as it begins: its reserve step, if it has attached separate formals.
pub fn ask_beginning(store: &Store<'_>, asked: &mut Want)
    requires { asked.old ≡ want.Continue }
    ensures { asked.new ≡ asks_beginning store.now.program (top_activation store.now.frames) }
{
    match store.top() {
        None => (),
        Some(activation) => match store.program().routine(activation.routine) {
            None => (),
            Some(code) => ask_reserving(&activation.slots, &code.separate_formals, asked),
        },
    }
}
