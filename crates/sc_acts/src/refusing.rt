//! A clause of a precondition is false.
ghost use Rattle.std.specs.Prelude.{◌≡◌};
ghost use Rattle.std.specs.List.{list_any};
ghost use Rattle.sc_lockpass.specs.Rights.{is_among};
ghost use Rattle.sc_region.specs.Frames.{activation_of, top_activation};
ghost use Rattle.sc_acts.specs.Refusing.{asks_refusing, is_reserved, is_waited_for, refused, refused_as, waiting};
ghost use Rattle.sc_acts.specs.Tables.{formals_at};
ghost use Rattle.sc_region.specs.Calls.{on_top};
ghost use Rattle.sc_acts.specs.Turning.{unless_failed};

use crate::exiting::{copy_handlers, meets};
use crate::steps::unless_failed;
use sc_code::Program;
use sc_lockpass::HandlerNumber;
use sc_model::Cause;
use sc_region::{Activation, Origin, Reference, Stage, Store, Value, Want};

/// Whether the handler is one of these.
fn is_listed(handler: HandlerNumber, handlers: &[HandlerNumber]) -> bool
    ensures { result ≡ is_among handler handlers.now }
{
    handlers.iter().any(|other| *other == handler)
}

/// Whether the formal of the slot lies on a handler that the entry newly reserved.
fn is_reserved(activation: &Activation, slot: usize) -> bool
    ensures { result ≡ is_reserved (activation_of activation.now) slot }
{
    match activation.slots.get(slot) {
        Some(Value::Attached(object)) => {
            is_listed(object.handler, activation.reserved.as_slice())
        }
        Some(Value::Integer(_) | Value::Boolean(_) | Value::Void) | None => false,
    }
}

/// Whether a clause that names the formals of these slots is waited for.
fn is_waited_for(activation: &Activation, slots: &[usize]) -> bool
    ensures { result ≡ is_waited_for (activation_of activation.now) slots.now }
{
    slots.iter().any(|slot| is_reserved(activation, *slot))
}

/// The slots of the formals that a clause names, by the number of the list.
fn formals_at(program: &Program, formals: usize) -> &[usize]
    ensures { result.now ≡ formals_at program.now.image formals }
{
    match program.pool().demands.get(formals) {
        Some(slots) => slots.as_slice(),
        None => &[],
    }
}

/// The entry begins anew with its reserve step.
fn wait(activation: &mut Activation)
    ensures { activation_of activation.new ≡ waiting (activation_of activation.old) }
{
    let count = activation.operands.len();
    activation.operands.drop_last(count);
    activation.place = 0;
    activation.stage = Stage::Reserves;
    activation.reserved.clear();
}

/// Lets the topmost routine take its reserve step again.
fn wait_again(store: &mut Store<'_>)
    ensures { store.new ≡ on_top waiting store.old }
{
    match store.top_mut() {
        Some(activation) => wait(activation),
        None => (),
    }
}

/// A routine that began so is refused on its object.
fn refuse_as(store: &mut Store<'_>, origin: Origin, me: Reference)
    ensures { store.new ≡ refused_as origin me store.old }
{
    match origin {
        Origin::Unqualified | Origin::Qualified | Origin::Creation => {
            store.fail(Cause::Precondition);
        }
        Origin::Requested => store.pop(),
        Origin::RequestedCreation => {
            if meets(store, me.number) {
                store.pop();
            } else {
                store.fail(Cause::Invariant);
            }
        }
    }
}

/// What it asks that a clause over these formals is false, unless the routine fails.
fn want_refusing(store: &Store<'_>, slots: &[usize]) -> Want
    ensures { result ≡ asks_refusing slots.now (top_activation store.now.frames) }
{
    match store.top() {
        None => Want::Continue,
        Some(activation) => {
            let reserved = copy_handlers(&activation.reserved);
            if is_waited_for(activation, slots) {
                Want::Wait(reserved)
            } else {
                Want::Done {
                    reply: None,
                    released: reserved,
                    refused: true,
                }
            }
        }
    }
}

/// A clause that names the formals of the list of the number is false.
fn decide(store: &mut Store<'_>, formals: usize)
    ensures { store.new ≡ refused formals store.old }
{
    let Some(me) = store.current() else {
        return;
    };
    let Some(activation) = store.top() else {
        return;
    };
    let origin = activation.origin;
    if is_waited_for(activation, formals_at(store.program(), formals)) {
        wait_again(store);
    } else {
        refuse_as(store, origin, me);
    }
}

/// A clause is false that names the formals of the list with the number. If one of these is an object of a handler
/// that the entry newly reserved, the entry waits: those are released, and its reserve step comes again. Else a call
/// of this handler fails with F4, and a request is refused: F1 if it was to create an object that breaks its
/// invariant.
pub fn refuse(store: &mut Store<'_>, formals: usize, asked: &mut Want)
    ensures store { store.new ≡ refused formals store.old }
    ensures want { asked.new ≡ unless_failed store.new.failure (asks_refusing (formals_at store.old.program formals) (top_activation store.old.frames)) }
{
    *asked = want_refusing(store, formals_at(store.program(), formals));
    decide(store, formals);
    unless_failed(store, asked);
}
