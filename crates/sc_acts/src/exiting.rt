//! The end of a routine.
ghost use Rattle.std.specs.Prelude.{◌≡◌, ◌||◌, false};
ghost use Rattle.sc_region.specs.Classes.{object_meets};
ghost use Rattle.sc_region.specs.Objects.{object_numbered};
ghost use Rattle.sc_region.specs.Frames.{activation_of, top_activation};
ghost use Rattle.sc_region.specs.declared.job.Want.TheVariants as want;
ghost use Rattle.sc_acts.specs.Exiting.{asks_exiting, asks_returning, exited, handed, is_unset, is_untested, returned};
ghost use Rattle.sc_region.specs.Calls.{on_top};
ghost use Rattle.sc_acts.specs.Turning.{unless_failed};

use crate::steps::unless_failed;
use arrayvec::ArrayVec;
use sc_code::Program;
use sc_lockpass::HandlerNumber;
use sc_model::Cause;
use sc_region::{Activation, ObjectNumber, Origin, Stage, Store, Value, Want};

/// A copy of the handlers.
pub fn copy_handlers(handlers: &ArrayVec<HandlerNumber, 16>) -> ArrayVec<HandlerNumber, 16>
    ensures { result.items ≡ handlers.now.items }
{
    let mut copy = ArrayVec::new();
    copy.try_extend_from_slice(handlers.as_slice()).unwrap();
    copy
}

/// Whether the Result is of an attached type, and still Void.
#[inline(always)]
pub fn is_unset(program: &Program, activation: &Activation) -> bool
    ensures { result ≡ is_unset program.now.image (activation_of activation.now) }
{
    match activation.result {
        Some(Value::Void) => match program.routine(activation.routine) {
            Some(code) => match code.result {
                Some((_, is_attached)) => is_attached,
                None => false,
            },
            None => false,
        },
        Some(Value::Integer(_) | Value::Boolean(_) | Value::Attached(_)) | None => false,
    }
}

/// Whether the object of the number is there, and meets its class invariant.
#[inline(always)]
pub fn meets(store: &Store<'_>, object: ObjectNumber) -> bool
    ensures { result ≡ object_meets store.now.program (object_numbered object store.now.objects) }
{
    store.test_invariant(object)
}

/// Whether a routine that began so leaves the invariant alone, or its object meets it.
fn may_end(store: &Store<'_>, origin: Origin, object: ObjectNumber) -> bool
    ensures { result ≡ (is_untested origin || object_meets store.now.program (object_numbered object store.now.objects)) }
{
    match origin {
        Origin::Unqualified => true,
        Origin::Qualified | Origin::Creation | Origin::Requested | Origin::RequestedCreation => {
            meets(store, object)
        }
    }
}

/// A routine that is in a call goes on, with the value, where the call gives one and there is one.
#[inline(always)]
pub fn hand_to(activation: &mut Activation, value: Option<Value>)
    ensures { activation_of activation.new ≡ handed value (activation_of activation.old) }
{
    if let Stage::InCall { gives } = activation.stage {
        activation.stage = Stage::Runs;
        if let Some(value) = value {
            if gives && !activation.operands.is_full() {
                activation.operands.push(value);
            }
        }
    }
}

/// Hands the value, if any, to the topmost routine.
#[inline(always)]
pub fn hand_over(store: &mut Store<'_>, value: Option<Value>)
    ensures { store.new ≡ on_top (handed value) store.old }
{
    match store.top_mut() {
        Some(activation) => hand_to(activation, value),
        None => (),
    }
}

/// The topmost frame goes, and what called its routine goes on.
fn give_back(store: &mut Store<'_>, origin: Origin, value: Option<Value>)
    ensures { store.new ≡ returned origin value store.old }
{
    store.pop();
    match origin {
        Origin::Unqualified | Origin::Qualified | Origin::Creation => hand_over(store, value),
        Origin::Requested | Origin::RequestedCreation => (),
    }
}

/// Writes what the end of this routine wants.
fn ask_returning(activation: &Activation, asked: &mut Want)
    requires { asked.old ≡ want.Continue }
    ensures { asked.new ≡ asks_returning activation.now.origin activation.now.result activation.now.reserved.items }
{
    match activation.origin {
        Origin::Unqualified | Origin::Qualified | Origin::Creation => {
            if !activation.reserved.is_empty() {
                ask_release(&activation.reserved, asked);
            }
        }
        Origin::Requested | Origin::RequestedCreation => ask_done(activation, asked),
    }
}

/// The release of these handlers is asked. (A call of its own, since most routines have none: what it makes is big, and
/// would be cleared at the end of each.)
#[inline(never)]
fn ask_release(reserved: &ArrayVec<HandlerNumber, 16>, asked: &mut Want)
    ensures { asked.new ≡ want.Release (record { items = reserved.now.items }) }
{
    *asked = Want::Release(copy_handlers(reserved));
}

/// A request has ended with the Result, and the release of what the entry newly reserved is asked. (A call of its own for the
/// same.)
#[inline(never)]
fn ask_done(activation: &Activation, asked: &mut Want)
    ensures { asked.new ≡ want.Done activation.now.result (record { items = activation.now.reserved.items }) false }
{
    *asked = Want::Done {
        reply: activation.result,
        released: copy_handlers(&activation.reserved),
        refused: false,
    };
}

/// What the end of the topmost routine asks, unless it fails.
fn ask_exiting(store: &Store<'_>, asked: &mut Want)
    requires { asked.old ≡ want.Continue }
    ensures { asked.new ≡ asks_exiting (top_activation store.now.frames) }
{
    match store.top() {
        None => (),
        Some(activation) => ask_returning(activation, asked),
    }
}

/// Ends the topmost routine, if it may end.
fn end(store: &mut Store<'_>)
    ensures { store.new ≡ exited store.old }
{
    let Some(me) = store.current() else {
        return;
    };
    let Some(activation) = store.top() else {
        return;
    };
    let (origin, value) = (activation.origin, activation.result);
    if is_unset(store.program(), activation) {
        store.fail(Cause::UnsetEntity);
    } else if may_end(store, origin, me.number) {
        give_back(store, origin, value);
    } else {
        store.fail(Cause::Invariant);
    }
}

/// Ends the topmost routine: F7 if its Result is unset, F1 if it has to leave its object in order and doesn't, or if
/// an object that is settled now breaks its invariant. What it newly reserved is released; a request ends, and a
/// routine of this handler goes on.
pub fn exit(store: &mut Store<'_>, asked: &mut Want)
    requires { asked.old ≡ want.Continue }
    ensures store { store.new ≡ exited store.old }
    ensures want { asked.new ≡ unless_failed store.new.failure (asks_exiting (top_activation store.old.frames)) }
{
    ask_exiting(store, asked);
    end(store);
    unless_failed(store, asked);
}
