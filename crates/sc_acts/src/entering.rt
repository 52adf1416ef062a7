//! Calls of routines of this handler.
ghost use Rattle.std.specs.Prelude.{◌≡◌, ◌<◌, IsTrue, OnOk, OnErr, false};
ghost use Rattle.sc_region.specs.Frames.{top_activation};
ghost use Rattle.sc_region.specs.declared.job.Want.TheVariants as want;
ghost use Rattle.sc_acts.specs.Entering.{CallsNot, HasCall, asks_beginning, called, operands_of, origin_of};
ghost use Rattle.sc_acts.specs.Turning.{unless_failed};

use crate::act::Calling;
use crate::beginning::ask_beginning;
use crate::caller::has_operands;
use crate::steps::unless_failed;
use crate::versions::routine_of;
use sc_code::NameNumber;
use sc_model::Cause;
use sc_region::{Origin, OwnCall, Reference, Store, Want};
use std::alloc::AllocError;

fn operands_of(calling: Calling, count: usize) -> usize
    requires { count < 17 }
    ensures { result ≡ operands_of calling count }
{
    match calling {
        Calling::Unqualified => count,
        Calling::Qualified => count + 1,
    }
}

fn origin_of(calling: Calling) -> Origin
    ensures { result ≡ origin_of calling }
{
    match calling {
        Calling::Unqualified => Origin::Unqualified,
        Calling::Qualified => Origin::Qualified,
    }
}

/// Whether the topmost routine has the operands of such a call.
fn has_call(store: &Store<'_>, calling: Calling, count: usize) -> bool
    ensures some { IsTrue result → HasCall calling count (top_activation store.now.frames) }
    ensures none { result ≡ false → CallsNot calling count (top_activation store.now.frames) }
{
    match store.top() {
        Some(activation) => count < 17 && has_operands(activation, operands_of(calling, count)),
        None => false,
    }
}

/// Calls the routine of the name with the last `count` operands as actuals.
fn call(
    store: &mut Store<'_>,
    calling: Calling,
    object: Reference,
    name: NameNumber,
    count: usize,
    gives: bool,
) -> Result<(), AllocError>
    ensures ok { OnOk result (store.new ≡ called calling object name count gives store.old) }
    ensures err { OnErr result (store.new ≡ store.old) }
{
    let found = routine_of(store.program(), object.class, name);
    if !has_call(store, calling, count) {
        store.fail(Cause::BadCode);
        return Ok(());
    }
    let Some(routine) = found else {
        store.fail(Cause::BadCode);
        return Ok(());
    };
    let call = OwnCall {
        origin: origin_of(calling),
        actuals: count,
        operands: operands_of(calling, count),
        gives,
    };
    store.call(object, routine, call)
}

/// Calls a routine of an object of this handler by its name, with the last `count` operands as actuals: F16 if the
/// class of the object has no such routine, or the routine takes another number of actuals; F11 if the stack is full.
/// Its error says that memory ran out, and nothing has changed then.
pub fn enter(
    store: &mut Store<'_>,
    calling: Calling,
    object: Reference,
    name: NameNumber,
    count: usize,
    gives: bool,
    asked: &mut Want,
) -> Result<(), AllocError>
    requires { asked.old ≡ want.Continue }
    ensures ok { OnOk result (store.new ≡ called calling object name count gives store.old) }
    ensures want { OnOk result (asked.new ≡ unless_failed store.new.failure (asks_beginning store.new.program (top_activation store.new.frames))) }
    ensures err { OnErr result (store.new ≡ store.old) }
    ensures kept { OnErr result (asked.new ≡ asked.old) }
{
    call(store, calling, object, name, count, gives)?;
    ask_beginning(store, asked);
    unless_failed(store, asked);
    Ok(())
}
