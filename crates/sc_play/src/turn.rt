//! Turns of a handler.
//!
//! A turn is given what is asked so far, which is nothing, and writes there what it asks: where a turn asks nothing, as most
//! do, nothing is written. Where memory is refused, it stays nothing.
ghost use Rattle.std.specs.Prelude.{◌≡◌, ℕ, IfOk, OnOk, OnErr, false, true};
ghost use Rattle.sc_play.specs.Answering.{top_stage};
ghost use Rattle.sc_region.specs.Stores.{failed};
ghost use Rattle.sc_acts.specs.declared.act.Act.{Act};
ghost use Rattle.sc_interp.specs.declared.hops.Hop.TheVariants as hop;
ghost use Rattle.sc_interp.specs.Hopping.{LeadsTo};
ghost use Rattle.sc_interp.specs.Playing.{Remains};
ghost use Rattle.sc_region.specs.declared.job.Want.TheVariants as want;
ghost use Rattle.sc_play.specs.Turns.{Becomes, Begins, BeginsUnder, GoesOn, IsAhead, TurnMade, TurnOf, TurnUnder, asks_done, begun, done, is_going, rested};

use crate::jobs::{grant, reply, resume, take, tell, top_stage};
use sc_acts::{act_on, exit, request, unless_failed};
use sc_interp::{Coming, Hop, moves, next_coming};
use sc_lockpass::HandlerNumber;
use sc_model::Cause;
use sc_region::{Job, Stage, Store, Want};
use std::alloc::AllocError;

/// Executes an operation that isn't silent. Its error says that memory ran out for a visible one, and nothing has
/// changed then.
///
/// It is inlined into a turn.
#[inline(always)]
fn do_operation(
    store: &mut Store<'_>,
    handler: HandlerNumber,
    operation: Hop,
    asked: &mut Want,
) -> Result<(), AllocError>
    requires { asked.old ≡ want.Continue }
    ensures ok { OnOk result (store.new ≡ done handler operation store.old) }
    ensures want { OnOk result (asked.new ≡ asks_done handler operation store.old store.new) }
    ensures err { OnErr result (store.new ≡ store.old) }
    ensures comes { OnErr result ((act : Act) × (operation ≡ hop.Comes act)) }
    ensures kept { OnErr result (asked.new ≡ asked.old) }
{
    match operation {
        Hop::Passed => Ok(()),
        Hop::Failed(why) => {
            store.fail(why);
            *asked = Want::Fail(why);
            Ok(())
        }
        Hop::Comes(act) => act_on(store, handler, act, asked),
    }
}

/// Runs the topmost routine up to an operation that isn't silent, and executes that: at once if the routine ends or
/// calls an object of another handler next. Its error says that memory ran out: silent operations may be executed
/// then.
///
/// It is inlined into a turn.
#[inline(always)]
fn run_on(store: &mut Store<'_>, handler: HandlerNumber, asked: &mut Want) -> Result<(), AllocError>
    requires { asked.old ≡ want.Continue }
    ensures ok { OnOk result (GoesOn handler store.old store.new asked.new) }
    ensures leads { OnErr result (LeadsTo store.old store.new) }
    ensures remains { OnErr result (Remains store.old store.new) }
    ensures kept { OnErr result (asked.new ≡ asked.old) }
{
    match next_coming(store) {
        Coming::End => {
            exit(store, asked);
            Ok(())
        }
        Coming::Request(call) => {
            request(store, handler, call, asked);
            unless_failed(store, asked);
            Ok(())
        }
        Coming::Other => {
            let operation = moves(store)?;
            do_operation(store, handler, operation, asked)
        }
    }
}

/// Leaves the store as it is, and wants nothing if it hasn't ended in a failure.
fn wait(store: &Store<'_>, asked: &mut Want)
    requires { asked.old ≡ want.Continue }
    ensures { Becomes store.now want.Continue store.now asked.new }
{
    unless_failed(store, asked);
}

/// The store ends in this failure.
fn fail(store: &mut Store<'_>, why: Cause, asked: &mut Want)
    requires { asked.old ≡ want.Continue }
    ensures { Becomes (failed why store.old) want.Continue store.new asked.new }
{
    store.fail(why);
    unless_failed(store, asked);
}

/// What a turn does where the topmost routine, in this stage, doesn't go on.
///
/// It stays a call: a turn seldom comes here.
#[inline(never)]
fn stay_in(store: &mut Store<'_>, stage: Option<Stage>, asked: &mut Want)
    requires { asked.old ≡ want.Continue }
    ensures { Becomes (rested stage store.old) want.Continue store.new asked.new }
{
    match stage {
        Some(Stage::InCall { .. }) => fail(store, Cause::BadCode, asked),
        Some(Stage::Runs | Stage::Reserves | Stage::ReservesBlock | Stage::Awaits { .. }) | None =>
            wait(store, asked),
    }
}

/// A turn of the handler. Err where the topmost routine goes on and there is no memory: silent operations may be done then.
///
/// It is part of the loop of turns, and no call, so that what it needs is laid out once for many.
#[inline(always)]
pub fn turn(
    store: &mut Store<'_>,
    handler: HandlerNumber,
    asked: &mut Want,
) -> Result<(), AllocError>
    requires { asked.old ≡ want.Continue }
    ensures ok { OnOk result (TurnOf handler store.old store.new asked.new) }
    ensures err { OnErr result (IsAhead store.old store.new) }
    ensures kept { OnErr result (asked.new ≡ asked.old) }
{
    match top_stage(store) {
        Some(Stage::Runs) => run_on(store, handler, asked),
        stage => {
            stay_in(store, stage, asked);
            Ok(())
        }
    }
}

/// Gives the topmost routine the number of the handler that was made for it. If it waits for the answer this is its
/// turn, and it goes on in its next, else in any turn. Returns whether the turn was made.
fn turn_made(store: &mut Store<'_>, asked: &mut Want) -> bool
    requires { asked.old ≡ want.Continue }
    ensures { (handler : ℕ) → Begins result handler (λ z v. TurnMade (top_stage store.old) handler store.old z v) store.old store.new asked.new }
{
    match top_stage(store) {
        None => {
            fail(store, Cause::BadCode, asked);
            true
        }
        Some(
            Stage::Awaits {
                is_creation: true,
                ..
            },
        ) => {
            resume(store, asked);
            true
        }
        Some(
            Stage::Runs
            | Stage::Reserves
            | Stage::ReservesBlock
            | Stage::InCall { .. }
            | Stage::Awaits {
                is_creation: false,
                ..
            },
        ) => false,
    }
}

/// Makes the first turn under a job that has begun, if it isn't any turn of the handler. Returns whether it was made.
/// Its error says that memory ran out, and nothing has changed then.
fn turn_under(
    store: &mut Store<'_>,
    handler: HandlerNumber,
    job: &Job,
    asked: &mut Want,
) -> Result<bool, AllocError>
    requires { asked.old ≡ want.Continue }
    ensures ok { IfOk result (λ made. Begins made handler (λ z v. TurnUnder handler job.now store.old z v) store.old store.new asked.new) }
    ensures going { IfOk result (λ made. made ≡ false → is_going job.now ≡ true) }
    ensures err { OnErr result (store.new ≡ store.old) }
    ensures other { OnErr result (is_going job.now ≡ false) }
{
    match job {
        Job::Take(request) => {
            take(store, handler, request, asked)?;
            Ok(true)
        }
        Job::Reply(value) => {
            reply(store, *value, asked);
            Ok(true)
        }
        Job::Failed => {
            fail(store, Cause::SupplierFailed, asked);
            Ok(true)
        }
        Job::Refused => {
            fail(store, Cause::Precondition, asked);
            Ok(true)
        }
        Job::Granted(handlers) => {
            grant(store, handlers, asked)?;
            Ok(true)
        }
        Job::Made(_) => Ok(turn_made(store, asked)),
        Job::Go => Ok(false),
    }
}

/// Gives the creator of a handler its number, unless it has it.
fn begin(store: &mut Store<'_>, job: &Job, is_told: bool)
    ensures { store.new ≡ begun is_told job.now store.old }
{
    match job {
        Job::Made(made) => {
            if !is_told {
                tell(store, *made);
            }
        }
        Job::Take(_) | Job::Reply(_) | Job::Failed | Job::Refused | Job::Granted(_) | Job::Go => (),
    }
}

/// Makes the first turn under the job, if it isn't any turn of the handler. Returns whether it was made. `is_told`
/// says that the creator of a handler has its number already. Its error says that memory ran out: the job has begun
/// then.
pub fn first_turn(
    store: &mut Store<'_>,
    handler: HandlerNumber,
    job: &Job,
    is_told: bool,
    asked: &mut Want,
) -> Result<bool, AllocError>
    requires { asked.old ≡ want.Continue }
    ensures ok { IfOk result (λ made. BeginsUnder made handler is_told job.now store.old store.new asked.new) }
    ensures going { IfOk result (λ made. made ≡ false → is_going job.now ≡ true) }
    ensures err { OnErr result (store.new ≡ begun is_told job.now store.old) }
    ensures other { OnErr result (is_going job.now ≡ false) }
{
    begin(store, job, is_told);
    turn_under(store, handler, job, asked)
}
