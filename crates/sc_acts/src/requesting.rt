//! Calls on objects of other handlers.
ghost use Rattle.std.specs.Prelude.{◌≡◌, ◌<◌, ◌≤◌, IsTrue, is_some, length, true, false};
ghost use Rattle.sc_region.specs.declared.job.Want.TheVariants as want;
ghost use Rattle.sc_region.specs.Frames.{activation_of, top_activation};
ghost use Rattle.sc_region.specs.Calls.{on_top};
ghost use Rattle.sc_acts.specs.Requesting.{asks_requesting, asks_sending, asks_sent, is_waited, request_by, request_in, request_of, requested, sending};

use crate::act::RemoteCall;
use crate::going_on::{go_past, misfit};
use crate::operands::{add_last_values, has_call};
use crate::stages::await_if;
use arrayvec::ArrayVec;
use sc_lockpass::HandlerNumber;
use sc_region::{Activation, Errand, Request, Store, Want};

/// Whether the answer is waited for: that of a query, and of a call that passes locks.
fn is_waited(call: RemoteCall) -> bool
    ensures { result ≡ is_waited call }
{
    call.passes || call.gives
}

/// The call of the routine is asked, and waited for.
fn ask_waited(activation: &Activation, poster: HandlerNumber, call: RemoteCall, asked: &mut Want)
    requires few { call.count < 17 }
    requires enough { call.count ≤ length (activation_of activation.now).operands.values }
    ensures { asked.new ≡ want.Ask (record (request_by poster call (activation_of activation.now)) { is_waited = true }) call.passes }
{
    *asked = Want::Ask {
        request: Request {
            poster: Some(poster),
            target: call.object,
            errand: Errand::Calls(call.name),
            actuals: ArrayVec::new(),
            is_waited: true,
        },
        passes: call.passes,
    };
    if let Want::Ask { request, .. } = asked {
        add_last_values(&mut request.actuals, activation, call.count);
    }
}

/// The call of the routine is asked, and not waited for.
fn ask_posted(activation: &Activation, poster: HandlerNumber, call: RemoteCall, asked: &mut Want)
    requires few { call.count < 17 }
    requires enough { call.count ≤ length (activation_of activation.now).operands.values }
    ensures { asked.new ≡ want.Post (record (request_by poster call (activation_of activation.now)) { is_waited = false }) }
{
    *asked = Want::Post(Request {
        poster: Some(poster),
        target: call.object,
        errand: Errand::Calls(call.name),
        actuals: ArrayVec::new(),
        is_waited: false,
    });
    if let Want::Post(request) = asked {
        add_last_values(&mut request.actuals, activation, call.count);
    }
}

/// The call of the routine is asked.
#[tactic(auto, using(crate::proofs::Asked::asks_waited, crate::proofs::Asked::asks_posted))]
fn ask_by(activation: &Activation, poster: HandlerNumber, call: RemoteCall, asked: &mut Want)
    requires few { call.count < 17 }
    requires enough { call.count ≤ length (activation_of activation.now).operands.values }
    ensures { asked.new ≡ asks_sent (request_by poster call (activation_of activation.now)) call.passes }
{
    if is_waited(call) {
        ask_waited(activation, poster, call, asked);
    } else {
        ask_posted(activation, poster, call, asked);
    }
}

/// The call of the routine is asked, where its operands are there: whether it is.
fn ask_of(
    activation: &Activation,
    poster: HandlerNumber,
    call: RemoteCall,
    asked: &mut Want,
) -> bool
    ensures told { result ≡ is_some (request_of poster call (activation_of activation.now)) }
    ensures few { IsTrue result → call.count < 17 }
    ensures want { IsTrue result → asked.new ≡ asks_sending (request_of poster call (activation_of activation.now)) call.passes }
{
    if !has_call(activation, call.count) {
        return false;
    }
    ask_by(activation, poster, call, asked);
    true
}

/// Writes what a call of the topmost routine wants.
fn ask_in(store: &Store<'_>, poster: HandlerNumber, call: RemoteCall, asked: &mut Want) -> bool
    ensures told { result ≡ is_some (request_in poster call (top_activation store.now.frames)) }
    ensures few { IsTrue result → call.count < 17 }
    ensures want { IsTrue result → asked.new ≡ asks_sending (request_in poster call (top_activation store.now.frames)) call.passes }
{
    match store.top() {
        Some(activation) => ask_of(activation, poster, call, asked),
        None => false,
    }
}

/// The operands of the call go, and the routine waits where the answer is waited for.
fn send_on(activation: &mut Activation, call: RemoteCall)
    requires { call.count < 17 }
    ensures { activation_of activation.new ≡ sending call (activation_of activation.old) }
{
    go_past(activation, call.count + 1);
    await_if(
        activation,
        is_waited(call),
        call.object.handler,
        call.gives,
        false,
    );
}

/// Lets the topmost routine go on after it posted a call.
fn send(store: &mut Store<'_>, call: RemoteCall)
    requires { call.count < 17 }
    ensures { store.new ≡ on_top (sending call) store.old }
{
    match store.top_mut() {
        Some(activation) => send_on(activation, call),
        None => (),
    }
}

/// Calls a feature of an object of another handler by its name: F16 if there are fewer operands than the call takes,
/// or more actuals than a request has room for. A query is waited for, and so is a call that passes locks.
///
/// It isn't inlined: each turn would clear the request if it were part of the loop of turns.
#[inline(never)]
#[tactic(auto, using(crate::proofs::Asked::sent_some, crate::proofs::Asked::sent_none, crate::proofs::Asked::asks_none))]
pub fn request(store: &mut Store<'_>, handler: HandlerNumber, call: RemoteCall, asked: &mut Want)
    ensures store { store.new ≡ requested handler call store.old }
    ensures want { asked.new ≡ asks_requesting handler call (top_activation store.old.frames) }
{
    if ask_in(store, handler, call, asked) {
        send(store, call);
    } else {
        misfit(store, asked);
    }
}
