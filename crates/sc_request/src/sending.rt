//! Requests are sent.
ghost use Rattle.std.specs.Prelude.{◌≡◌, ◌≤◌, ◌<◌, ◌+◌, ◌-◌, ◌^◌, false, is_some, length, nat_lt};
ghost use Rattle.std.specs.Option.{option_map};
ghost use Rattle.sc_lockpass.specs.Tables.{passed_of};
ghost use Rattle.sc_lockpass.specs.Versions.{most_handlers};
ghost use Rattle.sc_model.specs.Limits.{max_queue};
ghost use Rattle.sc_handler.specs.InMemory.{posted_as};
ghost use Rattle.sc_request.specs.Places.{outs_of, plain};
ghost use Rattle.sc_request.specs.Sessions.{HasRoomAt, is_callback, passed_if, send};
ghost use Rattle.sc_request.specs.Settling.{asks, awaits_if, sends};
ghost use Rattle.sc_request.specs.Sessions as sessions;
ghost use Rattle.sc_request.specs.Sound.{IsSound};

use crate::failing::holds;
use crate::state::State;
use sc_handler::{HandlerStage, SparePlaces};
use sc_lockpass::{HandlerNumber, Passed};
use sc_model::Cause;
use sc_region::Request;

/// How many requests a queue may have.
const MAX_QUEUE: usize = 4096;

impl State {
    /// A handler asks another one, unless that has failed or its queue is full.
    pub(crate) fn ask(
        &mut self,
        handler: HandlerNumber,
        request: &Request,
        passes: bool,
        spare: &mut SparePlaces,
    )
        requires there { handler < most_handlers self.old.rights.version }
        requires target { request.now.target.handler < 512 }
        requires spare { 1 ≤ spare.old }
        requires sound { IsSound (2 ^ 64 - 2) (2 ^ 63) (plain self.old) }
        ensures plain { plain self.new ≡ asks handler request.now passes (plain self.old) }
        ensures places { spare.old ≤ spare.new + 1 }
        ensures outs { outs_of self.new ≡ outs_of self.old }
        ensures version { self.new.rights.version ≡ self.old.rights.version }
    {
        let target = request.target.handler;
        let is_callback = self.is_callback(handler, target);
        if self.has_failed(target) {
            self.fail(handler, Cause::SupplierFailed);
            return;
        }
        if !is_callback && !self.has_room(target) {
            self.fail(handler, Cause::QueueFull);
            return;
        }
        let is_waited = passes || request.is_waited || is_callback;
        self.send_on(handler, request, passes, is_waited, spare);
    }

    /// Sends a request to its target, with all rights if it passes them, and waits for it or not.
    fn send_on(
        &mut self,
        handler: HandlerNumber,
        request: &Request,
        passes: bool,
        is_waited: bool,
        spare: &mut SparePlaces,
    )
        requires there { handler < most_handlers self.old.rights.version }
        requires target { request.now.target.handler < 512 }
        requires spare { 1 ≤ spare.old }
        requires room { HasRoomAt handler request.now.target.handler (plain self.old) }
        ensures plain { plain self.new ≡ sends handler request.now.target.handler request.now passes is_waited (plain self.old) }
        ensures places { spare.old ≤ spare.new + 1 }
        ensures outs { outs_of self.new ≡ outs_of self.old }
        ensures version { self.new.rights.version ≡ self.old.rights.version }
    {
        let target = request.target.handler;
        let is_callback = self.is_callback(handler, target);
        self.await_if(is_waited, handler, target);
        let mut passed = self.pass_if(passes, handler, target);
        self.send(is_callback, target, request, is_waited, &mut passed, spare);
    }

    /// Whether a handler may push on the waiting stack of another one.
    fn is_callback(&self, handler: HandlerNumber, target: HandlerNumber) -> bool
        ensures { result ≡ is_callback handler target (plain self.now) }
    {
        holds(handler, self.rights.top(target))
    }

    /// Whether the handler has failed.
    pub(crate) fn has_failed(&self, handler: HandlerNumber) -> bool
        requires { handler < 512 }
        ensures { result ≡ is_some ((plain self.now).handlers handler).failure }
    {
        self.handlers[handler as usize].failure.is_some()
    }

    /// Whether the handler's queue has room.
    fn has_room(&self, handler: HandlerNumber) -> bool
        requires { handler < 512 }
        ensures { result ≡ nat_lt (length ((plain self.now).handlers handler).queue) max_queue }
    {
        self.handlers[handler as usize].queue.len() < MAX_QUEUE
    }

    /// A handler waits for the answer of its supplier, where the request is waited for.
    fn await_if(&mut self, is_waited: bool, handler: HandlerNumber, supplier: HandlerNumber)
        requires { handler < 512 }
        ensures plain { plain self.new ≡ awaits_if is_waited handler supplier (plain self.old) }
        ensures outs { outs_of self.new ≡ outs_of self.old }
        ensures rights { self.new.rights ≡ self.old.rights }
        ensures sessions { self.new.sessions ≡ self.old.sessions }
    {
        if is_waited {
            let stage = HandlerStage::Awaits {
                supplier,
                is_creation: false,
            };
            self.stand(handler, stage);
        }
    }

    /// Passes all rights of a client to its supplier, where the request passes them.
    pub(crate) fn pass_if(
        &mut self,
        passes: bool,
        client: HandlerNumber,
        supplier: HandlerNumber,
    ) -> Option<Passed>
        requires { client < most_handlers self.old.rights.version }
        ensures passed { option_map passed_of result ≡ passed_if passes client (plain self.old).rights }
        ensures plain { plain self.new ≡ sessions.passes passes client supplier (plain self.old) }
        ensures outs { outs_of self.new ≡ outs_of self.old }
        ensures version { self.new.rights.version ≡ self.old.rights.version }
        ensures handlers { self.new.handlers ≡ self.old.handlers }
        ensures sessions { self.new.sessions ≡ self.old.sessions }
    {
        if passes {
            Some(self.rights.pass(client, supplier))
        } else {
            None
        }
    }

    /// Puts a request, which is waited for or not, as the callback of its target, or at the end of its queue.
    pub(crate) fn send(
        &mut self,
        is_callback: bool,
        target: HandlerNumber,
        request: &Request,
        is_waited: bool,
        passed: &mut Option<Passed>,
        spare: &mut SparePlaces,
    )
        requires there { target < 512 }
        requires spare { 1 ≤ spare.old }
        requires room { is_callback ≡ false → length ((plain self.old).handlers target).queue < max_queue }
        ensures plain { plain self.new ≡ send is_callback target (posted_as request.now is_waited passed.old) (plain self.old) }
        ensures places { spare.old ≤ spare.new + 1 }
        ensures outs { outs_of self.new ≡ outs_of self.old }
        ensures rights { self.new.rights ≡ self.old.rights }
        ensures sessions { self.new.sessions ≡ self.old.sessions }
    {
        self.place_at(target, is_callback, request, is_waited, passed, spare);
    }
}
