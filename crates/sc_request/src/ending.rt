//! Requests end.
ghost use Rattle.std.specs.Prelude.{◌≡◌, ◌≤◌, ◌<◌, ◌-◌, ◌^◌, true, map, if◌then◌else◌};
ghost use Rattle.std.specs.Option.{option_map};
ghost use Rattle.sc_lockpass.specs.Tables.{passed_of};
ghost use Rattle.sc_handler.specs.Handlers.{Refused, Replied, put};
ghost use Rattle.sc_handler.specs.Changes.{first_of, without_first};
ghost use Rattle.sc_handler.specs.InMemory.{answer_of, posting_of, service_of};
ghost use Rattle.sc_request.specs.Places.{outs_of, plain};
ghost use Rattle.sc_request.specs.Sessions.{finish, return_rights};
ghost use Rattle.sc_request.specs.Settling.{ends, may_post_to_all};
ghost use Rattle.sc_request.specs.Sound.{IsSound, placed_poster};

use crate::state::State;
use sc_handler::{Answer, Passing, Posting, SparePlaces};
use sc_lockpass::HandlerNumber;
use sc_model::Cause;
use sc_region::Value;
use std::collections::LinkedList;

impl State {
    /// Ends the request that a handler serves, with a value or none, or refused. What its entry newly reserved is
    /// released. The node of the request goes to `spare`.
    pub(crate) fn end(
        &mut self,
        handler: HandlerNumber,
        reply: Option<Value>,
        released: &[HandlerNumber],
        refused: bool,
        spare: &mut SparePlaces,
    )
        requires there { handler < 512 }
        requires sound { IsSound (2 ^ 64 - 2) (2 ^ 63) (plain self.old) }
        requires held { may_post_to_all handler released.now (plain self.old) ≡ true }
        ensures plain { plain self.new ≡ ends handler reply released.now refused ((plain self.old).handlers handler).services (plain self.old) }
        ensures outs { outs_of self.new ≡ outs_of self.old }
        ensures version { self.new.rights.version ≡ self.old.rights.version }
        ensures places { spare.old ≤ spare.new }
    {
        let mut service = self.pop_service(handler, refused);
        let Some(first) = service.front_mut() else {
            self.fail(handler, Cause::BadCode);
            return;
        };
        self.end_sessions(released);
        let answer = answer_by(reply, refused);
        self.finish(first, answer);
        spare.recycle(service);
    }

    /// Removes the request that a handler serves; the handler returns to the stage at which it took it. A refusal is
    /// counted if no handler waits.
    fn pop_service(&mut self, handler: HandlerNumber, refused: bool) -> LinkedList<Posting>
        requires there { handler < 512 }
        requires sound { IsSound (2 ^ 64 - 2) (2 ^ 63) (plain self.old) }
        ensures service { first_of (map service_of result) ≡ first_of ((plain self.old).handlers handler).services }
        ensures plain { let x = (plain self.old).handlers handler in plain self.new ≡ put handler (without_first refused x.services x) (plain self.old) }
        ensures outs { outs_of self.new ≡ outs_of self.old }
        ensures rights { self.new.rights ≡ self.old.rights }
        ensures sessions { self.new.sessions ≡ self.old.sessions }
    {
        self.handlers[handler as usize].pop_service(refused)
    }

    /// What was passed with a request returns, and its poster hears the answer, if it waits.
    fn finish(&mut self, service: &mut Posting, answer: Answer)
        requires { placed_poster service.old.request.poster ≡ true }
        ensures plain { plain self.new ≡ finish (posting_of service.old) (answer_of answer) (plain self.old) }
        ensures outs { outs_of self.new ≡ outs_of self.old }
        ensures version { self.new.rights.version ≡ self.old.rights.version }
    {
        self.return_rights(&mut service.passed);
        self.answer_to(&service.request, answer);
    }

    /// What was passed with a request returns. Mostly there is nothing, and then nothing is moved.
    fn return_rights(&mut self, passed: &mut Passing)
        ensures plain { plain self.new ≡ return_rights (option_map passed_of passed.old) (plain self.old) }
        ensures outs { outs_of self.new ≡ outs_of self.old }
        ensures version { self.new.rights.version ≡ self.old.rights.version }
    {
        if passed.is_some() {
            self.give_back(passed);
        }
    }

    /// Gives back what was passed, if anything was.
    #[inline(never)]
    fn give_back(&mut self, passed: &mut Passing)
        ensures plain { plain self.new ≡ return_rights (option_map passed_of passed.old) (plain self.old) }
        ensures outs { outs_of self.new ≡ outs_of self.old }
        ensures version { self.new.rights.version ≡ self.old.rights.version }
    {
        match passed.take() {
            Some(passed) => self.rights.give_back(passed),
            None => {}
        }
    }
}

/// What a request is answered by.
fn answer_by(reply: Option<Value>, refused: bool) -> Answer
    ensures { answer_of result ≡ (if refused then Refused else Replied reply) }
{
    if refused {
        Answer::Refused
    } else {
        Answer::Replied(reply)
    }
}
