//! What settlements change of one handler, in its place.
ghost use Rattle.std.specs.Prelude.{◌≡◌, ◌≤◌, ◌<◌, ◌+◌, ◌^◌, ◌∷◌, ℕ, [], length, map, false};
ghost use Rattle.sc_handler.specs.InMemory.{reserves_at, answer_of, posted_as, posting_of, stage_of};
ghost use Rattle.sc_handler.specs.Handlers.{Reserves, new_handler, put, with_stage};
ghost use Rattle.sc_handler.specs.Changes.{answered, fallen, to_list, takes, takes_answer};
ghost use Rattle.sc_request.specs.Places.{outs_of, plain};
ghost use Rattle.sc_request.specs.Sessions.{send};
ghost use Rattle.sc_request.specs.Settling.{reserves};

use crate::state::State;
use arrayvec::ArrayVec;
use sc_handler::{Answer, Dropped, HandlerStage, SparePlaces, WaitMark, copy_handlers};
use sc_lockpass::{HandlerNumber, Passed};
use sc_model::Cause;
use sc_region::Request;

impl State {
    /// The handler takes its callback, or the first of its queue, as its stage says.
    pub(crate) fn take_at(&mut self, handler: HandlerNumber)
        requires there { handler < 512 }
        requires room { length ((plain self.old).handlers handler).services + 1 < 2 ^ 63 }
        ensures plain { let x = (plain self.old).handlers handler in plain self.new ≡ put handler (takes x.stage x) (plain self.old) }
        ensures outs { outs_of self.new ≡ outs_of self.old }
        ensures rights { self.new.rights ≡ self.old.rights }
        ensures sessions { self.new.sessions ≡ self.old.sessions }
    {
        self.handlers[handler as usize].take();
    }

    /// The handler takes an answer.
    pub(crate) fn take_answer_at(&mut self, handler: HandlerNumber)
        requires { handler < 512 }
        ensures plain { plain self.new ≡ put handler (takes_answer ((plain self.old).handlers handler)) (plain self.old) }
        ensures outs { outs_of self.new ≡ outs_of self.old }
        ensures rights { self.new.rights ≡ self.old.rights }
        ensures sessions { self.new.sessions ≡ self.old.sessions }
    {
        self.handlers[handler as usize].take_answer();
    }

    /// Sets the stage of the handler.
    pub(crate) fn stand(&mut self, handler: HandlerNumber, stage: HandlerStage)
        requires there { handler < 512 }
        requires kind { reserves_at stage ≡ false }
        ensures plain { plain self.new ≡ with_stage handler (stage_of [] [] stage) (plain self.old) }
        ensures outs { outs_of self.new ≡ outs_of self.old }
        ensures rights { self.new.rights ≡ self.old.rights }
        ensures sessions { self.new.sessions ≡ self.old.sessions }
    {
        self.handlers[handler as usize].stage = stage;
    }

    /// The next step of the handler is the reserve step for these.
    pub(crate) fn reserve_next(
        &mut self,
        handler: HandlerNumber,
        entry: &ArrayVec<HandlerNumber, 16>,
    )
        requires { handler < 512 }
        ensures plain { plain self.new ≡ reserves handler entry.now.items (plain self.old) }
        ensures outs { outs_of self.new ≡ outs_of self.old }
        ensures rights { self.new.rights ≡ self.old.rights }
        ensures sessions { self.new.sessions ≡ self.old.sessions }
    {
        let place = &mut self.handlers[handler as usize];
        place.stage = HandlerStage::Reserves;
        place.entry = copy_handlers(entry);
        place.mark = WaitMark::new();
    }

    /// The reserve step of the handler comes again, after a wait with this mark.
    pub(crate) fn reserve_again(&mut self, handler: HandlerNumber, mark: WaitMark)
        requires { handler < 512 }
        ensures plain { plain self.new ≡ with_stage handler (Reserves ((plain self.old).handlers handler).entry mark) (plain self.old) }
        ensures outs { outs_of self.new ≡ outs_of self.old }
        ensures rights { self.new.rights ≡ self.old.rights }
        ensures sessions { self.new.sessions ≡ self.old.sessions }
    {
        let place = &mut self.handlers[handler as usize];
        place.stage = HandlerStage::Reserves;
        place.mark = mark;
    }

    /// The handler hears an answer.
    pub(crate) fn hear_at(&mut self, handler: HandlerNumber, answer: Answer)
        requires { handler < 512 }
        ensures plain { plain self.new ≡ put handler (answered (answer_of answer) ((plain self.old).handlers handler)) (plain self.old) }
        ensures outs { outs_of self.new ≡ outs_of self.old }
        ensures rights { self.new.rights ≡ self.old.rights }
        ensures sessions { self.new.sessions ≡ self.old.sessions }
    {
        self.handlers[handler as usize].hear(answer);
    }

    /// Puts a request, in one of these places, as the handler's callback or at its queue's end.
    pub(crate) fn place_at(
        &mut self,
        handler: HandlerNumber,
        is_callback: bool,
        request: &Request,
        is_waited: bool,
        passed: &mut Option<Passed>,
        spare: &mut SparePlaces,
    )
        requires there { handler < 512 }
        requires spare { 1 ≤ spare.old }
        requires room { is_callback ≡ false → length ((plain self.old).handlers handler).queue + 1 < 2 ^ 63 }
        ensures plain { plain self.new ≡ send is_callback handler (posted_as request.now is_waited passed.old) (plain self.old) }
        ensures outs { outs_of self.new ≡ outs_of self.old }
        ensures rights { self.new.rights ≡ self.old.rights }
        ensures sessions { self.new.sessions ≡ self.old.sessions }
        ensures places { spare.old ≤ spare.new + 1 }
    {
        self.handlers[handler as usize].place(is_callback, request, is_waited, passed, spare);
    }

    /// The handler has no frames and nothing that it is asked for, as it fails.
    pub(crate) fn fall_at(&mut self, handler: HandlerNumber, why: Cause) -> Dropped
        requires { handler < 512 }
        ensures queue { map posting_of result.queue ≡ ((plain self.old).handlers handler).queue }
        ensures callback { map posting_of result.callback ≡ to_list ((plain self.old).handlers handler).callback }
        ensures services { map posting_of result.services ≡ map (λ v. v.posted) ((plain self.old).handlers handler).services }
        ensures plain { plain self.new ≡ put handler (fallen why ((plain self.old).handlers handler)) (plain self.old) }
        ensures outs { outs_of self.new ≡ outs_of self.old }
        ensures rights { self.new.rights ≡ self.old.rights }
        ensures sessions { self.new.sessions ≡ self.old.sessions }
    {
        self.handlers[handler as usize].fall(why)
    }
}
