//! What settlements change of a handler.
ghost use Rattle.std.specs.Prelude.{◌≡◌, ◌≤◌, ◌<◌, ◌+◌, ◌^◌, ◌∷◌, ℕ, [], IfSome, false, length, map, slice_get, take};
ghost use Rattle.sc_handler.specs.Handlers.{new_handler};
ghost use Rattle.sc_handler.specs.Changes.{placed, answered, fallen, takes, takes_answer, without_first};
ghost use Rattle.sc_handler.specs.InMemory.{answer_of, cleared, handler_with, posted_as, reserves_at, served, service_of};

use crate::handler::{Answer, Handler, HandlerStage, Posting};
use crate::postings::{append, stand_over, take_all, take_first};
use crate::spare_places::SparePlaces;
use crate::wait_mark::WaitMark;
use sc_lockpass::{Passed, post};
use sc_model::Cause;
use sc_region::Request;
use std::collections::LinkedList;

/// The requests of a handler that fails.
#[derive(Drop)]
pub struct Dropped {
    /// Those that it was to take.
    pub queue: LinkedList<Posting>,
    /// The one that it was to take before any answer, if there was one.
    pub callback: LinkedList<Posting>,
    /// Those that its frames served.
    pub services: LinkedList<Posting>,
}

impl Handler {
    /// Takes the callback, or the first of the queue, as its stage says. The handler serves it from now on.
    pub fn take(&mut self)
        requires { length self.old.services + 1 < 2 ^ 63 }
        ensures handler { (n : ℕ) → handler_with n self.new ≡ takes (handler_with n self.old).stage (handler_with n self.old) }
        ensures out { self.new.out ≡ self.old.out }
    {
        match self.stage {
            HandlerStage::Idle => {
                let first = take_first(&mut self.queue);
                self.serve(first);
            }
            HandlerStage::Awaits {
                supplier: _,
                is_creation: _,
            } => {
                let first = take_first(&mut self.callback);
                self.callback.clear();
                self.serve(first);
            }
            HandlerStage::Runs | HandlerStage::HasMade(_) | HandlerStage::Reserves => {}
        }
    }

    /// Serves the only request of a list, if there is one.
    fn serve(&mut self, mut first: LinkedList<Posting>)
        requires alone { length first ≤ 1 }
        requires room { length self.old.services + 1 < 2 ^ 63 }
        ensures { self.new ≡ served first self.old }
    {
        if first.is_empty() {
            return;
        }
        stand_over(&mut first, self.stage);
        append(&mut first, &mut self.services);
        self.services = first;
        self.stage = HandlerStage::Runs;
    }

    /// Takes an answer, and goes on.
    pub fn take_answer(&mut self)
        ensures handler { (n : ℕ) → handler_with n self.new ≡ takes_answer (handler_with n self.old) }
        ensures out { self.new.out ≡ self.old.out }
    {
        self.stage = HandlerStage::Runs;
        self.answer = None;
    }

    /// Hears an answer. One that has failed takes none, and one that has an answer keeps it, but that its supplier has
    /// failed it always hears.
    pub fn hear(&mut self, answer: Answer)
        ensures handler { (n : ℕ) → handler_with n self.new ≡ answered (answer_of answer) (handler_with n self.old) }
        ensures out { self.new.out ≡ self.old.out }
    {
        let is_told = answer == Answer::SupplierFailed;
        if self.failure.is_none() && (is_told || self.answer.is_none()) {
            self.answer = Some(answer);
        }
    }

    /// Puts a request, in one of these places, as its callback or at its queue's end.
    pub fn place(
        &mut self,
        is_callback: bool,
        request: &Request,
        is_waited: bool,
        passed: &mut Option<Passed>,
        spare: &mut SparePlaces,
    )
        requires spare { 1 ≤ spare.old }
        requires room { is_callback ≡ false → length self.old.queue + 1 < 2 ^ 63 }
        ensures handler { (n : ℕ) → handler_with n self.new ≡ placed is_callback (posted_as request.now is_waited passed.old) (handler_with n self.old) }
        ensures out { self.new.out ≡ self.old.out }
        ensures places { spare.old ≤ spare.new + 1 }
    {
        let node = spare.take(request, is_waited, passed);
        post(is_callback, node, &mut self.queue, &mut self.callback);
    }

    /// Fails: it has no frames, and nothing that it is asked for.
    pub fn fall(&mut self, why: Cause) -> Dropped
        ensures queue { result.queue ≡ self.old.queue }
        ensures callback { result.callback ≡ take 1 self.old.callback }
        ensures services { result.services ≡ self.old.services }
        ensures handler { (n : ℕ) → handler_with n self.new ≡ fallen why (handler_with n self.old) }
        ensures out { self.new.out ≡ self.old.out }
    {
        let queue = take_all(&mut self.queue);
        let callback = take_first(&mut self.callback);
        let services = take_all(&mut self.services);
        self.clear();
        self.failure = Some(why);
        Dropped {
            queue,
            callback,
            services,
        }
    }

    /// Removes the request that it serves, with its node, and returns to the stage at which it took it. A refusal is
    /// counted if no handler waits.
    pub fn pop_service(&mut self, refused: bool) -> LinkedList<Posting>
        requires counted { self.old.refused + 1 < 2 ^ 64 }
        requires over { IfSome (slice_get self.old.services 0) (λ p. reserves_at p.over ≡ false) }
        ensures service { result ≡ take 1 self.old.services }
        ensures handler { (n : ℕ) → handler_with n self.new ≡ without_first refused (map service_of self.old.services) (handler_with n self.old) }
        ensures out { self.new.out ≡ self.old.out }
    {
        let service = take_first(&mut self.services);
        let Some(first) = service.front() else {
            return service;
        };
        self.stage = first.over;
        if refused && !first.request.is_waited {
            self.refused += 1;
        }
        service
    }

    /// Makes it a handler to which nothing was ever posted.
    pub fn renew(&mut self)
        ensures handler { (n : ℕ) → handler_with n self.new ≡ record new_handler { sessions = n } }
        ensures out { self.new.out ≡ self.old.out }
    {
        self.clear();
        self.failure = None;
        self.refused = 0;
    }

    /// It has no frames, and nothing that it is asked for.
    fn clear(&mut self)
        ensures { self.new ≡ cleared self.old }
    {
        self.stage = HandlerStage::Idle;
        self.entry.clear();
        self.mark = WaitMark::new();
        self.services.clear();
        self.queue.clear();
        self.callback.clear();
        self.answer = None;
    }
}
