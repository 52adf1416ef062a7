//! Whom a settlement gives something to do.
ghost use Rattle.std.specs.Prelude.{◌≡◌, ◌==◌, ◌≤◌, ◌<◌, ◌&&◌, ◌||◌, ℕ, false, if◌then◌else◌, is_some, map};
ghost use Rattle.sc_lockpass.specs.Rights.{is_handler};
ghost use Rattle.sc_handler.specs.Handlers.{is_reserving};
ghost use Rattle.sc_handler.specs.InMemory.{posting_of};
ghost use Rattle.sc_request.specs.Candidates.{Adds, AddsTouched, AreStrangersFrom, is_asked, Puts, Wakes, may_hear_from, posted_first};
ghost use Rattle.sc_request.specs.Places.{plain};

use crate::center::Core;
use crate::handler_set::HandlerSet;
use crate::state::State;
use sc_handler::{HandlerStage, Posting};
use sc_lockpass::HandlerNumber;
use sc_region::Want;
use std::collections::LinkedList;

impl State {
    /// Adds the handler that is to be settled, and each other one that its turn touches if it asks this and doesn't
    /// fail.
    pub(crate) fn touch(&self, handler: HandlerNumber, want: &Want, candidates: &mut HandlerSet)
        requires { handler < 512 }
        ensures { AddsTouched handler want.now (plain self.now) candidates.old.words candidates.new.words }
    {
        match want {
            Want::Post(request) => candidates.admit(request.target.handler as usize),
            Want::Ask { request, passes: _ } => {
                candidates.admit(request.target.handler as usize);
            }
            Want::Create {
                class: _,
                procedure: _,
                actuals: _,
                passes: _,
            } => candidates.admit(self.count),
            Want::Done {
                reply: _,
                released: _,
                refused: _,
            } => self.touch_posters(handler, candidates),
            Want::Continue | Want::Reserve(_) | Want::Release(_) | Want::Wait(_) | Want::Fail(_) =>
                {}
        }
        candidates.insert(handler as usize);
    }

    /// Adds those that posted what a handler serves, or takes next.
    fn touch_posters(&self, handler: HandlerNumber, candidates: &mut HandlerSet)
        requires { handler < 512 }
        ensures { Adds (may_hear_from ((plain self.now).handlers handler)) candidates.old.words candidates.new.words }
    {
        let place = &self.handlers[handler as usize];
        touch_first(&place.callback, candidates);
        touch_first(&place.queue, candidates);
        touch_first(&place.services, candidates);
    }

    /// Notes whether a handler that was settled waits to reserve. Then it adds those that do, where what they need may
    /// be free from now on, and all where the handler has failed.
    pub(crate) fn wake(
        &self,
        handler: HandlerNumber,
        is_freeing: bool,
        reserving: &mut HandlerSet,
        candidates: &mut HandlerSet,
    )
        requires { handler < 512 }
        ensures reserving { Puts handler (is_reserving ((plain self.now).handlers handler).stage) reserving.old.words reserving.new.words }
        ensures candidates { Wakes ((plain self.now).handlers handler) is_freeing reserving.new.words candidates.old.words candidates.new.words }
    {
        reserving.set(handler as usize, self.is_reserving(handler));
        if self.has_failed(handler) {
            candidates.fill();
        } else if is_freeing {
            candidates.add(reserving);
        }
    }

    /// Whether the next step of a handler is a reserve step.
    pub(crate) fn is_reserving(&self, handler: HandlerNumber) -> bool
        requires { handler < 512 }
        ensures { result ≡ is_reserving ((plain self.now).handlers handler).stage }
    {
        match self.handlers[handler as usize].stage {
            HandlerStage::Reserves => true,
            HandlerStage::Idle
            | HandlerStage::Runs
            | HandlerStage::HasMade(_)
            | HandlerStage::Awaits {
                supplier: _,
                is_creation: _,
            } => false,
        }
    }
}

impl Core {
    ghost use Rattle.sc_request.specs.Cores.{state_of};

    /// Whether a handler has failed.
    pub fn has_failed(&self, handler: HandlerNumber) -> bool
        requires { handler < 512 }
        ensures { result ≡ is_some ((state_of self.now).handlers handler).failure }
    {
        self.state.has_failed(handler)
    }

    /// A number past that of a handler, past those that there are and the next one that is made, and past those that
    /// posted what the handler serves, or takes next.
    pub fn strangers_from(&self, handler: HandlerNumber) -> usize
        requires { handler < 512 }
        ensures few { result ≤ 512 }
        ensures strangers { AreStrangersFrom result handler (state_of self.now) }
    {
        let place = &self.state.handlers[handler as usize];
        let from = past(self.state.count, past(handler as usize, 0));
        let from = past_poster(&place.services, from);
        let from = past_poster(&place.queue, from);
        past_poster(&place.callback, from)
    }
}

/// A number, at least `from`, past the handler that a turn asks that wants this, if it asks one.
pub fn past_target(want: &Want, from: usize) -> usize
    requires { from ≤ 512 }
    ensures few { result ≤ 512 }
    ensures not_below { from ≤ result }
    ensures past { (k : ℕ) → result ≤ k → k < 512 → is_asked want.now k ≡ false }
{
    match want {
        Want::Post(request) => past(request.target.handler as usize, from),
        Want::Ask { request, passes: _ } => past(request.target.handler as usize, from),
        Want::Continue
        | Want::Reserve(_)
        | Want::Create {
            class: _,
            procedure: _,
            actuals: _,
            passes: _,
        }
        | Want::Release(_)
        | Want::Wait(_)
        | Want::Done {
            reply: _,
            released: _,
            refused: _,
        }
        | Want::Fail(_) => from,
    }
}

/// The poster of the first of these lies below the number, as those below `from` do.
fn past_poster(postings: &LinkedList<Posting>, from: usize) -> usize
    requires { from ≤ 512 }
    ensures few { result ≤ 512 }
    ensures not_below { from ≤ result }
    ensures past { (k : ℕ) → result ≤ k → k < 512 → posted_first k (map posting_of postings.now) ≡ false }
{
    let Some(first) = postings.front() else {
        return from;
    };
    match first.request.poster() {
        Some(poster) => past(poster as usize, from),
        None => from,
    }
}

/// The handler lies below the number if it has a place, as those below `from` do.
fn past(handler: usize, from: usize) -> usize
    requires { from ≤ 512 }
    ensures few { result ≤ 512 }
    ensures not_below { from ≤ result }
    ensures past { (k : ℕ) → result ≤ k → k < 512 → (k == handler) ≡ false }
{
    if handler < from || handler >= 512 {
        return from;
    }
    handler + 1
}

/// Adds the poster of the first of these, if there is one.
fn touch_first(postings: &LinkedList<Posting>, candidates: &mut HandlerSet)
    ensures { Adds (λ k. posted_first k (map posting_of postings.now)) candidates.old.words candidates.new.words }
{
    let Some(first) = postings.front() else {
        return;
    };
    if let Some(poster) = first.request.poster() {
        candidates.admit(poster as usize);
    }
}
