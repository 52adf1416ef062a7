//! What handlers have to do.
ghost use Rattle.std.specs.Prelude.{◌≡◌, ◌≤◌, ◌<◌, ◌-◌, Some, is_some, length, map, true};
ghost use Rattle.std.specs.List.{list_all};
ghost use Rattle.std.specs.Option.{option_map};
ghost use Rattle.sc_lockpass.specs.Tables.{rights_of};
ghost use Rattle.sc_lockpass.specs.wait_conditions.Reservations.{is_lost, may_be_reserved, reserve_fails};
ghost use Rattle.sc_handler.specs.Handlers.{is_reserving, standing_in};
ghost use Rattle.sc_handler.specs.Picking.{job_for_entry, needs};
ghost use Rattle.sc_request.specs.Candidates.{AreCandidates};
ghost use Rattle.sc_request.specs.Crowds.{AreCrowds};
ghost use Rattle.sc_request.specs.Places.{IsSetOut, center_at, plain};
ghost use Rattle.sc_request.specs.Logs.{first_with_job, next, numbers_from, pick_for, status_for};

use crate::handler_set::HandlerSet;
use crate::state::State;
use arrayvec::ArrayVec;
use sc_handler::{Handler, HandlerStage};
use sc_lockpass::HandlerNumber;
use sc_lockpass::wait_conditions::Entry;
use sc_model::Status;
use sc_region::Job;

impl State {
    /// Whether a handler has something to do and isn't out.
    pub(crate) fn has_job(&self, handler: HandlerNumber) -> bool
        ensures { result ≡ is_some (pick_for handler (center_at 0 self.now)) }
    {
        if (handler as usize) >= self.count {
            return false;
        }
        let place = &self.handlers[handler as usize];
        if place.out.is_some() || place.failure.is_some() {
            return false;
        }
        match place.stage {
            HandlerStage::Idle => place.is_asked(),
            HandlerStage::Runs | HandlerStage::HasMade(_) => true,
            HandlerStage::Reserves => self.is_enabled(handler, place),
            HandlerStage::Awaits {
                supplier: _,
                is_creation: _,
            } => place.is_called(),
        }
    }

    /// The job of a handler, if it has one and isn't out.
    pub(crate) fn pick_for(&self, handler: HandlerNumber) -> Option<Job>
        ensures { result ≡ pick_for handler (center_at 0 self.now) }
    {
        if (handler as usize) >= self.count {
            return None;
        }
        let place = &self.handlers[handler as usize];
        if place.out.is_some() || place.failure.is_some() {
            return None;
        }
        match place.stage {
            HandlerStage::Idle => place.job_idle(),
            HandlerStage::Runs => Some(Job::Go),
            HandlerStage::HasMade(made) => Some(Job::Made(made)),
            HandlerStage::Reserves => self.job_for_entry(handler, place),
            HandlerStage::Awaits {
                supplier,
                is_creation,
            } => place.job_awaiting(supplier, is_creation),
        }
    }

    /// The status of a handler, or None if there is no such handler. One that is out is busy.
    pub(crate) fn status(&self, handler: HandlerNumber) -> Option<Status>
        ensures { result ≡ status_for handler (center_at 0 self.now) }
    {
        if (handler as usize) >= self.count {
            return None;
        }
        let place = &self.handlers[handler as usize];
        if let Some(why) = place.failure {
            return Some(Status::Failed(why));
        }
        if place.out.is_some() || self.has_job(handler) {
            return Some(Status::Busy);
        }
        match place.stage {
            HandlerStage::Idle => Some(Status::Free),
            _ => Some(Status::Waiting),
        }
    }

    /// The next handler with a job, after the one that was picked last. Handlers without one leave the candidates.
    pub(crate) fn first_round(
        &self,
        last: HandlerNumber,
        candidates: &mut HandlerSet,
        crowds: &mut Vec<HandlerSet>,
    ) -> Option<HandlerNumber>
        requires candidates { AreCandidates candidates.old.words (center_at last self.now) }
        requires crowds { AreCrowds crowds.old.items self.now.count (plain self.now).handlers }
        ensures found { result ≡ option_map (λ p. p.0) (next (center_at last self.now)) }
        ensures kept { AreCandidates candidates.new.words (center_at last self.now) }
        ensures crowds { AreCrowds crowds.new.items self.now.count (plain self.now).handlers }
    {
        let after = last as usize + 1;
        match self.first_in(candidates, crowds, after, self.count) {
            Some(found) => Some(found),
            None => self.first_in(candidates, crowds, 0, self.count.min(after)),
        }
    }

    /// The first from a number on, and below another one.
    fn first_in(
        &self,
        candidates: &mut HandlerSet,
        crowds: &mut Vec<HandlerSet>,
        from: usize,
        to: usize,
    ) -> Option<HandlerNumber>
        requires within { to ≤ self.now.count }
        requires candidates { AreCandidates candidates.old.words (center_at 0 self.now) }
        requires crowds { AreCrowds crowds.old.items self.now.count (plain self.now).handlers }
        ensures found { result ≡ option_map (λ p. p.0) (first_with_job (numbers_from from (to - from)) (center_at 0 self.now)) }
        ensures kept { AreCandidates candidates.new.words (center_at 0 self.now) }
        ensures crowds { AreCrowds crowds.new.items self.now.count (plain self.now).handlers }
    {
        let mut at = from;
        for _turn in from..to {
            let handler = candidates.next_in(at, to)?;
            if self.has_job(handler as HandlerNumber) {
                return Some(handler as HandlerNumber);
            }
            self.pass_over(handler as HandlerNumber, candidates, crowds);
            at = handler + 1;
        }
        None
    }

    /// Marks a handler as out with its job.
    pub(crate) fn set_out(&mut self, handler: HandlerNumber)
        requires there { handler < 512 }
        ensures handlers { IsSetOut handler self.old self.new }
        ensures count { self.new.count ≡ self.old.count }
        ensures rights { self.new.rights ≡ self.old.rights }
        ensures sessions { self.new.sessions ≡ self.old.sessions }
    {
        if self.is_reserving(handler) {
            self.set_reserving(handler);
        } else {
            self.handlers[handler as usize].set_own();
        }
    }

    /// Marks a handler as out with the job of its reserve step.
    #[inline(never)]
    fn set_reserving(&mut self, handler: HandlerNumber)
        requires there { handler < 512 }
        requires reserves { is_reserving ((plain self.old).handlers handler).stage ≡ true }
        ensures handlers { IsSetOut handler self.old self.new }
        ensures count { self.new.count ≡ self.old.count }
        ensures rights { self.new.rights ≡ self.old.rights }
        ensures sessions { self.new.sessions ≡ self.old.sessions }
    {
        let job = self.job_for_entry(handler, &self.handlers[handler as usize]);
        self.handlers[handler as usize].out.put(job);
    }

    /// The job of the reserve step of a handler, if it can be taken.
    pub(crate) fn job_for_entry(&self, handler: HandlerNumber, place: &Handler) -> Option<Job>
        ensures { result ≡ job_for_entry (needs handler place.now.entry.items (rights_of self.now.rights)) place.now.mark (plain self.now) }
    {
        let needed = self.needed(handler, place);
        if self.is_any_lost(needed.as_slice()) {
            return Some(Job::Failed);
        }
        if self.are_free(needed.as_slice()) && place.mark.allows(self.sessions.as_slice()) {
            return Some(Job::Granted(needed));
        }
        None
    }

    /// Whether the reserve step of a handler may be taken.
    fn is_enabled(&self, handler: HandlerNumber, place: &Handler) -> bool
        ensures { result ≡ is_some (job_for_entry (needs handler place.now.entry.items (rights_of self.now.rights)) place.now.mark (plain self.now)) }
    {
        let needed = self.needed(handler, place);
        self.is_any_lost(needed.as_slice())
            || (self.are_free(needed.as_slice()) && place.mark.allows(self.sessions.as_slice()))
    }

    /// What a handler doesn't hold of the handlers of its entry.
    pub(crate) fn needed(
        &self,
        handler: HandlerNumber,
        place: &Handler,
    ) -> ArrayVec<HandlerNumber, 16>
        ensures { result.items ≡ needs handler place.now.entry.items (rights_of self.now.rights) }
    {
        let values = values_of(place.entry.as_slice());
        Entry::new(handler).needed(values.as_slice(), &self.rights)
    }

    /// Whether one of these can never be reserved again.
    fn is_any_lost(&self, handlers: &[HandlerNumber]) -> bool
        ensures { result ≡ reserve_fails (standing_in (plain self.now)) (rights_of self.now.rights) handlers.now }
    {
        handlers.iter().any(|k| self.is_lost(*k))
    }

    /// Whether all of these may be reserved.
    fn are_free(&self, handlers: &[HandlerNumber]) -> bool
        ensures { result ≡ list_all (λ k. may_be_reserved (standing_in (plain self.now) k) ((rights_of self.now.rights).queue k)) handlers.now }
    {
        handlers.iter().all(|k| self.is_free(*k))
    }

    /// Whether a handler has failed, and no handler holds it.
    fn is_lost(&self, handler: HandlerNumber) -> bool
        ensures { result ≡ is_lost (standing_in (plain self.now) handler) ((rights_of self.now.rights).queue handler) }
    {
        match self.handlers.get(handler as usize) {
            Some(place) => place.failure.is_some() && self.rights.queue(handler).is_none(),
            None => false,
        }
    }

    /// Whether a handler is idle with an empty queue, and no handler holds it.
    fn is_free(&self, handler: HandlerNumber) -> bool
        ensures { result ≡ may_be_reserved (standing_in (plain self.now) handler) ((rights_of self.now.rights).queue handler) }
    {
        if self.rights.queue(handler).is_some() {
            return false;
        }
        match self.handlers.get(handler as usize) {
            Some(place) => place.is_idle(),
            None => true,
        }
    }
}

/// The handlers, as those of values.
fn values_of(handlers: &[HandlerNumber]) -> ArrayVec<Option<HandlerNumber>, 16>
    requires { length handlers.now ≤ 16 }
    ensures { result.items ≡ map Some handlers.now }
{
    let mut values = ArrayVec::new();
    for handler in handlers {
        values.push(Some(*handler));
    }
    values
}
