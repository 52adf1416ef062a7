//! Which handlers are known to wait for which: while that is held, those aren't tried one after another.
ghost use Rattle.std.specs.Prelude.{◌≡◌, ◌<◌, ◌&&◌, ℕ, IfSome, false, is_some, not};
ghost use Rattle.std.specs.List.{list_any};
ghost use Rattle.sc_lockpass.specs.Rights.{held, is_among};
ghost use Rattle.sc_lockpass.specs.Tables.{is_member, rights_of};
ghost use Rattle.sc_request.specs.Candidates.{AreCandidates};
ghost use Rattle.sc_request.specs.Crowds.{AreCrowds, Disbands, LeavesCrowds, LeavesEach, Notes, WaitsFor, crowd_at, reserved_by};
ghost use Rattle.sc_request.specs.Logs.{pick_for};
ghost use Rattle.sc_request.specs.Places.{center_at, plain};

use crate::handler_set::HandlerSet;
use crate::state::State;
use sc_handler::HandlerStage;
use sc_lockpass::HandlerNumber;

impl State {
    /// A handler that has nothing to do leaves the candidates. Where it waits for one that is held, that is noted, and
    /// all others leave that are known to wait for it, but for those that hold it.
    pub(crate) fn pass_over(
        &self,
        handler: HandlerNumber,
        candidates: &mut HandlerSet,
        crowds: &mut Vec<HandlerSet>,
    )
        requires there { handler < self.now.count }
        requires idle { is_some (pick_for handler (center_at 0 self.now)) ≡ false }
        requires candidates { AreCandidates candidates.old.words (center_at 0 self.now) }
        requires crowds { AreCrowds crowds.old.items self.now.count (plain self.now).handlers }
        ensures candidates { AreCandidates candidates.new.words (center_at 0 self.now) }
        ensures crowds { AreCrowds crowds.new.items self.now.count (plain self.now).handlers }
    {
        candidates.remove(handler as usize);
        if let Some(needed) = self.held_off_by(handler) {
            extend(crowds, needed as usize);
            note(crowds, needed, handler, true);
            self.leave_out(needed, crowds.as_slice(), candidates);
        }
    }

    /// Where a handler is held, those that are known to wait for it leave the candidates, but for those that hold it.
    fn leave_out(&self, needed: HandlerNumber, crowds: &[HandlerSet], candidates: &mut HandlerSet)
        requires candidates { AreCandidates candidates.old.words (center_at 0 self.now) }
        requires crowds { AreCrowds crowds.now self.now.count (plain self.now).handlers }
        ensures { AreCandidates candidates.new.words (center_at 0 self.now) }
    {
        if self.rights.queue(needed).is_none() {
            return;
        }
        if let Some(crowd) = crowds.get(needed as usize) {
            let kept_off = self.without_holders(needed, *crowd);
            candidates.take_out(&kept_off);
        }
    }

    /// Of these handlers, those that don't hold another one.
    fn without_holders(&self, needed: HandlerNumber, crowd: HandlerSet) -> HandlerSet
        ensures { (k : ℕ) → k < 512 → is_member result.words k ≡ (not (held (rights_of self.now.rights) k needed) && is_member crowd.words k) }
    {
        let mut rest = crowd;
        rest.dismiss(Some(needed));
        rest.dismiss(self.rights.queue(needed));
        rest.dismiss(self.rights.top(needed));
        rest
    }

    /// A handler that this one reserves next and to which another one may post. None if one that it reserves has
    /// failed.
    fn held_off_by(&self, handler: HandlerNumber) -> Option<HandlerNumber>
        requires { handler < 512 }
        ensures { IfSome result (λ b. WaitsFor b handler (plain self.now).handlers) }
    {
        let reserved = self.reserved_by(handler);
        if self.is_any_failed(reserved) {
            return None;
        }
        for at in 0..reserved.len() {
            let needed = reserved[at];
            if self.rights.queue(needed).is_some() && !self.rights.held(handler, needed) {
                return Some(needed);
            }
        }
        None
    }

    /// The handlers that a handler's next step reserves if it doesn't hold them, if that is a reserve step.
    fn reserved_by(&self, handler: HandlerNumber) -> &[HandlerNumber]
        requires { handler < 512 }
        ensures { result.now ≡ reserved_by ((plain self.now).handlers handler).stage }
    {
        let place = &self.handlers[handler as usize];
        match place.stage {
            HandlerStage::Reserves => place.entry.as_slice(),
            _ => &[],
        }
    }

    /// Whether one of these has failed.
    fn is_any_failed(&self, handlers: &[HandlerNumber]) -> bool
        ensures { result ≡ list_any (λ k. is_some ((plain self.now).handlers k).failure) handlers.now }
    {
        handlers.iter().any(|k| self.is_failed(*k))
    }

    fn is_failed(&self, handler: HandlerNumber) -> bool
        ensures { result ≡ is_some ((plain self.now).handlers handler).failure }
    {
        match self.handlers.get(handler as usize) {
            Some(place) => place.failure.is_some(),
            None => false,
        }
    }

    /// A handler, which may wait no longer, is known to wait for none.
    pub(crate) fn leave_crowds(&self, handler: HandlerNumber, crowds: &mut Vec<HandlerSet>)
        requires there { handler < 512 }
        requires crowds { AreCrowds crowds.old.items self.now.count (plain self.now).handlers }
        ensures { LeavesCrowds handler crowds.old.items crowds.new.items }
    {
        leave_each(crowds, self.reserved_by(handler), handler);
    }

    /// After a handler has failed, forgets who waits: each one that waited for it may be able to go on.
    pub(crate) fn disband(&self, handler: HandlerNumber, crowds: &mut Vec<HandlerSet>)
        ensures { Disbands (is_some ((plain self.now).handlers handler).failure) crowds.old.items crowds.new.items }
    {
        if self.is_failed(handler) {
            clear(crowds);
        }
    }
}

/// Notes whether a handler waits for another one, if there is a set for that.
fn note(
    crowds: &mut Vec<HandlerSet>,
    needed: HandlerNumber,
    handler: HandlerNumber,
    is_waiting: bool,
)
    requires { handler < 512 }
    ensures { Notes needed handler is_waiting crowds.old.items crowds.new.items }
{
    let at = needed as usize;
    if at < crowds.len() {
        crowds[at].set(handler as usize, is_waiting);
    }
}

/// Adds empty sets up to that of a number, as long as there is room for them.
fn extend(crowds: &mut Vec<HandlerSet>, last: usize)
    ensures { (b k : ℕ) → is_member (crowd_at crowds.new.items b) k ≡ is_member (crowd_at crowds.old.items b) k }
{
    while crowds.len() <= last && crowds.len() < crowds.capacity() {
        crowds.push_reserved(HandlerSet::new());
    }
}

/// Notes that a handler waits for none of these.
fn leave_each(crowds: &mut Vec<HandlerSet>, reserved: &[HandlerNumber], handler: HandlerNumber)
    requires { handler < 512 }
    ensures { LeavesEach handler reserved.now crowds.old.items crowds.new.items }
{
    for at in 0..reserved.len() {
        note(crowds, reserved[at], handler, false);
    }
}

/// Forgets who waits.
pub(crate) fn clear(crowds: &mut Vec<HandlerSet>)
    ensures { (b k : ℕ) → is_member (crowd_at crowds.new.items b) k ≡ false }
{
    crowds.clear();
}
