//! Failures, and the handlers that learn of them.
ghost use Rattle.std.specs.Prelude.{◌≡◌, ◌<◌, ◌+◌, ◌-◌, ◌^◌, ℕ, true, map, slice_index, vec_len, if◌then◌else◌};
ghost use Rattle.sc_lockpass.specs.Rights.{is_handler};
ghost use Rattle.sc_lockpass.specs.Tables.{rights_of};
ghost use Rattle.sc_handler.specs.InMemory.{answer_of, posting_of};
ghost use Rattle.sc_request.specs.Places.{lets_go, outs_of, plain, tells};
ghost use Rattle.sc_request.specs.Sessions.{answer_to, fail};
ghost use Rattle.sc_request.specs.Tables.{CountsUp};
ghost use Rattle.sc_request.specs.Sound.{ArePlaced, IsHeldBelow, IsSound, placed_poster};

use crate::state::State;
use sc_handler::{Answer, Dropped, PostedRequest, Posting};
use sc_lockpass::{HandlerNumber, Rights};
use sc_model::Cause;
use std::collections::LinkedList;

impl State {
    /// Fails a handler. It releases every right that it holds, and each handler that waits for it learns of it.
    pub(crate) fn fail(&mut self, handler: HandlerNumber, why: Cause)
        requires there { handler < 512 }
        requires sound { IsSound (2 ^ 64 - 2) (2 ^ 63) (plain self.old) }
        ensures plain { plain self.new ≡ fail handler why (plain self.old) }
        ensures outs { outs_of self.new ≡ outs_of self.old }
        ensures version { self.new.rights.version ≡ self.old.rights.version }
    {
        self.let_go(handler);
        let Dropped {
            queue,
            callback,
            services,
        } = self.fall_at(handler, why);
        self.tell_posters(queue);
        self.tell_posters(callback);
        self.tell_posters(services);
    }

    /// A handler releases every right that it holds. A session of each that it may post to ends.
    fn let_go(&mut self, handler: HandlerNumber)
        requires room { (k : ℕ) → slice_index self.old.sessions.items k + 1 < 2 ^ 64 }
        requires held { IsHeldBelow (rights_of self.old.rights) }
        ensures plain { plain self.new ≡ lets_go handler (plain self.old) }
        ensures handlers { self.new.handlers ≡ self.old.handlers }
        ensures version { self.new.rights.version ≡ self.old.rights.version }
    {
        count_held(&mut self.sessions, &self.rights, handler);
        self.rights.release_all(handler);
    }

    /// Lets those that wait for the answer to one of these know that their supplier has failed.
    fn tell_posters(&mut self, mut postings: LinkedList<Posting>)
        requires { ArePlaced (map posting_of postings) }
        ensures plain { plain self.new ≡ tells (map posting_of postings) (plain self.old) }
        ensures outs { outs_of self.new ≡ outs_of self.old }
        ensures version { self.new.rights.version ≡ self.old.rights.version }
    {
        while let Some(posting) = postings.pop_front() {
            self.answer_to(&posting.request, Answer::SupplierFailed);
        }
    }

    /// The poster of a request hears the answer, if it waits.
    pub(crate) fn answer_to(&mut self, request: &PostedRequest, answer: Answer)
        requires { placed_poster request.now.poster ≡ true }
        ensures plain { plain self.new ≡ answer_to request.now.is_waited request.now.poster (answer_of answer) (plain self.old) }
        ensures outs { outs_of self.new ≡ outs_of self.old }
        ensures version { self.new.rights.version ≡ self.old.rights.version }
    {
        if request.is_waited() {
            match request.poster() {
                Some(poster) => self.hear_at(poster, answer),
                None => {}
            }
        }
    }
}

/// Counts one more for each that a handler may post to.
fn count_held(counts: &mut Vec<u64>, rights: &Rights, handler: HandlerNumber)
    requires places { vec_len counts.old ≡ 512 }
    requires room { (k : ℕ) → slice_index counts.old.items k + 1 < 2 ^ 64 }
    requires held { IsHeldBelow (rights_of rights.now) }
    ensures counted { CountsUp (λ k. is_handler handler ((rights_of rights.now).queue k)) counts.old.items counts.new.items }
    ensures len { vec_len counts.new ≡ vec_len counts.old }
{
    for k in 0..512_u16 {
        if holds(handler, rights.queue(k)) {
            counts[k as usize] += 1;
        }
    }
}

/// Whether this holder is the handler.
pub(crate) fn holds(handler: HandlerNumber, holder: Option<HandlerNumber>) -> bool
    ensures { result ≡ is_handler handler holder }
{
    match holder {
        Some(held_by) => held_by == handler,
        None => false,
    }
}
