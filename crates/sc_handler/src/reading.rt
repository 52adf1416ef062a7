//! Copies of handlers as they are read.
ghost use Rattle.std.specs.Prelude.{◌≡◌, IfOk, None, slice_index};
ghost use Rattle.sc_handler.specs.Canonical.{canon_handler};
ghost use Rattle.sc_handler.specs.InMemory.{handler_of};

use crate::copy::copy_handlers;
use crate::handler::{Handler, Posting};
use crate::job_slot::JobSlot;
use std::alloc::{AllocError, Global};
use std::collections::LinkedList;

impl Handler {
    /// A copy of the handler as it is read by the counts of the sessions of all handlers, which isn't out. Instead of a
    /// mark that lets its entry be tried it has none, and another one has no counts.
    ///
    /// # Errors
    /// Memory ran out.
    pub fn read_by(&self, alloc: Global, sessions: &[u64]) -> Result<Handler, AllocError>
        ensures handler { IfOk result (λ handler. handler_of handler ≡ canon_handler (slice_index sessions.now) (handler_of self.now)) }
        ensures out { IfOk result (λ handler. handler.out ≡ None) }
    {
        Ok(Handler {
            stage: self.stage,
            entry: copy_handlers(&self.entry),
            mark: self.mark.read_by(sessions),
            services: copy_postings(alloc, &self.services)?,
            queue: copy_postings(alloc, &self.queue)?,
            callback: copy_postings(alloc, &self.callback)?,
            answer: self.answer,
            failure: self.failure,
            refused: self.refused,
            out: JobSlot::new(),
        })
    }
}

impl Posting {
    /// A copy. Its error says that memory ran out.
    fn copy(&self, alloc: Global) -> Result<Posting, AllocError>
        ensures { IfOk result (λ posting. posting ≡ self.now) }
    {
        Ok(Posting {
            request: self.request.copy(alloc)?,
            passed: self.passed.copy(alloc)?,
            over: self.over,
        })
    }
}

/// Copies of requests, in the same order. Its error says that memory ran out.
fn copy_postings(
    alloc: Global,
    postings: &LinkedList<Posting>,
) -> Result<LinkedList<Posting>, AllocError>
    ensures { IfOk result (λ copy. copy ≡ postings.now) }
{
    let mut copy = LinkedList::new(alloc);
    let mut left = postings.iter();
    while let Some(posting) = left.next() {
        copy.push_back(posting.copy(alloc)?)?;
    }
    Ok(copy)
}
