//! What a core keeps of single handlers.
ghost use Rattle.std.specs.Prelude.{◌≡◌, ◌<◌, ◌≤◌, ◌↔◌, [], ℕ, IfOk, IsTrue, length, slice_index};
ghost use Rattle.sc_handler.specs.Canonical.{canon_handler};
ghost use Rattle.sc_handler.specs.InMemory.{handler_of};
ghost use Rattle.sc_request.specs.Candidates.{AreFreshFrom};
ghost use Rattle.sc_request.specs.Sound.{IsSoundHandler};

use crate::center::Core;
use crate::kept_core::{Holders, holders_of};
use sc_handler::{Handler, read_alike, word_of, write_handler};
use sc_lockpass::HandlerNumber;
use std::alloc::{AllocError, Global};
use std::hash::{FoldHasher, Hasher};

/// What a core keeps of one handler, as it is read, with who holds it. It takes memory for the requests at the handler.
#[derive(Drop)]
pub struct Part {
    pub(crate) handler: Handler,
    pub(crate) holders: Holders,
    /// As many settlements as the handler refused requests, or serves requests, whichever are more.
    pub(crate) settlements: usize,
    pub(crate) ghost sound: { IsSoundHandler settlements settlements 512 (handler_of handler) },
    pub(crate) ghost read: { canon_handler (slice_index []) (handler_of handler) ≡ handler_of handler },
}

impl Core {
    ghost use Rattle.sc_request.specs.Cores.{state_of};
    ghost use Rattle.sc_request.specs.Parts.{new_part, part_at, part_of};

    /// What is kept of a handler.
    ///
    /// # Errors
    /// Memory ran out.
    pub fn part(&self, alloc: Global, handler: HandlerNumber) -> Result<Part, AllocError>
        requires { handler < 512 }
        ensures { IfOk result (λ part. part_of part ≡ part_at handler (state_of self.now)) }
    {
        let place = &self.state.handlers[handler as usize];
        let read = place.read_by(alloc, &self.state.sessions)?;
        Ok(Part {
            settlements: settlements_for(&read),
            handler: read,
            holders: holders_of(&self.state.rights, handler),
        })
    }

    /// Whether this is what is kept of a handler.
    pub fn is_part(&self, handler: HandlerNumber, part: &Part) -> bool
        requires { handler < 512 }
        ensures { IsTrue result ↔ part_of part.now ≡ part_at handler (state_of self.now) }
    {
        let place = &self.state.handlers[handler as usize];
        read_alike(&part.handler, &[], place, &self.state.sessions)
            && same_holders(part.holders, holders_of(&self.state.rights, handler))
    }

    /// Whether a handler was asked for nothing yet, and no handler holds it.
    fn is_new(&self, handler: HandlerNumber) -> bool
        requires { handler < 512 }
        ensures { IsTrue result → part_at handler (state_of self.now) ≡ new_part }
    {
        self.state.handlers[handler as usize].is_fresh()
            && self.state.rights.queue(handler).is_none()
            && self.state.rights.top(handler).is_none()
    }

    /// A number from which on each handler was asked for nothing yet, and no handler holds it: at least that of the handlers.
    /// The number `asked` is one from which on no handler was asked for anything.
    pub fn used(&self, asked: usize) -> usize
        requires few { asked ≤ 512 }
        requires fresh { AreFreshFrom asked (state_of self.now) }
        ensures count { (state_of self.now).count ≤ result }
        ensures few { result ≤ 512 }
        ensures new { (h : ℕ) → result ≤ h → part_at h (state_of self.now) ≡ new_part }
    {
        let reach = larger(asked, self.state.rights.reach());
        let mut count = larger(self.state.count, reach);
        while count > self.state.count && self.is_new((count - 1) as HandlerNumber) {
            count -= 1;
        }
        count
    }

    /// A hash of what is kept of a handler, or of nothing if it has no place. No contract says which number it is. It takes
    /// time for each request at the handler.
    pub fn part_hash(&self, handler: HandlerNumber) -> u64 {
        let mut hasher = FoldHasher::default();
        let queue = word_of(self.state.rights.queue(handler));
        let top = word_of(self.state.rights.top(handler));
        hasher.write_u64(queue | top << 32);
        if let Some(place) = self.state.handlers.get(handler as usize) {
            write_handler(&mut hasher, place);
        }
        hasher.finish()
    }
}

fn same_holders(holders: Holders, others: Holders) -> bool
    ensures { IsTrue result ↔ holders ≡ others }
{
    holders == others
}

/// How many requests a handler refused, or serves, whichever are more.
fn settlements_for(handler: &Handler) -> usize
    ensures refused { (handler_of handler.now).refused ≤ result }
    ensures serves { length (handler_of handler.now).services ≤ result }
{
    larger(handler.services.len(), handler.refused as usize)
}

/// The larger one of two numbers.
pub(crate) fn larger(one: usize, other: usize) -> usize
    ensures one { one ≤ result }
    ensures other { other ≤ result }
    ensures least { (n : ℕ) → one ≤ n → other ≤ n → result ≤ n }
{
    if one < other { other } else { one }
}
