//! Cores that are kept, to be compared with others.
ghost use Rattle.std.specs.Prelude.{◌≡◌, ◌≤◌, ◌↔◌, IfOk, IsTrue, slice_get, slice_index, vec_len};
ghost use Rattle.sc_lockpass.specs.Tables.{rights_of};
ghost use Rattle.sc_handler.specs.Handlers.{new_handler};
ghost use Rattle.sc_handler.specs.Canonical.{canon};
ghost use Rattle.sc_request.specs.Tables.{handler_at, handler_in};
ghost use Rattle.sc_request.specs.Cores.{state_of};
ghost use Rattle.sc_request.specs.Keeping.{AreNewFrom, holders_in, read_at, rights_in};

use crate::center::Core;
use sc_handler::{Handler, read_alike, same_handler};
use sc_lockpass::{HandlerNumber, Rights};
use std::alloc::{AllocError, Global};

/// Who holds a handler: which handler may post to it, and which may push on its waiting stack.
#[derive(Clone, Copy, PartialEq, Eq)]
pub(crate) struct Holders {
    pub(crate) queue: Option<HandlerNumber>,
    pub(crate) top: Option<HandlerNumber>,
}

/// The state of a core as it is read: its handlers, and who holds which. It takes memory for the handlers that there
/// are, and for their queues. Of the counts of sessions it matters only whether one has risen since a mark was made.
/// The jobs that handlers are out with, the handler picked last and the log are no part of it.
#[derive(Drop)]
pub struct KeptCore {
    /// How many handlers there are.
    pub(crate) count: usize,
    /// The handlers. All past these are new.
    pub(crate) handlers: Vec<Handler>,
    /// How many sessions of each have ended.
    pub(crate) sessions: Vec<u64>,
    /// Who holds each. No handler holds any after these.
    pub(crate) holders: Vec<Holders>,
    pub(crate) ghost few: { vec_len holders ≤ 512 },
}

impl Core {
    ghost use Rattle.sc_request.specs.Kept.{kept_of};

    /// The state of the core as it is read, to be kept. The core is consumed.
    ///
    /// # Errors
    /// Memory ran out. The core is gone then, too.
    #[tactic(auto, using(crate::proofs::KeptCores::same_canon))]
    pub fn keep(self, alloc: Global) -> Result<KeptCore, AllocError>
        ensures { IfOk result (λ core. kept_of core ≡ canon (state_of self)) }
    {
        let holders = all_holders(alloc, &self.state.rights)?;
        let (handlers, sessions) = without_new(self.state.handlers, self.state.sessions);
        Ok(KeptCore {
            count: self.state.count,
            handlers,
            sessions,
            holders,
        })
    }
}

impl KeptCore {
    ghost use Rattle.sc_request.specs.Kept.{kept_of};

    /// Whether the state of a core is read as the one that is kept.
    pub fn is_same(&self, core: &Core) -> bool
        ensures { IsTrue result ↔ kept_of self.now ≡ canon (state_of core.now) }
    {
        if self.count != core.state.count {
            return false;
        }
        let state = &core.state;
        are_read_alike(
            &self.handlers,
            &self.sessions,
            &state.handlers,
            &state.sessions,
        ) && self.has_same_rights(&state.rights)
    }

    /// Whether each has the same holders.
    fn has_same_rights(&self, rights: &Rights) -> bool
        ensures { IsTrue result ↔ rights_in self.now.holders.items ≡ rights_of rights.now }
    {
        let _ = rights.reach();
        for handler in 0..512u16 {
            if !self.has_same_holders(rights, handler) {
                return false;
            }
        }
        true
    }

    /// Whether a handler has the same holders.
    fn has_same_holders(&self, rights: &Rights, handler: HandlerNumber) -> bool
        ensures { IsTrue result ↔ holders_in (slice_get self.now.holders.items handler)
            ≡ record { queue = (rights_of rights.now).queue handler; top = (rights_of rights.now).top handler } }
    {
        holders_at(&self.holders, handler) == holders_of(rights, handler)
    }
}

// ---- handlers

/// The handlers, with the counts of their sessions, but for those at the end that are new.
fn without_new(mut handlers: Vec<Handler>, mut sessions: Vec<u64>) -> (Vec<Handler>, Vec<u64>)
    ensures { handler_at result.0.items result.1.items ≡ handler_at handlers.items sessions.items }
{
    let count = used(&handlers, &sessions);
    handlers.truncate(count);
    handlers.shrink_to_fit();
    sessions.truncate(count);
    sessions.shrink_to_fit();
    (handlers, sessions)
}

/// A place from which on all handlers are new, and none before which it is so.
fn used(handlers: &[Handler], sessions: &[u64]) -> usize
    ensures { AreNewFrom result handlers.now sessions.now }
{
    let mut count = handlers.len().max(sessions.len());
    while count > 0 && is_new_at(handlers, sessions, count - 1) {
        count -= 1;
    }
    count
}

/// Whether the handler at a place is new, and no session of it has ended, or there is none.
fn is_new_at(handlers: &[Handler], sessions: &[u64], place: usize) -> bool
    ensures { IsTrue result ↔ handler_at handlers.now sessions.now place ≡ new_handler }
{
    same_at(handlers, sessions, &[], &[], place)
}

/// How many sessions of the handler at a place have ended.
fn sessions_at(sessions: &[u64], place: usize) -> u64
    ensures { result ≡ slice_index sessions.now place }
{
    sessions.get(place).copied().unwrap_or(0)
}

/// Whether the handlers are read alike, each by the counts of its core, if all after them are new.
fn are_read_alike(
    handlers: &[Handler],
    sessions: &[u64],
    others: &[Handler],
    their_sessions: &[u64],
) -> bool
    ensures { IsTrue result ↔ read_at handlers.now sessions.now ≡ read_at others.now their_sessions.now }
{
    let most = handlers.len().max(others.len());
    for place in 0..most {
        if !are_read_alike_at(handlers, sessions, others, their_sessions, place) {
            return false;
        }
    }
    true
}

/// Whether the handlers at a place are read alike. A missing one counts as new.
fn are_read_alike_at(
    handlers: &[Handler],
    sessions: &[u64],
    others: &[Handler],
    their_sessions: &[u64],
    place: usize,
) -> bool
    ensures { IsTrue result ↔ read_at handlers.now sessions.now place ≡ read_at others.now their_sessions.now place }
{
    match (handlers.get(place), others.get(place)) {
        (Some(handler), Some(other)) => read_alike(handler, sessions, other, their_sessions),
        (Some(handler), None) => handler.is_fresh(),
        (None, Some(other)) => other.is_fresh(),
        (None, None) => true,
    }
}

/// Whether the handlers at a place, and the counts of their sessions, are equal. A missing one counts as new.
#[tactic(auto, using(crate::proofs::KeptCores::same_there, crate::proofs::KeptCores::same_handler_there, crate::proofs::KeptCores::same_count_there))]
fn same_at(
    handlers: &[Handler],
    sessions: &[u64],
    others: &[Handler],
    their_sessions: &[u64],
    place: usize,
) -> bool
    ensures { IsTrue result ↔ handler_at handlers.now sessions.now place ≡ handler_at others.now their_sessions.now place }
{
    same_or_new(handlers, others, place)
        && sessions_at(sessions, place) == sessions_at(their_sessions, place)
}

/// Whether the handlers at a place are equal, whatever the counts of their sessions are. A missing one counts as new.
fn same_or_new(handlers: &[Handler], others: &[Handler], place: usize) -> bool
    ensures { IsTrue result ↔ handler_in (slice_get handlers.now place) ≡ handler_in (slice_get others.now place) }
{
    match (handlers.get(place), others.get(place)) {
        (Some(handler), Some(other)) => same_handler(handler, other),
        (Some(handler), None) => handler.is_fresh(),
        (None, Some(other)) => other.is_fresh(),
        (None, None) => true,
    }
}

// ---- rights

/// Who holds each handler, up to the last that anybody holds.
fn all_holders(alloc: Global, rights: &Rights) -> Result<Vec<Holders>, AllocError>
    ensures rights { IfOk result (λ holders. rights_in holders.items ≡ rights_of rights.now) }
    ensures few { IfOk result (λ holders. vec_len holders ≤ 512) }
{
    let reach = rights.reach();
    let mut holders = Vec::with_capacity(alloc, reach)?;
    for handler in 0..reach {
        holders.push(holders_of(rights, handler as HandlerNumber))?;
    }
    Ok(holders)
}

/// Who holds a handler.
pub(crate) fn holders_of(rights: &Rights, handler: HandlerNumber) -> Holders
    ensures { result ≡ record { queue = (rights_of rights.now).queue handler; top = (rights_of rights.now).top handler } }
{
    Holders {
        queue: rights.queue(handler),
        top: rights.top(handler),
    }
}

/// The holders of a handler, if no handler holds any after these.
fn holders_at(holders: &[Holders], handler: HandlerNumber) -> Holders
    ensures { result ≡ holders_in (slice_get holders.now handler) }
{
    match holders.get(handler as usize) {
        Some(kept) => *kept,
        None => Holders {
            queue: None,
            top: None,
        },
    }
}
