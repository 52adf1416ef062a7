//! Marks of entries that wait, as they are kept of handlers.
ghost use Rattle.std.specs.Prelude.{◌≡◌, ◌<◌, ◌≤◌, ◌↔◌, [], IsTrue, length, slice_index};
ghost use Rattle.std.specs.List.{All};
ghost use Rattle.sc_lockpass.specs.wait_conditions.Reservations.{mark_allows, mark_of};
ghost use Rattle.sc_handler.specs.Canonical.{canon_mark, marked_in};

use arrayvec::ArrayVec;
use sc_lockpass::HandlerNumber;
use sc_lockpass::wait_conditions::Mark;
use std::marker::Model;

/// The mark of an entry, and beside it the handlers that it marks, by which marks are compared whose counts differ.
#[derive(Drop)]
pub struct WaitMark {
    mark: Mark,
    handlers: ArrayVec<HandlerNumber, 16>,
    ghost marked: { handlers.items ≡ marked_in mark },
}

impl Model for WaitMark {
    ghost use Rattle.std.specs.Prelude.{List};
    ghost use Rattle.sc_lockpass.specs.declared.wait_conditions.mark.Marked.{Marked};

    ghost Value = { List Marked };

    ghost view = { λ m. m.mark };
}

impl WaitMark {
    /// The mark of an entry that hasn't waited.
    pub fn new() -> Self
        ensures { result ≡ [] }
    {
        WaitMark {
            mark: Mark::new(),
            handlers: ArrayVec::new(),
        }
    }

    /// The mark of an entry that had newly reserved these handlers, 16 at most, by the counts of the sessions of all
    /// handlers, in order.
    pub fn of(reserved: &[HandlerNumber], sessions: &[u64]) -> Self
        requires few { length reserved.now ≤ 16 }
        requires listed { All (λ k. k < length sessions.now) reserved.now }
        ensures { result ≡ mark_of (slice_index sessions.now) reserved.now }
    {
        WaitMark {
            mark: Mark::of(reserved, sessions),
            handlers: listed(reserved),
        }
    }

    /// The mark as it is read by the counts of the sessions of all handlers: none if the entry may be tried, and else one
    /// of the same handlers without counts.
    pub(crate) fn read_by(&self, sessions: &[u64]) -> WaitMark
        ensures { result ≡ canon_mark (slice_index sessions.now) self.now }
    {
        if self.allows(sessions) {
            return WaitMark::new();
        }
        WaitMark::uncounted(self.handlers.as_slice())
    }

    /// The mark of an entry that had newly reserved these handlers, 16 at most, before a session of any had ended.
    fn uncounted(reserved: &[HandlerNumber]) -> WaitMark
        requires { length reserved.now ≤ 16 }
        ensures { result ≡ mark_of (λ k. 0) reserved.now }
    {
        WaitMark {
            mark: Mark::uncounted(reserved),
            handlers: listed(reserved),
        }
    }

    /// Whether the entry may be tried: it hasn't waited, or a session of one of the marked handlers has ended since.
    pub fn allows(&self, sessions: &[u64]) -> bool
        ensures { result ≡ mark_allows (slice_index sessions.now) self.now }
    {
        self.mark.allows(sessions)
    }

    /// Whether both mark the same handlers with the same counts, in the same order.
    pub fn is_same(&self, other: &WaitMark) -> bool
        ensures { IsTrue result ↔ self.now ≡ other.now }
    {
        self.mark.is_same(&other.mark)
    }

    /// Whether both are read alike, each by the counts of its core: both entries may be tried; or neither may, and both
    /// mark the same handlers in the same order.
    pub fn reads_alike(&self, sessions: &[u64], other: &WaitMark, their_sessions: &[u64]) -> bool
        ensures { IsTrue result ↔ canon_mark (slice_index sessions.now) self.now ≡ canon_mark (slice_index their_sessions.now) other.now }
    {
        match (self.allows(sessions), other.allows(their_sessions)) {
            (true, true) => true,
            (false, false) => self.marks_same(other),
            _ => false,
        }
    }

    /// Whether both mark the same handlers in the same order, whatever their counts are.
    fn marks_same(&self, other: &WaitMark) -> bool
        ensures { IsTrue result ↔ marked_in self.now ≡ marked_in other.now }
    {
        self.handlers.as_slice() == other.handlers.as_slice()
    }
}

/// The handlers, 16 at most, in the same order.
fn listed(handlers: &[HandlerNumber]) -> ArrayVec<HandlerNumber, 16>
    requires { length handlers.now ≤ 16 }
    ensures { result.items ≡ handlers.now }
{
    let mut list = ArrayVec::new();
    if !handlers.is_empty() {
        let _ = list.try_extend_from_slice(handlers);
    }
    list
}
