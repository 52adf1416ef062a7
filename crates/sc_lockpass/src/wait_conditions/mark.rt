//! Marks of entries that wait.
ghost use Rattle.std.specs.Prelude.{◌≡◌, ◌<◌, ◌≤◌, ◌↔◌, [], IsTrue, List, length, slice_index};
ghost use Rattle.std.specs.List.{All, list_any};
ghost use Rattle.sc_lockpass.specs.wait_conditions.Reservations.{mark_of, mark_allows, has_risen};

use crate::handler_number::HandlerNumber;
use arrayvec::ArrayVec;
use std::marker::Model;

/// A handler that a waiting entry had newly reserved.
#[derive(Clone, Copy, PartialEq, Eq, Default)]
pub struct Marked {
    /// Its number.
    pub handler: HandlerNumber,
    /// How many sessions of it had ended when the entry began to wait.
    pub sessions: u64,
}

impl Marked {
    /// Whether more sessions of the handler have ended by now, by the counts of all handlers in order.
    fn has_risen(self, sessions: &[u64]) -> bool
        ensures { result ≡ has_risen (slice_index sessions.now) self }
    {
        sessions
            .get(self.handler as usize)
            .is_some_and(|now| *now > self.sessions)
    }
}

/// What keeps an entry from being tried again at once, after a wait condition of it was false. An entry that hasn't
/// waited has an empty mark.
#[derive(Drop)]
pub struct Mark {
    counts: ArrayVec<Marked, 16>,
}

impl Model for Mark {
    ghost use Rattle.std.specs.Prelude.{List};
    ghost use Rattle.sc_lockpass.specs.declared.wait_conditions.mark.Marked.{Marked};

    ghost Value = { List Marked };

    ghost view = { λ m. m.counts.items };
}

impl Mark {
    /// The mark of an entry that hasn't waited.
    pub fn new() -> Self
        ensures { result ≡ [] }
    {
        Mark {
            counts: ArrayVec::new(),
        }
    }

    /// The mark of an entry that had newly reserved these handlers, 16 at most, by the counts of the sessions of all
    /// handlers, in order.
    pub fn of(reserved: &[HandlerNumber], sessions: &[u64]) -> Self
        requires few { length reserved.now ≤ 16 }
        requires listed { All (λ k. k < length sessions.now) reserved.now }
        ensures { result ≡ mark_of (slice_index sessions.now) reserved.now }
    {
        let mut counts = ArrayVec::new();
        for handler in reserved {
            counts.push(Marked {
                handler: *handler,
                sessions: sessions[*handler as usize],
            });
        }
        Mark { counts }
    }

    /// The mark of an entry that had newly reserved these handlers, 16 at most, before a session of any of them had ended.
    pub fn uncounted(reserved: &[HandlerNumber]) -> Self
        requires { length reserved.now ≤ 16 }
        ensures { result ≡ mark_of (λ k. 0) reserved.now }
    {
        let mut counts = ArrayVec::new();
        for handler in reserved {
            counts.push(Marked {
                handler: *handler,
                sessions: 0,
            });
        }
        Mark { counts }
    }

    /// Whether the entry may be tried: it hasn't waited, or a session of one of the marked handlers has ended since.
    pub fn allows(&self, sessions: &[u64]) -> bool
        ensures { result ≡ mark_allows (slice_index sessions.now) self.now }
    {
        self.counts.is_empty() || has_any_risen(self.counts.as_slice(), sessions)
    }

    /// Whether both mark the same handlers with the same counts, in the same order.
    pub fn is_same(&self, other: &Mark) -> bool
        ensures { IsTrue result ↔ self.now ≡ other.now }
    {
        self.counts.as_slice() == other.counts.as_slice()
    }
}

fn has_any_risen(counts: &[Marked], sessions: &[u64]) -> bool
    ensures { result ≡ list_any (has_risen (slice_index sessions.now)) counts.now }
{
    counts.iter().any(|marked| marked.has_risen(sessions))
}
