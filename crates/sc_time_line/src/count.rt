//! The numbers of one handler.

use crate::turn::{Began, Made, Turn};
use sc_text::Span;

/// What a handler of a run did, in numbers.
#[derive(Clone, Copy)]
pub struct Count {
    /// The name of the class of its root object, as a part of the text, if it has one.
    pub class: Option<Span>,
    pub turns: u64,
    /// How many requests it took.
    pub taken: u64,
    /// How many requests it sent without waiting for the answer.
    pub posted: u64,
    /// How many requests it sent and waited for the answer.
    pub asked: u64,
    /// How many requests it refused.
    pub refused: u64,
    /// How many requests its queue had at most.
    pub longest: usize,
    /// How many objects it made.
    pub objects: usize,
}

/// The numbers of a handler that has done nothing.
pub const NOTHING: Count = Count {
    class: None,
    turns: 0,
    taken: 0,
    posted: 0,
    asked: 0,
    refused: 0,
    longest: 0,
    objects: 0,
};

impl Count {
    /// Counts a turn of the handler.
    pub fn add(&mut self, turn: Turn) {
        self.turns = self.turns.saturating_add(1);
        if let Began::Takes(_) = turn.began {
            self.taken = self.taken.saturating_add(1);
        }
        if let Made::Refuses = turn.made {
            self.refused = self.refused.saturating_add(1);
        }
        match turn.sent {
            Some(sent) if sent.is_waited => self.asked = self.asked.saturating_add(1),
            Some(_) => self.posted = self.posted.saturating_add(1),
            None => {}
        }
    }
}
