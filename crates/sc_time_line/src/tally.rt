//! The turns of a run, counted.

use crate::condition::{Condition, condition_at};
use crate::count::{Count, NOTHING};
use crate::turn::{Made, Sent, Turn};
use sc_lockpass::HandlerNumber;
use sc_text::Span;
use std::alloc::{AllocError, Global};

/// How many handlers there may be.
const MOST_HANDLERS: usize = 512;

/// What each handler of a run did, in numbers.
#[derive(Drop)]
pub struct Tally {
    pub counts: Vec<Count>,
    /// What handlers waited for, in the order in which it was first false.
    pub conditions: Vec<Condition>,
    /// How many handlers there are.
    pub handlers: usize,
    /// Whether memory was refused to a condition.
    pub is_lacking: bool,
}

impl Tally {
    /// In front of the first turn.
    ///
    /// # Errors
    /// Memory ran out.
    pub fn new(alloc: Global) -> Result<Tally, AllocError> {
        let mut counts = match vec![in alloc; NOTHING; MOST_HANDLERS] {
            Ok(counts) => counts,
            Err(error) => return Err(error),
        };
        // the creation of the root object
        if let Some(root) = counts.get_mut(0) {
            root.longest = 1
        }
        Ok(Tally {
            counts,
            conditions: Vec::new(alloc),
            handlers: 0,
            is_lacking: false,
        })
    }

    /// Counts a turn.
    pub fn add(&mut self, turn: Turn) {
        if let Some(count) = self.counts.get_mut(turn.handler as usize) {
            count.add(turn)
        }
        if let Some(sent) = turn.sent {
            self.add_sent(sent)
        }
        if let Made::Waits(Some(routine)) = turn.made {
            self.add_condition(turn.handler, routine)
        }
    }

    /// Notes how long the queue is of a handler that something was sent to.
    fn add_sent(&mut self, sent: Sent) {
        if let Some(count) = self.counts.get_mut(sent.to as usize)
            && count.longest < sent.queue
        {
            count.longest = sent.queue;
        }
    }

    /// Counts that a handler waits for the precondition of this routine.
    fn add_condition(&mut self, handler: HandlerNumber, routine: Span) {
        if let Some(condition) = condition_at(self.conditions.as_mut_slice(), handler, routine) {
            condition.times = condition.times.saturating_add(1);
            return;
        }
        let condition = Condition {
            handler,
            routine,
            times: 1,
        };
        if self.conditions.push(condition).is_err() {
            self.is_lacking = true
        }
    }

    /// Notes the class of the next handler in order of number, and how many objects it has made.
    pub fn end(&mut self, class: Option<Span>, objects: usize) {
        if let Some(count) = self.counts.get_mut(self.handlers) {
            count.class = class;
            count.objects = objects;
            self.handlers = self.handlers.saturating_add(1);
        }
    }
}
