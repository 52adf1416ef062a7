//! How long the tasks of a run are, which decides whether several workers play it or one.
use sc_audit::RecordLine;
use sc_lockpass::HandlerNumber;

/// A task of fewer turns is a short one: it takes less time than to exchange it.
const FEW_TURNS: u32 = 16;

/// After this number of short tasks in a row the tasks are fine-grained.
const SHORT_TASKS: u32 = 64;

/// After this number of long tasks, each of another handler than the task before, the tasks are coarse-grained.
const LONG_TASKS: u32 = 64;

/// How many short tasks came last, and how many long ones since tasks were fine-grained.
#[derive(Clone, Copy)]
pub struct Granularity {
    last: HandlerNumber,
    short: u32,
    long: u32,
}

impl Granularity {
    /// Before the first task.
    pub fn new() -> Granularity {
        Granularity {
            last: 0,
            short: 0,
            long: 0,
        }
    }

    /// Counts a task by its line of the record.
    pub fn note(&mut self, line: RecordLine) {
        if line.turns < FEW_TURNS {
            self.short = self.short.saturating_add(1);
        } else {
            self.short = 0;
            let is_others = line.handler != self.last;
            self.long = self.long.saturating_add(is_others as u32);
        }
        if self.is_fine() {
            self.long = 0;
        }
        self.last = line.handler;
    }

    /// Whether tasks are so short that several workers would wait for the lock of the core more than they would play.
    pub fn is_fine(&self) -> bool {
        self.short >= SHORT_TASKS
    }

    /// Whether so many short tasks came that one worker gains more by them than it takes to let the others end, and
    /// to start them again: that takes as long as a walk through the record.
    pub fn pays_alone(&self, lines: usize) -> bool {
        self.is_fine() && self.short as usize >= lines / 4
    }

    /// Whether several workers would play such tasks faster than one.
    pub fn is_coarse(&self) -> bool {
        self.long >= LONG_TASKS
    }
}
