//! What people see of a run on its way: its turns, if they are traced, and how far it is.

use crate::progress::Tell;
use crate::tracing::Tracing;
use crate::verdict::turns_of;
use sc_plant::{Left, Watch};
use std::time::{Clock, Instant};

/// After how many looks the clock is read.
const LOOKS_BETWEEN: u32 = 64;

/// How many milliseconds a run takes before it is shown how far it is.
const PATIENCE: u128 = 1_000;

/// How many milliseconds later it is shown again.
const STEP: u128 = 200;

/// When it is shown how far a run is.
#[derive(Clone, Copy)]
struct Pace {
    began: Instant,
    looks: u32,
    /// After how many milliseconds it is shown next.
    due: u128,
}

/// Looks at a run for people.
#[derive(Drop)]
pub struct RunWatch<'w, 'r, C, T> {
    clock: &'w C,
    /// Reports the turns.
    pub tracing: Tracing<'w, 'r, T>,
    /// None if it isn't shown how far the run is.
    pace: Option<Pace>,
}

impl<'w, 'r, C: Clock, T: Tell> RunWatch<'w, 'r, C, T> {
    /// Before the first turn. How far the run is isn't shown if turns are reported, if it isn't asked for, or if
    /// there is no clock.
    pub fn new(clock: &'w C, tracing: Tracing<'w, 'r, T>, shows: bool) -> Self {
        let is_shown = shows && tracing.tracer.is_none() && tracing.teller.is_shown();
        let pace = if is_shown { pace_of(clock) } else { None };
        RunWatch {
            clock,
            tracing,
            pace,
        }
    }

    fn is_due(&mut self) -> bool {
        let clock = self.clock;
        let Some(pace) = &mut self.pace else {
            return false;
        };
        pace.looks = pace.looks.wrapping_add(1);
        if pace.looks % LOOKS_BETWEEN != 0 {
            return false;
        }
        let Ok(took) = pace.began.elapsed(clock) else {
            return false;
        };
        let is_due = took.as_millis() >= pace.due;
        if is_due {
            pace.due = took.as_millis().saturating_add(STEP);
        }
        is_due
    }
}

fn pace_of<C: Clock>(clock: &C) -> Option<Pace> {
    match Instant::now(clock) {
        Ok(began) => Some(Pace {
            began,
            looks: 0,
            due: PATIENCE,
        }),
        Err(_) => None,
    }
}

impl<'w, 'r, C: Clock, T: Tell> Watch for RunWatch<'w, 'r, C, T> {
    fn sees(&mut self, left: &Left<'_>) {
        let lines = left.lines.as_slice();
        self.tracing.follow(lines);
        if self.is_due() {
            let turns = turns_of(lines);
            let handlers = left.core.handler_count();
            self.tracing.teller.show_run(turns, handlers)
        }
    }

    fn interrupts(&self) -> bool {
        self.pace.is_some()
    }
}
