//! What people see on the way to an answer.

use sc_search::{Pass, Stage, Watch};
use std::io::Write;
use std::time::{Clock, Instant};

/// How much the number of states has to grow before it is shown again.
const STEP: u32 = 256;

/// Shows something to people before the answer.
pub trait Tell {
    /// Shows these lines, which stay.
    fn tell(&mut self, lines: &[u8]);

    /// Whether there is a terminal, on which it is shown how far something is.
    fn is_shown(&self) -> bool;

    /// Shows there how many turns of a run are made, and how many handlers there are.
    fn show_run(&mut self, turns: u64, handlers: usize);

    /// For how many milliseconds the call goes on, if there is a clock.
    fn millis(&self) -> Option<u64>;
}

/// Shows on a line of a terminal, which is overwritten each time, how far a search or a run is; elsewhere it shows
/// nothing of that. Lines that stay are shown anywhere.
#[derive(Drop)]
pub struct Progress<'e, C, E> {
    clock: &'e C,
    err: &'e mut E,
    is_shown: bool,
    /// When the call began, if there is a clock.
    began: Option<Instant>,
    /// How many states were said last, if something was said.
    said: Option<u32>,
    /// The pass of a search that was seen last, by number, and when it began, in milliseconds.
    pass: u32,
    pass_began: u64,
    /// When a search was seen last, in milliseconds.
    seen: u64,
}

impl<'e, C: Clock, E: Write> Progress<'e, C, E> {
    pub fn new(clock: &'e C, err: &'e mut E, is_shown: bool) -> Self {
        let began = match Instant::now(clock) {
            Ok(began) => Some(began),
            Err(_) => None,
        };
        Progress {
            clock,
            err,
            is_shown,
            began,
            said: None,
            pass: 1,
            pass_began: 0,
            seen: 0,
        }
    }

    /// How many of these states the pass has kept in each second, if that is known.
    fn rate(&mut self, pass: u32, states: u32) -> Option<u64> {
        let Some(millis) = self.millis() else {
            return None;
        };
        if self.pass != pass {
            self.pass = pass;
            self.pass_began = self.seen;
        }
        self.seen = millis;
        let took = millis.saturating_sub(self.pass_began);
        if took == 0 {
            return None;
        }
        Some(states as u64 * 1_000 / took)
    }

    /// Clears the line, if there is one.
    pub fn clear(&mut self) {
        if self.said.is_some() {
            self.show(b"\r\x1b[K");
        }
    }

    /// Shows these bytes, and what was held back.
    fn show(&mut self, bytes: &[u8]) {
        // What is shown goes on in any case: nobody is left to be told that `err` failed.
        let _ = self.err.write_all(bytes);
        let _ = self.err.flush();
    }

    /// Adds a number between these words.
    fn show_number(&mut self, before: &str, number: u64, after: &str) {
        let _ = write!(self.err, "{before}{number}{after}");
    }
}

impl<'e, C: Clock, E: Write> Tell for Progress<'e, C, E> {
    fn tell(&mut self, lines: &[u8]) {
        self.clear();
        self.said = None;
        self.show(lines)
    }

    fn is_shown(&self) -> bool {
        self.is_shown
    }

    fn show_run(&mut self, turns: u64, handlers: usize) {
        if self.is_shown {
            self.said = Some(0);
            let what = if handlers == 1 {
                " handler"
            } else {
                " handlers"
            };
            self.show_number("\r", turns, " turns, ");
            self.show_number("", handlers as u64, what);
            self.show(b"\x1b[K")
        }
    }

    fn millis(&self) -> Option<u64> {
        let Some(began) = self.began else {
            return None;
        };
        match began.elapsed(self.clock) {
            Ok(took) => Some(took.as_millis().min(u64::MAX as u128) as u64),
            Err(_) => None,
        }
    }
}

impl<'e, C: Clock, E: Write> Watch for Progress<'e, C, E> {
    fn is_due(&self, states: u32) -> bool {
        self.is_shown && states.abs_diff(self.said.unwrap_or(0)) >= STEP
    }

    fn sees(&mut self, stage: Stage) {
        let Stage {
            pass,
            states,
            bytes,
            depth,
        } = stage;
        self.said = Some(states);
        let number = number_of(pass);
        self.show_number("\rpass ", number as u64, ": ");
        self.show_number("", states as u64, " states, ");
        self.show_number("", depth as u64, " turns deep");
        if let Some(rate) = self.rate(number, states) {
            self.show_number(", ", rate, " a second")
        }
        self.show_number(", ", bytes / 1_000_000, " MB");
        self.show(b"\x1b[K")
    }
}

/// The number of a pass.
fn number_of(pass: Pass) -> u32 {
    match pass {
        Pass::Choices => 1,
        Pass::AllTurns => 2,
    }
}
