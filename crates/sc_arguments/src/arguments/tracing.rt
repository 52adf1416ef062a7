//! The option `--trace`: which turns of a run are reported as they are made.

use crate::arguments::UsageFault;
use clap::ArgMatches;

/// Which turns of a run are reported.
#[derive(Clone, Copy)]
pub enum Trace {
    /// Those that print, and those that concern other handlers: requests, creations, reservations, waits, refusals and failures.
    All,
    /// Those that print alone.
    Print,
}

pub const TRACED: [&str; 2] = ["all", "print"];

pub const TRACE_HELP: &str =
    "Tells each turn that concerns others as it is made, or only what is printed, on standard error";

pub fn read_trace(options: &ArgMatches<'_>) -> Option<Trace> {
    match options.get_str("trace") {
        Some("print") => Some(Trace::Print),
        Some(_) => Some(Trace::All),
        None => None,
    }
}

/// What is traced of a run by this number of workers: only one of them makes the turns in an order that can be
/// reported.
pub fn read_trace_by(options: &ArgMatches<'_>, workers: u8) -> Result<Option<Trace>, UsageFault> {
    match read_trace(options) {
        Some(_) if workers > 1 => Err(UsageFault::TracedWorkers),
        trace => Ok(trace),
    }
}
