//! The note on a run that didn't end.

use crate::waits::{count_of, is_any_busy};
use sc_audit::RecordLine;
use sc_explain_text::Lines;
use sc_model::Status;
use sc_request::Core;

/// The most turns that a run may make.
const MOST_TURNS: u32 = 10_000_000;

/// Where a run ends in any case.
#[derive(Clone, Copy)]
pub enum Limit {
    /// After this number of turns.
    Turns(u32),
    /// Too much was printed, which another line says.
    Output,
    /// With the record that it plays.
    Record,
    /// With an order after which some handler waits for good.
    Stuck,
}

/// Adds how many turns were made, where a handler still has something to do, and what helps.
pub fn push_limit(lines: &mut Lines, core: &Core, limit: Limit, record: &[RecordLine]) {
    if !is_any_busy(core) {
        return;
    }
    let made = turns_of(record);
    let template = match (limit, made) {
        (Limit::Stuck, _) => return push_going_on(lines, core),
        (Limit::Output, _) => return,
        (Limit::Record, 1) => "stopped limit: the record ends behind ~ turn\n",
        (Limit::Record, _) => "stopped limit: the record ends behind ~ turns\n",
        (Limit::Turns(_), 1) => "stopped limit: ~ turn",
        (Limit::Turns(_), _) => "stopped limit: ~ turns",
    };
    lines.fill_number(template, made);
    if let Limit::Turns(limit) = limit {
        lines.fill_number(used_up(limit, made), MOST_TURNS as u64)
    }
}

/// How many turns these lines of a record make.
fn turns_of(record: &[RecordLine]) -> u64 {
    let mut made = 0_u64;
    for line in record {
        made = made.saturating_add(line.turns as u64)
    }
    made
}

/// Adds which handlers go on beside one that waits for good.
fn push_going_on(lines: &mut Lines, core: &Core) {
    let mut template = "handler ~";
    for handler in 0..count_of(core) {
        if let Some(Status::Busy) = core.status(handler) {
            lines.fill_number(template, handler as u64);
            template = ", handler ~";
        }
    }
    lines.push(" can go on, but no order of turns gives each handler that waits another turn\n")
}

/// That a run ended after its limit of turns, and what helps: `~` is the highest limit.
fn used_up(limit: u32, made: u64) -> &'static str {
    if made < limit as u64 {
        " were made, and the record of the run has as many lines as it may have\n"
    } else if limit >= MOST_TURNS {
        " were made, which is the most that `--turns` takes\n"
    } else {
        " were made; `--turns` takes up to ~\n"
    }
}
