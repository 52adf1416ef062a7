//! What is said of handlers that have failed, wait or are busy, beside the report.

use crate::limit::{Limit, push_limit};
use crate::moments::push_moments;
use crate::replay::{Idle, Replay};
use crate::telling::push_waits;
use sc_audit::RecordLine;
use sc_code::Program;
use sc_explain_text::Lines;
use sc_lockpass::Version;
use sc_model::Status;
use sc_source::source::Source;
use std::alloc::{AllocError, Global};

/// A run of the program of a source text, with a record of this version and these lines.
#[derive(Clone, Copy)]
pub struct Played<'r> {
    pub source: &'r Source,
    pub program: &'r Program,
    pub version: Version,
    pub lines: &'r [RecordLine],
    pub limit: Limit,
    /// Whether a request may have been refused for which no handler waited.
    pub may_refuse: bool,
}

/// What the failure of each handler that has failed in a run is, in words, and where and for whom it ran, which requests were
/// lost, and why those wait or are busy that do, as far as that is found where the turns of its record are played once more;
/// nothing where each is free and none refused a request.
///
/// # Errors
///
/// That memory ran out.
pub fn run_note(
    alloc: Global,
    played: Played<'_>,
    statuses: &[Status],
) -> Result<Vec<u8>, AllocError> {
    let mut is_needed = played.may_refuse;
    for status in statuses {
        is_needed = is_needed || !matches!(*status, Status::Free)
    }
    if is_needed {
        order_note(alloc, played)
    } else {
        Ok(Vec::new(alloc))
    }
}

/// The note on a run in which a handler isn't free, or may have refused a request.
///
/// # Errors
///
/// Memory ran out.
pub fn order_note(alloc: Global, played: Played<'_>) -> Result<Vec<u8>, AllocError> {
    let mut lines = Lines::new(alloc);
    match Replay::open(alloc, played.source, played.program, played.version) {
        Ok(mut replay) => push_note(&mut lines, played, &mut replay),
        Err(_) => lines.lack(),
    }
    lines.finish()
}

/// Adds that note, with the run played once more from its opening on.
fn push_note(lines: &mut Lines, played: Played<'_>, replay: &mut Replay<'_>) {
    if let Err(_) = replay.advance(played.lines, usize::MAX) {
        lines.lack()
    }
    push_idle(lines, replay.idle);
    let ended = replay.scene();
    push_moments(&ended, lines, played);
    push_limit(lines, ended.core, played.limit, played.lines);
    push_waits(&ended, lines)
}

/// Adds how many turns of the record changed nothing, if any did. Its line 1 is its title.
fn push_idle(lines: &mut Lines, idle: Idle) {
    let template = match idle.turns {
        0 => return,
        1 => "~ turn of the record changes nothing, on its line ",
        _ => "~ turns of the record change nothing, the first on its line ",
    };
    lines.fill_number(template, idle.turns);
    let line = (idle.line as u64).saturating_add(2);
    lines.fill_number("~: it may be a record of another text\n", line)
}
