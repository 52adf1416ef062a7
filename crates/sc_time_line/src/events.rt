//! The turns of a run in the Trace Event format, which Perfetto and the viewer of Chrome show.

use crate::history::{History, Moment};
use crate::quoting::push_quoted;
use crate::stats::written;
use crate::turn::{Began, Made, Turn};
use sc_explain_text::Lines;
use sc_source::source::Source;
use sc_text::Span;
use std::alloc::{AllocError, Global};

/// How a file of trace events begins.
pub const TRACE_EVENTS_HEADING: &str = r#"{"otherData":{"format":"scoop trace events 1""#;

/// The turns of a run as an object of the Trace Event format: each handler is a thread, each turn lasts a microsecond at its
/// number, and a flow leads from what sends a request or ends it to what takes it or its answer.
///
/// # Errors
/// Memory ran out.
pub fn trace_events(
    alloc: Global,
    source: &Source,
    history: &History,
) -> Result<Vec<u8>, AllocError> {
    let mut lines = Lines::new(alloc);
    lines.push(TRACE_EVENTS_HEADING);
    lines.fill_number(r#","turns":~,"#, history.turns as u64);
    lines.fill_number("\"turns_kept\":~},\n", history.moments.len() as u64);
    lines.push("\"traceEvents\":[\n");
    lines.push(r#"{"name":"process_name","ph":"M","pid":1,"tid":0,"args":{"name":"scoop"}}"#);
    push_threads(&mut lines, source, history.classes.as_slice());
    let mut number = 1_u64;
    for moment in history.moments.iter() {
        push_turn(&mut lines, source, number, moment);
        if let Some(after) = moment.after {
            push_flow(&mut lines, history, moment.turn, (after, number))
        }
        number = number.saturating_add(1);
    }
    lines.push("\n]}\n");
    if history.is_lacking {
        lines.lack()
    }
    lines.finish()
}

/// Adds the names of the handlers.
fn push_threads(lines: &mut Lines, source: &Source, classes: &[Option<Span>]) {
    let mut handler = 0_u64;
    for class in classes {
        lines.fill_number(
            ",\n{\"name\":\"thread_name\",\"ph\":\"M\",\"pid\":1,\"tid\":~",
            handler,
        );
        match class {
            Some(class) => lines.fill_name(r#","args":{"name":"~ "#, written(source, *class)),
            None => lines.push(r#","args":{"name":"handler "#),
        }
        lines.fill_number(r#"~"}}"#, handler);
        handler = handler.saturating_add(1);
    }
}

/// Adds a turn.
fn push_turn(lines: &mut Lines, source: &Source, number: u64, moment: &Moment) {
    lines.push(",\n{\"name\":\"");
    push_title(lines, source, moment.turn);
    lines.fill_number(r#"","cat":"turn","ph":"X","ts":~,"dur":1,"pid":1,"#, number);
    lines.fill_number(r#""tid":~,"args":{"did":"#, moment.turn.handler as u64);
    push_quoted(
        lines,
        str::from_utf8(moment.told.as_slice()).unwrap_or(".."),
    );
    lines.push("}}")
}

/// Adds what leads to a turn: from another turn to it, both by number.
fn push_flow(lines: &mut Lines, history: &History, turn: Turn, (from, to): (usize, u64)) {
    let Some(moment) = history.moments.get(from.saturating_sub(1)) else {
        return;
    };
    let name = match turn.began {
        Began::Takes(_) => "request",
        _ => "answer",
    };
    lines.fill_name(",\n{\"name\":\"~\",\"cat\":\"flow\",\"ph\":\"s\"", name);
    lines.fill_number(r#","id":~"#, to);
    lines.fill_number(r#","ts":~,"pid":1"#, from as u64);
    lines.fill_number(r#","tid":~}"#, moment.turn.handler as u64);
    lines.fill_name(
        ",\n{\"name\":\"~\",\"cat\":\"flow\",\"ph\":\"f\",\"bp\":\"e\"",
        name,
    );
    lines.fill_number(r#","id":~"#, to);
    lines.fill_number(r#","ts":~,"pid":1"#, to);
    lines.fill_number(r#","tid":~}"#, turn.handler as u64)
}

/// Adds what a turn did, in a few words.
pub fn push_title(lines: &mut Lines, source: &Source, turn: Turn) {
    match turn.feature {
        Some(feature) => lines.fill_name(title_of(turn), written(source, feature)),
        None => lines.fill_name(title_of(turn), "a creation"),
    }
}

/// What a turn did: `~` is the feature that it has sent or taken.
fn title_of(turn: Turn) -> &'static str {
    match (turn.made, turn.began) {
        (Made::Fails, _) => "fails",
        (Made::Refuses, _) => "refuses its request",
        (Made::Waits(_), _) => "waits for its precondition",
        (Made::Creates, _) => "makes a handler",
        (Made::Reserves, _) => "is to reserve",
        (Made::Ends, _) => "ends its request",
        (Made::Sends, _) if turn.is_waiting => "asks for ~",
        (Made::Sends, _) => "posts ~",
        (Made::Other, _) if turn.has_printed => "prints",
        (Made::Other, Began::Takes(_)) => "takes ~",
        (Made::Other, Began::Answered) => "takes an answer",
        (Made::Other, Began::Reserves) => "reserves",
        (Made::Other, Began::GoesOn) => "goes on",
    }
}
