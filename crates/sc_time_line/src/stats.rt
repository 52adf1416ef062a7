//! The numbers of the handlers of a run, as lines and as JSON.

use crate::condition::Condition;
use crate::count::Count;
use crate::quoting::push_quoted;
use crate::tally::Tally;
use sc_explain_text::Lines;
use sc_source::source::{Place, Source};
use sc_text::Span;
use std::alloc::{AllocError, Global};

/// A line for each handler with its numbers, and after it one for each condition that it waited for.
///
/// # Errors
/// Memory ran out.
pub fn stats_lines(alloc: Global, source: &Source, tally: &Tally) -> Result<Vec<u8>, AllocError> {
    let mut lines = Lines::new(alloc);
    for handler in 0..tally.handlers {
        if let Some(count) = tally.counts.get(handler) {
            push_count(&mut lines, source, handler, *count);
            push_conditions(&mut lines, source, tally.conditions.as_slice(), handler)
        }
    }
    finished(lines, tally)
}

/// A member of an object of JSON, with a comma before it: an array with an object for each handler.
///
/// # Errors
/// Memory ran out.
pub fn stats_member(alloc: Global, source: &Source, tally: &Tally) -> Result<Vec<u8>, AllocError> {
    let mut lines = Lines::new(alloc);
    let mut before = r#","stats":["#;
    for handler in 0..tally.handlers {
        if let Some(count) = tally.counts.get(handler) {
            lines.push(before);
            push_asked(&mut lines, source, *count);
            list_conditions(&mut lines, source, tally.conditions.as_slice(), handler);
            push_object(&mut lines, handler, *count);
            before = ","
        }
    }
    lines.push("]");
    finished(lines, tally)
}

fn finished(lines: Lines, tally: &Tally) -> Result<Vec<u8>, AllocError> {
    if tally.is_lacking {
        return Err(AllocError);
    }
    lines.finish()
}

/// Adds the numbers of a handler, as a line.
fn push_count(lines: &mut Lines, source: &Source, handler: usize, count: Count) {
    lines.fill_number("handler ~", handler as u64);
    if let Some(class) = count.class {
        lines.fill_name(" (~)", written(source, class))
    }
    lines.fill_number(": turns ~, requests", count.turns);
    lines.fill_number(" taken ~", count.taken);
    lines.fill_number(", posted ~", count.posted);
    lines.fill_number(", asked ~", count.asked);
    lines.fill_number(", refused ~", count.refused);
    lines.fill_number(", longest queue ~", count.longest as u64);
    lines.fill_number(", objects made ~\n", count.objects as u64)
}

/// Adds the conditions that a handler waited for, each as a line.
fn push_conditions(lines: &mut Lines, source: &Source, conditions: &[Condition], handler: usize) {
    for condition in conditions {
        if condition.handler as usize == handler {
            push_condition(lines, source, *condition)
        }
    }
}

fn push_condition(lines: &mut Lines, source: &Source, condition: Condition) {
    lines.fill_name(
        "  waited: the precondition of `~`",
        written(source, condition.routine),
    );
    if let Some(Place { file, line, column }) = place_of(source, condition.routine) {
        lines.fill_name(" at ~", file);
        lines.fill_number(":~", line as u64);
        lines.fill_number(":~", column as u64)
    }
    let template = match condition.times {
        1 => " was false ~ time\n",
        _ => " was false ~ times\n",
    };
    lines.fill_number(template, condition.times)
}

/// Adds the beginning of a handler's object, up to its conditions.
fn push_asked(lines: &mut Lines, source: &Source, count: Count) {
    lines.fill_number(r#"{"asked":~,"class":"#, count.asked);
    match count.class {
        Some(class) => lines.fill_name(r#""~""#, written(source, class)),
        None => lines.push("null"),
    }
    lines.push(r#","conditions":["#)
}

/// Adds the conditions that a handler waited for, as objects.
fn list_conditions(lines: &mut Lines, source: &Source, conditions: &[Condition], handler: usize) {
    let mut before = "";
    for condition in conditions {
        if condition.handler as usize == handler {
            lines.push(before);
            list_condition(lines, source, *condition);
            before = ","
        }
    }
}

fn list_condition(lines: &mut Lines, source: &Source, condition: Condition) {
    lines.fill_number(r#"{"false":~"#, condition.times);
    if let Some(Place { file, line, column }) = place_of(source, condition.routine) {
        lines.fill_number(r#","column":~,"file":"#, column as u64);
        push_quoted(lines, file);
        lines.fill_number(r#","line":~"#, line as u64)
    }
    lines.fill_name(r#","routine":"~"}"#, written(source, condition.routine))
}

/// Adds the rest of a handler's object.
fn push_object(lines: &mut Lines, handler: usize, count: Count) {
    lines.fill_number(r#"],"handler":~"#, handler as u64);
    lines.fill_number(r#","longest_queue":~"#, count.longest as u64);
    lines.fill_number(r#","objects":~"#, count.objects as u64);
    lines.fill_number(r#","posted":~"#, count.posted);
    lines.fill_number(r#","refused":~"#, count.refused);
    lines.fill_number(r#","taken":~"#, count.taken);
    lines.fill_number(r#","turns":~}"#, count.turns)
}

/// A part of the text, with its own letter case.
pub fn written(source: &Source, part: Span) -> &str {
    source
        .text()
        .get(part.start as usize..part.end as usize)
        .unwrap_or("..")
}

/// The place at which a part of the text begins.
pub fn place_of(source: &Source, part: Span) -> Option<Place<'_>> {
    source.place_of(part.start as usize)
}
