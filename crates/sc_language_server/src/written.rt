//! What messages have in them, as JSON.

use crate::systems::{Joined, Place};
use sc_documents::{Document, Position};
use sc_explain_text::Lines;
use serde_json::Value;
use std::alloc::{AllocError, Global};

/// Adds a text in quotes, with the escapes that it needs.
pub fn push_quoted(alloc: Global, lines: &mut Lines, text: &str) {
    match quoted(alloc, text) {
        Ok(quoted) => lines.push(quoted.as_str()),
        Err(_) => lines.lack(),
    }
}

fn quoted(alloc: Global, text: &str) -> Result<String, AllocError> {
    Value::from(String::from_str(alloc, text)?).to_string(alloc)
}

/// Adds the range of a part of a document of a system.
pub fn push_place(lines: &mut Lines, joined: &Joined, place: Place) {
    match joined.parts.get(place.part) {
        Some(part) => push_range(lines, &part.document, place.start, place.end),
        None => lines.push("null"),
    }
}

/// Adds the position of the end of a part of a document of a system.
pub fn push_end(lines: &mut Lines, joined: &Joined, place: Place) {
    match joined.parts.get(place.part) {
        Some(part) => push_position(lines, part.document.position_of(place.end)),
        None => lines.push("null"),
    }
}

/// Adds the range between two offsets of a document.
pub fn push_range(lines: &mut Lines, document: &Document, start: usize, end: usize) {
    lines.push(r#"{"end":"#);
    push_position(lines, document.position_of(end));
    lines.push(r#","start":"#);
    push_position(lines, document.position_of(start));
    lines.push("}")
}

/// Adds a position.
fn push_position(lines: &mut Lines, position: Position) {
    lines.fill_number(r#"{"character":~"#, position.character as u64);
    lines.fill_number(r#","line":~}"#, position.line as u64)
}

/// Adds in quotes the first line of what is said.
pub fn push_quoted_lines(alloc: Global, lines: &mut Lines, said: Lines) {
    let Ok(said) = said.finish() else {
        return lines.lack();
    };
    let said = str::from_utf8(said.as_slice()).unwrap_or("");
    let (line, _) = said.split_once('\n').unwrap_or((said, ""));
    push_quoted(alloc, lines, line)
}

/// Adds the item of a name: its number in the protocol's list of kinds, and the first line of what is said of it.
pub fn push_item(alloc: Global, lines: &mut Lines, said: Lines, kind: u64, name: &str) {
    lines.push(r#"{"detail":"#);
    push_quoted_lines(alloc, lines, said);
    lines.fill_number(r#","kind":~"#, kind);
    lines.fill_name(r#","label":"~"}"#, name)
}
