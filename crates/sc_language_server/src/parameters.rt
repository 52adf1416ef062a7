//! What messages have in them.

use sc_documents::{Position, Range};
use serde_json::Value;

/// The member of this name, if a value has one.
pub fn member<'v>(value: Option<&'v Value>, name: &str) -> Option<&'v Value> {
    match value {
        Some(value) => value.get(name),
        None => None,
    }
}

/// The text of a member, if it is one.
pub fn text_in<'v>(value: Option<&'v Value>, name: &str) -> Option<&'v str> {
    match member(value, name) {
        Some(text) => text.as_str(),
        None => None,
    }
}

/// The number of a member, if it is one that isn't negative.
fn number_in(value: Option<&Value>, name: &str) -> Option<usize> {
    if let Some(number) = member(value, name)
        && let Some(number) = number.as_u64()
    {
        return Some(number as usize);
    }
    None
}

/// The position that a value is, if it is one.
pub fn position_in(value: Option<&Value>) -> Option<Position> {
    if let Some(line) = number_in(value, "line")
        && let Some(character) = number_in(value, "character")
    {
        return Some(Position { line, character });
    }
    None
}

/// The range that a value is, if it is one.
pub fn range_in(value: Option<&Value>) -> Option<Range> {
    if let Some(start) = position_in(member(value, "start"))
        && let Some(end) = position_in(member(value, "end"))
    {
        return Some(Range { start, end });
    }
    None
}

/// The elements of a member; none if it is no array.
pub fn elements_in<'v>(value: Option<&'v Value>, name: &str) -> &'v [Value] {
    match member(value, name) {
        Some(Value::Array(elements)) => elements.as_slice(),
        _ => &[],
    }
}

/// The URI of the document that a request is about.
pub fn document_in(params: Option<&Value>) -> Option<&str> {
    text_in(member(params, "textDocument"), "uri")
}

/// Whether the client of a request for references takes the declaration among them.
pub fn is_declaration_wanted(params: Option<&Value>) -> bool {
    match member(member(params, "context"), "includeDeclaration") {
        Some(wanted) => wanted.as_bool().unwrap_or(true),
        None => true,
    }
}

/// Whether the client of a request for actions takes fixes: it names no kinds, or theirs among them.
pub fn are_fixes_wanted(params: Option<&Value>) -> bool {
    let kinds = elements_in(member(params, "context"), "only");
    for kind in kinds {
        if let Some("quickfix" | "") = kind.as_str() {
            return true;
        }
    }
    kinds.is_empty()
}
