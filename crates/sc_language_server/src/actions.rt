//! The changes that helps tell of.

use crate::systems::{CheckedSystem, Joined, Place};
use crate::written::{push_place, push_quoted};
use sc_explain_refusal::Edit;
use sc_explain_text::{Lines, word_at};
use std::alloc::{AllocError, Global};

/// Adds the changes that the helps at a place tell of.
pub fn push_actions(alloc: Global, lines: &mut Lines, system: &CheckedSystem, place: Place) {
    lines.push("[");
    let mut before = "";
    for finding in &system.findings {
        if finding.touches(place)
            && let Some(edit) = &finding.diagnosis.edit
        {
            lines.push(before);
            push_edit(alloc, lines, &system.joined, edit);
            before = ",";
        }
    }
    lines.push("]")
}

/// Adds a change of a document.
fn push_edit(alloc: Global, lines: &mut Lines, joined: &Joined, edit: &Edit) {
    let place = joined.place_of(Some(edit.span));
    lines.push(r#"{"edit":{"changes":{"#);
    push_quoted(alloc, lines, joined.uri_of(place));
    lines.push(r#":[{"newText":"#);
    push_quoted(alloc, lines, edit.text());
    lines.push(r#","range":"#);
    push_place(lines, joined, place);
    lines.push(r#"}]}},"isPreferred":true,"kind":"quickfix","title":"#);
    push_title(alloc, lines, joined, edit);
    lines.push("}")
}

/// Adds in quotes what a change does.
fn push_title(alloc: Global, lines: &mut Lines, joined: &Joined, edit: &Edit) {
    match title_of(alloc, joined, edit) {
        Ok(title) => {
            let title = str::from_utf8(title.as_slice()).unwrap_or("");
            push_quoted(alloc, lines, title)
        }
        Err(_) => lines.lack(),
    }
}

/// What a change writes, or else what it leaves out, on one line.
fn title_of(alloc: Global, joined: &Joined, edit: &Edit) -> Result<Vec<u8>, AllocError> {
    let (doing, shown) = match edit.text() {
        "" => ("leave out `", word_at(joined.text.as_str(), edit.span)),
        text => ("write `", text),
    };
    let mut title = Lines::new(alloc);
    title.push(doing);
    title.push_flat(shown);
    title.push("`");
    title.finish()
}
