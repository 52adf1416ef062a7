//! What is answered to requests about a name.

use crate::failure::Failure;
use crate::naming::{NamedText, name_at};
use crate::parameters::{is_declaration_wanted, text_in};
use crate::systems::{Joined, Place};
use crate::written::{push_place, push_quoted};
use sc_explain_text::Lines;
use sc_symbols::{Mention, RenameFault, rename, uses_of};
use sc_text::Span;
use serde_json::Value;
use std::alloc::Global;

/// What can be asked of a name.
#[derive(Clone, Copy)]
pub enum NameRequest {
    /// Where it is declared.
    Definition,
    /// Where else it is written.
    References,
    /// Whether it can be changed.
    Renamable,
    /// What changes if another one is written.
    Renaming,
}

/// Adds what is answered about the name at a place: null if none is there, or what it means isn't known.
pub fn push_name_answer(
    alloc: Global,
    lines: &mut Lines,
    joined: &Joined,
    place: Place,
    request: NameRequest,
    params: Option<&Value>,
) -> Result<(), Failure> {
    let Some((named, mention)) = name_at(alloc, joined, place)? else {
        lines.push("null");
        return Ok(());
    };
    match request {
        NameRequest::Definition => push_location(alloc, lines, joined, mention.declaration),
        NameRequest::Renamable => push_place(lines, joined, joined.place_of(Some(mention.span))),
        NameRequest::References => {
            let is_wanted = is_declaration_wanted(params);
            push_references(alloc, lines, joined, &named, mention, is_wanted)
        }
        NameRequest::Renaming => return push_renaming(
            alloc, lines, joined, &named, mention, params,
        ),
    }
    Ok(())
}

/// Adds a part of the text of a system, in its document.
pub fn push_location(alloc: Global, lines: &mut Lines, joined: &Joined, span: Span) {
    let place = joined.place_of(Some(span));
    lines.push(r#"{"range":"#);
    push_place(lines, joined, place);
    lines.push(r#","uri":"#);
    push_quoted(alloc, lines, joined.uri_of(place));
    lines.push("}")
}

/// Adds where the symbol of a name is written; where that is declared, only if this is wanted.
fn push_references(
    alloc: Global,
    lines: &mut Lines,
    joined: &Joined,
    named: &NamedText,
    mention: Mention,
    is_declaration_wanted: bool,
) {
    let Ok(uses) = uses_of(alloc, &named.mentions, mention.origin) else {
        return lines.lack();
    };
    lines.push("[");
    let mut before = "";
    for span in &uses {
        if is_declaration_wanted || *span != mention.declaration {
            lines.push(before);
            push_location(alloc, lines, joined, *span);
            before = ",";
        }
    }
    lines.push("]")
}

/// Adds the changes that give the symbol of a name the name that is asked for.
fn push_renaming(
    alloc: Global,
    lines: &mut Lines,
    joined: &Joined,
    named: &NamedText,
    mention: Mention,
    params: Option<&Value>,
) -> Result<(), Failure> {
    let Some(name) = text_in(params, "newName") else {
        return Err(Failure::InvalidParams);
    };
    let NamedText {
        text,
        root,
        mentions,
    } = named;
    match rename(alloc, text.as_str(), root, mentions, mention.origin, name) {
        Ok(uses) => {
            push_edits(alloc, lines, joined, &uses, name);
            Ok(())
        }
        Err(RenameFault::NotAName) => Err(Failure::NotAName),
        Err(RenameFault::Refused) => Err(Failure::RenamingRefused),
        Err(RenameFault::ChangesMeaning) => Err(Failure::MeaningChanged),
        Err(RenameFault::OutOfMemory) => Err(Failure::OutOfMemory),
    }
}

/// Adds the changes that write this name at each of these places, which are in the order of the text: those of each document
/// together.
fn push_edits(alloc: Global, lines: &mut Lines, joined: &Joined, uses: &[Span], name: &str) {
    let mut last = None;
    lines.push(r#"{"changes":{"#);
    for span in uses {
        let place = joined.place_of(Some(*span));
        if last == Some(place.part) {
            lines.push(",")
        } else {
            lines.push(if last.is_some() { "]," } else { "" });
            push_quoted(alloc, lines, joined.uri_of(place));
            lines.push(":[");
            last = Some(place.part);
        }
        lines.fill_name(r#"{"newText":"~","range":"#, name);
        push_place(lines, joined, place);
        lines.push("}");
    }
    lines.push(if last.is_some() { "]}}" } else { "}}" })
}
