//! What is answered to requests about a document.

use crate::actions::push_actions;
use crate::colours::push_colours;
use crate::completion::push_completion;
use crate::failure::Failure;
use crate::hints::push_hints;
use crate::hover::push_hover;
use crate::layout::push_layout;
use crate::name_requests::{NameRequest, push_name_answer};
use crate::opening::OpenText;
use crate::outline::{Outline, push_outline};
use crate::parameters::{are_fixes_wanted, document_in, member, position_in, range_in};
use crate::signature::push_signature;
use crate::systems::{CheckedSystem, Part, Place};
use sc_documents::{Range, offset_of};
use sc_explain_text::Lines;
use serde_json::Value;
use std::alloc::Global;

/// What can be asked of a document.
#[derive(Clone, Copy)]
pub enum Request {
    Actions,
    Colours,
    Completion,
    Folds,
    Hints,
    Hover,
    Layout,
    /// About the name at a position.
    Name(NameRequest),
    Signature,
    Symbols,
}

/// The requests, each after its name.
const REQUESTS: [(&str, Request); 13] = [
    ("textDocument/codeAction", Request::Actions),
    ("textDocument/completion", Request::Completion),
    (
        "textDocument/definition",
        Request::Name(NameRequest::Definition),
    ),
    ("textDocument/documentSymbol", Request::Symbols),
    ("textDocument/foldingRange", Request::Folds),
    ("textDocument/formatting", Request::Layout),
    ("textDocument/hover", Request::Hover),
    ("textDocument/inlayHint", Request::Hints),
    (
        "textDocument/prepareRename",
        Request::Name(NameRequest::Renamable),
    ),
    (
        "textDocument/references",
        Request::Name(NameRequest::References),
    ),
    ("textDocument/rename", Request::Name(NameRequest::Renaming)),
    ("textDocument/semanticTokens/full", Request::Colours),
    ("textDocument/signatureHelp", Request::Signature),
];

impl Request {
    /// The request of this name, if there is one.
    pub fn named(method: &str) -> Option<Request> {
        request_among(&REQUESTS, method)
    }
}

/// The first of these requests that has this name.
fn request_among(requests: &[(&str, Request)], method: &str) -> Option<Request> {
    for (name, request) in requests {
        if *name == method {
            return Some(*request);
        }
    }
    None
}

/// Adds what is answered to a request: null if the document isn't open.
pub fn answer_request(
    alloc: Global,
    lines: &mut Lines,
    systems: &[CheckedSystem],
    texts: &[OpenText],
    request: Request,
    params: Option<&Value>,
) -> Result<(), Failure> {
    let Some(uri) = document_in(params) else {
        return Err(Failure::InvalidParams);
    };
    for system in systems {
        if let Some(numbered) = system.joined.part_of(uri) {
            return answer_part(alloc, lines, system, texts, numbered, request, params);
        }
    }
    lines.push("null");
    Ok(())
}

/// Adds what is answered to a request about the document of this number of a system.
fn answer_part(
    alloc: Global,
    lines: &mut Lines,
    system: &CheckedSystem,
    texts: &[OpenText],
    (index, part): (usize, &Part),
    request: Request,
    params: Option<&Value>,
) -> Result<(), Failure> {
    let document = &part.document;
    match request {
        Request::Layout => push_layout(alloc, lines, document),
        Request::Symbols => push_outline(alloc, lines, document, Outline::Symbols),
        Request::Folds => push_outline(alloc, lines, document, Outline::Folds),
        Request::Name(request) => {
            let place = place_at(index, part, params)?;
            return push_name_answer(alloc, lines, &system.joined, place, request, params);
        }
        Request::Actions => {
            let place = place_in(index, part, range_in(member(params, "range")))?;
            if are_fixes_wanted(params) {
                push_actions(alloc, lines, system, place)
            } else {
                lines.push("[]")
            }
        }
        Request::Completion => {
            let place = place_at(index, part, params)?;
            return push_completion(alloc, lines, system, texts, place);
        }
        Request::Colours => return push_colours(alloc, lines, &system.joined, part),
        Request::Hints => {
            let place = place_in(index, part, range_in(member(params, "range")))?;
            return push_hints(alloc, lines, &system.joined, place);
        }
        Request::Hover => {
            let place = place_at(index, part, params)?;
            return push_hover(alloc, lines, system, place);
        }
        Request::Signature => {
            let place = place_at(index, part, params)?;
            return push_signature(alloc, lines, system, texts, place);
        }
    }
    Ok(())
}

/// The place of a range of the document of this number.
fn place_in(index: usize, part: &Part, range: Option<Range>) -> Result<Place, Failure> {
    let Some(Range { start, end }) = range else {
        return Err(Failure::InvalidParams);
    };
    let text = part.document.text();
    Ok(Place {
        part: index,
        start: offset_of(text, start),
        end: offset_of(text, end),
    })
}

/// The place of the position that a request is about, in the document of this number.
fn place_at(index: usize, part: &Part, params: Option<&Value>) -> Result<Place, Failure> {
    let range = match position_in(member(params, "position")) {
        Some(start) => Some(Range { start, end: start }),
        None => None,
    };
    place_in(index, part, range)
}
