//! What is added to a refusal on standard error: its line of the text, a sentence, and where more is said.

use crate::refusal::line_in;
use sc_class::Root;
use sc_explain_refusal::{Diagnosis, Related, diagnose, diagnose_all};
use sc_explain_text::Lines;
use sc_frontend::{Refused, Rejection};
use sc_places::Places;
use sc_source::excerpt;
use sc_source::source::{Place, Source};
use sc_text::Span;
use sc_warnings::Warning;
use std::alloc::{AllocError, Global};

/// The line of the source text in which something is refused, with carets, a sentence on the fault, the place that
/// belongs to it, and what more can be said, for a system with a root; nothing if there is none.
#[inline(never)]
pub fn explanation(
    alloc: Global,
    source: &Source,
    explained: Option<&Root>,
    rejection: &Rejection,
) -> Result<Vec<u8>, AllocError> {
    let mut lines = Lines::new(alloc);
    if let Some(root) = explained {
        let places = Places::of(alloc, source)?;
        push_rejection(alloc, &mut lines, &places, root, rejection)
    }
    lines.finish()
}

/// What is added to the lines that list the refusals of a source text: for a system with a root the explanation of each after
/// its line; then the warnings.
pub fn listing_notes(
    alloc: Global,
    places: &Places<'_>,
    explained: Option<&Root>,
    refused: &[Refused],
    warnings: &[Warning],
) -> Result<Vec<u8>, AllocError> {
    let mut lines = Lines::new(alloc);
    if let Some(root) = explained {
        push_all(alloc, &mut lines, places, root, refused)
    }
    for warning in warnings {
        push_warning(alloc, &mut lines, places, *warning, explained.is_some())
    }
    lines.finish()
}

/// Adds the explanation of each refusal after its line.
fn push_all(
    alloc: Global,
    lines: &mut Lines,
    places: &Places<'_>,
    root: &Root,
    refused: &[Refused],
) {
    match diagnose_all(alloc, places.source().text(), root, refused) {
        Ok(told) => {
            for (one, diagnosis) in refused.iter().zip(told.iter()) {
                push_listed(alloc, lines, places, *one, diagnosis)
            }
        }
        Err(_) => lines.lack(),
    }
}

/// Adds the line of a refusal, and its explanation.
fn push_listed(
    alloc: Global,
    lines: &mut Lines,
    places: &Places<'_>,
    refused: Refused,
    diagnosis: &Diagnosis,
) {
    match line_in(alloc, refused, places) {
        Ok(line) => lines.push(line.as_str()),
        Err(_) => lines.lack(),
    }
    push_explanation(alloc, lines, places, refused, diagnosis)
}

/// Adds the line of a warning, and if it is explained the line of the text.
fn push_warning(
    alloc: Global,
    lines: &mut Lines,
    places: &Places<'_>,
    warning: Warning,
    is_explained: bool,
) {
    lines.fill_name("warning: ~", warning.kind.message());
    if let Some(Place { file, line, column }) = places.place_of(warning.span.start as usize) {
        lines.fill_name(" ~", file);
        lines.fill_number(":~", line as u64);
        lines.fill_number(":~", column as u64)
    }
    lines.push("\n");
    if is_explained {
        push_excerpt(alloc, lines, places, warning.span)
    }
}

/// Adds the explanation of a rejection.
fn push_rejection(
    alloc: Global,
    lines: &mut Lines,
    places: &Places<'_>,
    root: &Root,
    rejection: &Rejection,
) {
    match Refused::by(rejection) {
        Some(refused) => match diagnose(alloc, places.source().text(), root, refused) {
            Ok(diagnosis) => push_explanation(alloc, lines, places, refused, &diagnosis),
            Err(_) => lines.lack(),
        },
        None if matches!(rejection, Rejection::CodeTooLong) => {
            lines.push("`scoop explain CodeTooLong` says more\n")
        }
        None => {}
    }
}

/// Adds the line of the text in which something is refused, what is said of that, and where more is said.
fn push_explanation(
    alloc: Global,
    lines: &mut Lines,
    places: &Places<'_>,
    refused: Refused,
    diagnosis: &Diagnosis,
) {
    if let Some(span) = refused.span {
        push_excerpt(alloc, lines, places, span)
    }
    lines.push_bytes(diagnosis.lines.as_slice());
    if let Some(related) = diagnosis.related {
        push_related(alloc, lines, places, related);
        if is_again(places, refused, related.span) {
            lines.push("help: the file is given twice\n")
        }
    }
    lines.fill_name("`scoop explain ~` says more\n", refused.code.code())
}

/// Whether what is refused is the same part of a file as another one: then the text has that file twice.
fn is_again(places: &Places<'_>, refused: Refused, other: Span) -> bool {
    let Some(span) = refused.span else {
        return false;
    };
    let place = places.place_of(span.start as usize);
    match (place, places.place_of(other.start as usize)) {
        (Some(one), Some(other)) => {
            one.file == other.file && one.line == other.line && one.column == other.column
        }
        _ => false,
    }
}

/// Adds the line of a part of the source text, with carets.
fn push_excerpt(alloc: Global, lines: &mut Lines, places: &Places<'_>, span: Span) {
    let (text, part) = from_line(places, span);
    match excerpt(alloc, text, part) {
        Ok(shown) => lines.push_bytes(shown.as_slice()),
        Err(_) => lines.lack(),
    }
}

/// The source text from the line on in which a part of it begins, and the part as it lies in that.
fn from_line<'s>(places: &Places<'s>, span: Span) -> (&'s [u8], Span) {
    let text = places.source().text().as_bytes();
    let offset = span.start as usize;
    let before = match places.place_of(offset) {
        Some(place) => place.column.saturating_sub(1),
        None => offset,
    };
    let start = offset.saturating_sub(before);
    match text.get(start..) {
        Some(text) => (text, moved_back(span, start as u32)),
        None => (text, span),
    }
}

/// A part of a text that begins this much later.
fn moved_back(span: Span, start: u32) -> Span {
    Span {
        start: span.start.saturating_sub(start),
        end: span.end.saturating_sub(start),
    }
}

/// Adds the place of a part of the source text that belongs to a fault, and its line with carets.
fn push_related(alloc: Global, lines: &mut Lines, places: &Places<'_>, related: Related) {
    if let Some(Place { file, line, column }) = places.place_of(related.span.start as usize) {
        lines.push(file);
        lines.fill_number(":~:", line as u64);
        lines.push_number(column as u64);
        lines.fill_name(": ~\n", related.what);
        push_excerpt(alloc, lines, places, related.span)
    }
}

/// Which file makes the source text too long, and where more is said of that, if it is asked for.
pub fn too_long_note(alloc: Global, name: &str, is_explained: bool) -> Result<Vec<u8>, AllocError> {
    let template = "with ~ the files have more than 1,048,576 bytes together, a line feed after each
`scoop explain L5` says more
";
    let mut lines = Lines::new(alloc);
    if is_explained {
        lines.fill_name(template, name)
    }
    lines.finish()
}
