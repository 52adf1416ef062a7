//! Parts of the text: their words, and their places.

use sc_code::RoutineText;
use sc_explain_text::Lines;
use sc_source::excerpt;
use sc_source::source::Source;
use sc_text::Span;

/// The routine that a handler entered last, and how far it is in it.
#[derive(Clone, Copy)]
pub struct Standing<'r> {
    pub text: &'r RoutineText,
    /// The place of the operation that it is at.
    pub place: usize,
    /// The place of its next operation.
    pub next: usize,
    /// Whether it is to reserve the handlers of its formals.
    pub is_entry: bool,
}

/// The part of the text that a handler is at that has frames.
pub fn part_of(standing: Option<Standing<'_>>) -> Option<Span> {
    match standing {
        None => None,
        Some(standing) if standing.is_entry => Some(standing.text.name),
        Some(standing) => span_in(standing.text, standing.place),
    }
}

/// The part of the text of the operation that a routine has executed last.
pub fn part_behind_of(standing: Option<Standing<'_>>) -> Option<Span> {
    if let Some(standing) = standing
        && let Some(place) = standing.next.checked_sub(1)
    {
        span_in(standing.text, place)
    } else {
        None
    }
}

/// The part of the text that the operation at a place of this routine was made of.
pub fn span_in(text: &RoutineText, place: usize) -> Option<Span> {
    match text.sites.get(place) {
        Some(site) => Some(site.span),
        None => None,
    }
}

/// A part of the text, with its own letter case.
pub fn written(source: &Source, part: Span) -> &str {
    source
        .text()
        .get(part.start as usize..part.end as usize)
        .unwrap_or("..")
}

/// Adds the file, the line and the column at which a part of the text begins, after these words.
pub fn push_place(lines: &mut Lines, source: &Source, before: &str, part: Span) {
    if let Some(place) = source.place_of(part.start as usize) {
        lines.push(before);
        lines.push(place.file);
        lines.fill_number(":~:", place.line as u64);
        lines.push_number(place.column as u64)
    }
}

/// Adds where a handler stands in the text, if it has frames.
pub fn push_stand(lines: &mut Lines, source: &Source, standing: Option<Standing<'_>>) {
    if let Some(part) = part_of(standing)
        && let Some(standing) = standing
    {
        push_place(lines, source, ", at ", part);
        lines.fill_name(" in ~", written(source, standing.text.name))
    }
}

/// Ends a line about a part of the text, and adds the line of that, with carets.
pub fn push_excerpt(lines: &mut Lines, source: &Source, part: Span) {
    lines.push("\n");
    match excerpt(lines.alloc(), source.text().as_bytes(), part) {
        Ok(shown) => lines.push_bytes(shown.as_slice()),
        Err(_) => lines.lack(),
    }
}
