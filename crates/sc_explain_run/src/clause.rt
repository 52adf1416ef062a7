//! What is said of a clause that is false, and which values the parts of a text had.

use crate::evaluation::{Evaluation, Goal, Start, push_evaluated};
use crate::places::{push_place, span_in, written};
use crate::scene::Scene;
use crate::values::push_expanded;
use sc_code::{FeatureCode, NameNumber, Program, RoutineText, SiteKind};
use sc_explain_text::Lines;
use sc_lockpass::HandlerNumber;
use sc_region::{Reference, Value};
use sc_source::source::Source;
use sc_text::Span;

/// The most values that are shown.
const MOST_VALUES: usize = 8;

impl<'r> Scene<'r> {
    /// Adds the values that the topmost routine of a handler reads and calls for the operation at a place of it, if it
    /// gets there without asking other handlers, and takes this answer first if one has come: a line, or nothing.
    pub fn push_operation_values(
        &self,
        lines: &mut Lines,
        handler: HandlerNumber,
        answer: Option<Value>,
        place: usize,
    ) {
        if let Some(standing) = self.standing_of(handler)
            && let Some(site) = standing.text.sites.get(place)
        {
            let first = first_place(standing.text, place, site.span);
            let start = match site.kind {
                SiteKind::Clause(_, _) if first < standing.place => Start::Place(first),
                _ => Start::Here(answer),
            };
            push_evaluated(self, lines, handler, start, Goal::Place(place, site.span))
        }
    }

    /// Adds the values that the attributes of an object have which a part of the text names: a line, or nothing.
    pub fn push_attributes(&self, lines: &mut Lines, object: Reference, part: Span) {
        let mut told = Vec::new(lines.alloc());
        let text = written(self.listing.source, part);
        let mut start = 0_usize;
        for at in 0..text.len().saturating_add(1) {
            let is_in_name = match text.as_bytes().get(at) {
                Some(byte) => byte.is_ascii_alphanumeric() || *byte == b'_',
                None => false,
            };
            if !is_in_name {
                let word = text.get(start..at).unwrap_or("");
                self.push_attribute(lines, object, word, &mut told);
                start = at.saturating_add(1);
            }
        }
        if !told.is_empty() {
            lines.push("\n")
        }
    }

    /// Adds the attribute of this name of an object, if it isn't told and is no object.
    fn push_attribute(
        &self,
        lines: &mut Lines,
        object: Reference,
        name: &'r str,
        told: &mut Vec<&'r str>,
    ) {
        let class = object.class as usize;
        if let Some(number) = number_of(self.listing.program, name)
            && let Some(FeatureCode::Attribute(attribute)) = self.listing.feature_in(class, number)
            && let Some(value) = self.stored(object, attribute)
            && !matches!(value, Value::Attached(_))
            && is_new(lines, told, name)
        {
            lines.fill_name(if told.len() == 1 { "where ~" } else { ", ~" }, name);
            push_value(lines, value)
        }
    }
}

/// The number of a name of the program.
fn number_of(program: &Program, name: &str) -> Option<NameNumber> {
    let mut number: NameNumber = 0;
    for other in program.pool().names.iter() {
        if other.as_str().eq_ignore_ascii_case(name) {
            return Some(number);
        }
        number = number.saturating_add(1);
    }
    None
}

impl Evaluation {
    /// Adds what is said at a goal that is reached: on a line, or nothing.
    pub fn tell(&self, lines: &mut Lines, source: &Source, text: &RoutineText, goal: Goal) {
        match (goal, span_in(text, self.frame.place)) {
            (Goal::Place(_, whole), _) => {
                if self.push_values(lines, source, text, "where ", whole) {
                    lines.push("\n")
                }
            }
            (_, Some(clause)) => {
                push_place(lines, source, "", clause);
                lines.push(": `");
                lines.push_flat(written(source, clause));
                lines.push("` is false");
                self.push_values(lines, source, text, ": ", clause);
                lines.push("\n")
            }
            (_, None) => {}
        }
    }

    /// Adds what was read and called in a part of the text, each once, as far as it is no object. Returns whether there
    /// is such a thing.
    fn push_values(
        &self,
        lines: &mut Lines,
        source: &Source,
        text: &RoutineText,
        before: &str,
        whole: Span,
    ) -> bool {
        let first = first_place(text, self.frame.place, whole);
        let mut told = Vec::new(lines.alloc());
        let mut separator = before;
        for seen in self.seen.iter() {
            if first <= seen.place
                && told.len() < MOST_VALUES
                && let Some(span) = span_in(text, seen.place)
                && is_within(span, whole)
            {
                let part = written(source, span);
                if is_new(lines, &mut told, part) {
                    lines.push(separator);
                    lines.push_flat(part);
                    push_value(lines, seen.value);
                    separator = ", "
                }
            }
        }
        !told.is_empty()
    }
}

/// The place of the first operation of a routine, before a given one, that was made of the same part of the text.
fn first_place(text: &RoutineText, place: usize, whole: Span) -> usize {
    let mut first = place;
    for before in (0..place).rev() {
        match span_in(text, before) {
            Some(span) if is_within(span, whole) => first = before,
            _ => break,
        }
    }
    first
}

/// Whether a part of the text lies in another one.
fn is_within(part: Span, whole: Span) -> bool {
    whole.start <= part.start && part.end <= whole.end
}

/// Adds a name to those that are told, unless it is there in any letter case. Returns whether it wasn't.
fn is_new<'r>(lines: &mut Lines, told: &mut Vec<&'r str>, name: &'r str) -> bool {
    for other in told.iter() {
        if other.eq_ignore_ascii_case(name) {
            return false;
        }
    }
    if let Err(_) = told.push(name) {
        lines.lack()
    }
    true
}

/// Adds that something has this value, unless that is an object.
fn push_value(lines: &mut Lines, value: Value) {
    if !matches!(value, Value::Attached(_)) {
        lines.push(" = ");
        push_expanded(lines, value)
    }
}
