//! What was found in a source text, as an array of JSON on a line.

use crate::json::quoting::push_quoted;
use sc_class::Root;
use sc_explain_refusal::{Diagnosis, Edit, Related, diagnose_all};
use sc_explain_text::Lines;
use sc_frontend::Refused;
use sc_places::Places;
use sc_source::source::Place;
use sc_text::Span;
use sc_warnings::Warning;
use std::alloc::{AllocError, Global};

/// What is said of a part of a source text.
#[derive(Clone, Copy)]
struct Finding<'f> {
    severity: &'static str,
    /// The code of a refusal.
    code: Option<&'static str>,
    /// The name of a refusal.
    name: Option<&'static str>,
    span: Option<Span>,
    message: &'f str,
    /// What helps; nothing if it isn't known.
    help: &'f str,
    /// What the help says to write, if it says what and where.
    edit: Option<&'f Edit>,
    related: Option<Related>,
}

/// The array of what was found in a source text, with an element for each refusal and each warning.
pub fn faults_array(
    alloc: Global,
    places: &Places<'_>,
    root: &Root,
    refused: &[Refused],
    warnings: &[Warning],
) -> Result<Vec<u8>, AllocError> {
    let mut lines = Lines::new(alloc);
    match diagnose_all(alloc, places.source().text(), root, refused) {
        Ok(told) => {
            for (one, diagnosis) in refused.iter().zip(told.iter()) {
                push_diagnosis(alloc, &mut lines, places, *one, diagnosis)
            }
        }
        Err(_) => lines.lack(),
    }
    for warning in warnings {
        push_finding(alloc, &mut lines, places, finding_of(*warning))
    }
    let end = if lines.is_empty() { "[]\n" } else { "]\n" };
    lines.push(end);
    lines.finish()
}

/// What is said of a warning.
fn finding_of(warning: Warning) -> Finding<'static> {
    Finding {
        severity: "warning",
        code: None,
        name: None,
        span: Some(warning.span),
        message: warning.kind.message(),
        help: "",
        edit: None,
        related: None,
    }
}

/// Adds a refusal of which this is said.
fn push_diagnosis(
    alloc: Global,
    lines: &mut Lines,
    places: &Places<'_>,
    refused: Refused,
    diagnosis: &Diagnosis,
) {
    let Refused { code, span } = refused;
    let (message, help) = diagnosis.sentence_and_help();
    push_finding(
        alloc,
        lines,
        places,
        Finding {
            severity: "error",
            code: Some(code.code()),
            name: Some(code.name()),
            span,
            message,
            help,
            edit: diagnosis.edit.as_ref(),
            related: diagnosis.related,
        },
    )
}

/// Adds an element. Its members are in the order of their names.
fn push_finding(alloc: Global, lines: &mut Lines, places: &Places<'_>, finding: Finding<'_>) {
    let begins = if lines.is_empty() {
        r#"[{"begin":"#
    } else {
        r#",{"begin":"#
    };
    lines.push(begins);
    push_begin(alloc, lines, places, finding.span);
    push_name(lines, r#","code":"#, finding.code);
    lines.push(r#","edit":"#);
    push_edit(alloc, lines, places, finding.edit);
    lines.push(r#","end":"#);
    push_end(alloc, lines, places, finding.span);
    lines.push(r#","help":"#);
    push_help(alloc, lines, finding.help);
    lines.push(r#","message":"#);
    push_quoted(alloc, lines, String::from_str(alloc, finding.message));
    push_name(lines, r#","name":"#, finding.name);
    lines.push(r#","related":"#);
    push_related(alloc, lines, places, finding.related);
    lines.fill_name(r#","severity":"~"}"#, finding.severity)
}

/// Adds a name that needs no escapes after these words, or null.
fn push_name(lines: &mut Lines, before: &str, name: Option<&str>) {
    lines.push(before);
    match name {
        Some(name) => lines.fill_name(r#""~""#, name),
        None => lines.push("null"),
    }
}

/// Adds what helps, or null.
fn push_help(alloc: Global, lines: &mut Lines, help: &str) {
    if help.is_empty() {
        lines.push("null")
    } else {
        push_quoted(alloc, lines, String::from_str(alloc, help))
    }
}

/// Adds what the help says to write, or null.
fn push_edit(alloc: Global, lines: &mut Lines, places: &Places<'_>, edit: Option<&Edit>) {
    match edit {
        Some(edit) => {
            lines.push(r#"{"begin":"#);
            push_begin(alloc, lines, places, Some(edit.span));
            lines.push(r#","end":"#);
            push_end(alloc, lines, places, Some(edit.span));
            lines.push(r#","text":"#);
            push_quoted(alloc, lines, String::from_str(alloc, edit.text()));
            lines.push("}")
        }
        None => lines.push("null"),
    }
}

/// Adds the array of the places that belong to a refusal.
fn push_related(alloc: Global, lines: &mut Lines, places: &Places<'_>, related: Option<Related>) {
    match related {
        Some(Related { what, span }) => {
            lines.push(r#"[{"begin":"#);
            push_begin(alloc, lines, places, Some(span));
            lines.push(r#","end":"#);
            push_end(alloc, lines, places, Some(span));
            lines.fill_name(r#","message":"~"}]"#, what)
        }
        None => lines.push("[]"),
    }
}

/// Adds the place at which a part begins, or null.
fn push_begin(alloc: Global, lines: &mut Lines, places: &Places<'_>, span: Option<Span>) {
    match span {
        Some(span) => push_place(alloc, lines, places, span.start as usize),
        None => lines.push("null"),
    }
}

/// Adds the place after the last character of a part, or null.
fn push_end(alloc: Global, lines: &mut Lines, places: &Places<'_>, span: Option<Span>) {
    match span {
        Some(span) => {
            let end = whole_end(places.source().text(), span.end as usize);
            push_place(alloc, lines, places, end)
        }
        None => lines.push("null"),
    }
}

/// The first place from this one on that cuts no character of the text.
fn whole_end(text: &str, end: usize) -> usize {
    for place in end..end.saturating_add(4) {
        if text.get(place..).is_some() {
            return place;
        }
    }
    end
}

/// Adds the place of a byte of the source text: its offset in its file, from 0, its column, which counts bytes, its file and
/// its line.
fn push_place(alloc: Global, lines: &mut Lines, places: &Places<'_>, offset: usize) {
    match (places.place_of(offset), places.byte_of(offset)) {
        (Some(Place { file, line, column }), Some(byte)) => {
            lines.fill_number(r#"{"byte":~"#, byte as u64);
            lines.fill_number(r#","column":~,"file":"#, column as u64);
            push_quoted(alloc, lines, String::from_str(alloc, file));
            lines.fill_number(r#","line":~}"#, line as u64)
        }
        _ => lines.push("null"),
    }
}
