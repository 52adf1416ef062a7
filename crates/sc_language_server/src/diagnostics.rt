//! What is found in a system, as an editor shows it.

use crate::findings::Finding;
use crate::systems::{CheckedSystem, Joined, Part};
use crate::written::{push_place, push_quoted};
use sc_explain_refusal::Related;
use sc_explain_text::Lines;
use std::alloc::Global;

const NOTIFICATION: &str =
    r#"{"jsonrpc":"2.0","method":"textDocument/publishDiagnostics","params":{"diagnostics":["#;

/// Adds the notification of what is found in the document of this number of a system.
pub fn push_notification(
    alloc: Global,
    lines: &mut Lines,
    system: &CheckedSystem,
    index: usize,
    part: &Part,
) {
    lines.push(NOTIFICATION);
    let mut before = "";
    for finding in &system.findings {
        if finding.place.part == index {
            lines.push(before);
            push_finding(alloc, lines, &system.joined, finding);
            before = ",";
        }
    }
    lines.push(r#"],"uri":"#);
    push_quoted(alloc, lines, part.uri.as_str());
    if let Some(version) = part.version {
        push_version(lines, version)
    }
    lines.push("}}")
}

/// Adds the notification that nothing is found in a document.
pub fn push_cleared(alloc: Global, lines: &mut Lines, uri: &str) {
    lines.push(NOTIFICATION);
    lines.push(r#"],"uri":"#);
    push_quoted(alloc, lines, uri);
    lines.push("}}")
}

/// Adds the version of a document, after what is known of it before.
fn push_version(lines: &mut Lines, version: i64) {
    let mut digits = itoa::Buffer::new();
    lines.fill_name(r#","version":~"#, digits.format(version))
}

/// Adds what is said of a refusal or a warning. Its members are in the order of their names.
fn push_finding(alloc: Global, lines: &mut Lines, joined: &Joined, finding: &Finding) {
    lines.push("{");
    if let Some(code) = finding.code {
        lines.fill_name(r#""code":"~","#, code.code())
    }
    lines.push(r#""message":"#);
    push_quoted(alloc, lines, finding.said());
    lines.push(r#","range":"#);
    push_place(lines, joined, finding.place);
    if let Some(related) = finding.diagnosis.related {
        push_related(alloc, lines, joined, related)
    }
    lines.push(match finding.code {
        Some(_) => r#","severity":1,"source":"scoop"}"#,
        None => r#","severity":2,"source":"scoop"}"#,
    })
}

/// Adds the place that belongs to a refusal.
fn push_related(alloc: Global, lines: &mut Lines, joined: &Joined, related: Related) {
    let place = joined.place_of(Some(related.span));
    if let Some(part) = joined.parts.get(place.part) {
        lines.push(r#","relatedInformation":[{"location":{"range":"#);
        push_place(lines, joined, place);
        lines.push(r#","uri":"#);
        push_quoted(alloc, lines, part.uri.as_str());
        lines.fill_name(r#"},"message":"~"}]"#, related.what)
    }
}
