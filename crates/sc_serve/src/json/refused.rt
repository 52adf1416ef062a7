//! Refusals as objects of JSON.

use crate::json::quoting::push_quoted;
use sc_explain_text::Lines;
use std::alloc::Global;

const WITHOUT_CODE: &str =
    r#"{"answer":"refused","code":null,"column":null,"file":null,"line":null,"name":"~"}"#;

const WITHOUT_PLACE: &str =
    r#"{"answer":"refused","code":"~","column":null,"file":null,"line":null,"name":"~"}"#;

/// Writes a refusal: its code and name, and its place; nulls if it has no code or no place. `told` is the line that
/// reports it after its first word. Of its parts only the file's name may need escapes.
pub fn push_refusal(alloc: Global, lines: &mut Lines, told: &[u8]) {
    let line = str::from_utf8(told).unwrap_or("");
    let line = line.strip_suffix('\n').unwrap_or(line);
    match line.split_once(' ') {
        Some((code, told)) => push_coded(alloc, lines, code, told),
        None => lines.fill_name(WITHOUT_CODE, line),
    }
}

/// Writes a refusal that has a code. `told` is its name, and its place after that if it has one.
fn push_coded(alloc: Global, lines: &mut Lines, code: &str, told: &str) {
    if let Some((name, place)) = told.split_once(' ')
        && let Some((before, column)) = place.rsplit_once(':')
        && let Some((file, line)) = before.rsplit_once(':')
    {
        let template = r#"{"answer":"refused","code":"~","column":~,"file":"#;
        lines.fill(template, &[code, column]);
        push_quoted(alloc, lines, String::from_str(alloc, file));
        lines.fill(r#","line":~,"name":"~"}"#, &[line, name])
    } else {
        lines.fill(WITHOUT_PLACE, &[code, told])
    }
}
