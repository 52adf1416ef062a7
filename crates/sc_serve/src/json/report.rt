//! Reports as objects of JSON.

use crate::json::quoting::push_quoted;
use sc_explain_text::Lines;
use std::alloc::Global;

/// Reads a report from its beginning.
#[derive(Drop)]
struct Reader<'t> {
    rest: &'t [u8],
}

/// The parts of a handler's line.
#[derive(Drop)]
struct Line<'t> {
    number: &'t str,
    status: &'t str,
    cause: Option<&'t str>,
    refused: &'t str,
    length: usize,
}

/// Writes a report: each handler with its status, the code of its failure, how many requests it refused, and its
/// output; how the run has stopped; and the answer of its audit, if there is one. Only outputs may need escapes. A member
/// with the numbers of the handlers, with a comma before it, is added if there is one.
pub fn push_report(alloc: Global, lines: &mut Lines, report: &[u8], stats: &[u8]) {
    let mut reader = Reader { rest: report };
    let mut handlers = Lines::new(alloc);
    push_handlers(alloc, &mut handlers, &mut reader);
    let stopped = reader.line_after("stopped ");
    match reader.line_after("audit ") {
        Some(audit) => lines.fill_name(r#"{"answer":"report","audit":"~","handlers":["#, audit),
        None => lines.push(r#"{"answer":"report","audit":null,"handlers":["#),
    }
    lines.push_lines(&handlers);
    lines.push("]");
    lines.push_bytes(stats);
    match stopped {
        Some(stopped) => lines.fill_name(r#","stopped":"~"}"#, stopped),
        None => lines.push(r#","stopped":null}"#),
    }
}

/// Writes the handlers with which a report begins.
fn push_handlers(alloc: Global, lines: &mut Lines, reader: &mut Reader<'_>) {
    let mut before = "";
    for _ in 0..reader.rest.len() {
        let Some(told) = reader.line_after("handler ") else {
            break;
        };
        let Some(line) = line_told(told) else {
            break;
        };
        lines.push(before);
        push_handler(alloc, lines, &line, reader.take(line.length));
        before = ",";
    }
}

/// Writes a handler. Bytes of its output that aren't UTF-8 get a mark.
fn push_handler(alloc: Global, lines: &mut Lines, line: &Line<'_>, output: &[u8]) {
    match line.cause {
        Some(cause) => lines.fill_name(r#"{"cause":"~","#, cause),
        None => lines.push(r#"{"cause":null,"#),
    }
    lines.fill_name(r#""number":~,"output":"#, line.number);
    push_quoted(alloc, lines, String::from_utf8_lossy(alloc, output));
    lines.fill(
        r#","refused":~,"status":"~"}"#,
        &[line.refused, line.status],
    )
}

/// The parts of a handler's line after its first word: `NUMBER STATUS refused COUNT output BYTES`; the status may
/// have a code after it.
fn line_told(told: &str) -> Option<Line<'_>> {
    if let Some((standing, counts)) = told.split_once(" refused ")
        && let Some((number, status)) = standing.split_once(' ')
        && let Some((refused, length)) = counts.split_once(" output ")
        && let Ok(length) = length.parse::<usize>()
    {
        let (status, cause) = status_and_cause(status);
        Some(Line {
            number,
            status,
            cause,
            refused,
            length,
        })
    } else {
        None
    }
}

fn status_and_cause(told: &str) -> (&str, Option<&str>) {
    match told.split_once(' ') {
        Some((status, cause)) => (status, Some(cause)),
        None => (told, None),
    }
}

impl<'t> Reader<'t> {
    /// The rest of the next line after these words, or None if it doesn't begin so: then it is still the next one.
    fn line_after(&mut self, words: &str) -> Option<&'t str> {
        match self.rest.strip_prefix(words.as_bytes()) {
            Some(told) => {
                self.rest = told;
                str::from_utf8(self.take(line_length(told))).ok()
            }
            None => None,
        }
    }

    /// Takes this number of bytes, and the line feed after them.
    fn take(&mut self, length: usize) -> &'t [u8] {
        let (taken, rest) = self
            .rest
            .split_at_checked(length)
            .unwrap_or((self.rest, &[]));
        self.rest = rest.strip_prefix(b"\n").unwrap_or(rest);
        taken
    }
}

/// How many bytes the first line of a text has, without its line feed.
fn line_length(text: &[u8]) -> usize {
    let mut length = 0_usize;
    for byte in text {
        if *byte == b'\n' {
            break;
        }
        length = length.saturating_add(1);
    }
    length
}
