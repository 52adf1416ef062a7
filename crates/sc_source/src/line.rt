//! The line of a source text in which a part of it begins.

use crate::shown::Shown;
use sc_text::Span;
use std::alloc::{AllocError, Global};
use std::str;

/// The most characters that are shown of a line before the part at fault, of that part, and after it.
const MOST: usize = 150;

/// What is shown for what is left out of a long line.
const LEFT_OUT: &str = "..";

/// The line in which the part of a text begins, and a line with carets under the part, as far as it is in that line:
/// at least one caret. Below a tab is a tab, and below any other character what is as wide on a terminal. Of a long
/// line only what is near the part is shown, and a sign in place of each character that a terminal doesn't show.
/// Nothing if the text ends before the part.
pub fn excerpt(alloc: Global, text: &[u8], span: Span) -> Result<Vec<u8>, AllocError> {
    let mut lines = Shown::new(alloc);
    if let Some((before, after)) = text.split_at_checked(span.start as usize) {
        let before = last_line(before);
        let after = first_line(after);
        let length = whole_length(after, span.end.saturating_sub(span.start) as usize);
        let (part, rest) = after.split_at_checked(length).unwrap_or((after, &[]));
        push_line(alloc, &mut lines, before, part, rest)
    }
    lines.finish()
}

/// Adds a line of these three parts, and carets under the second.
fn push_line(alloc: Global, lines: &mut Shown, before: &[u8], part: &[u8], rest: &[u8]) {
    let mut carets = Shown::new(alloc);
    let near = last_characters(before);
    if near.len() < before.len() {
        lines.push_shown(LEFT_OUT);
        carets.push_under(LEFT_OUT, ' ');
    }
    lines.push_shown(text_of(near));
    carets.push_under(text_of(near), ' ');
    let first = first_characters(part);
    lines.push_shown(text_of(first));
    carets.push_under(marked_of(first), '^');
    push_rest(lines, first.len() < part.len(), rest);
    lines.push_below(&carets)
}

/// What carets are put under of a part: all but the blanks at its end, and one character at least.
fn marked_of(part: &[u8]) -> &str {
    let marked = part.trim_ascii_end();
    if marked.is_empty() {
        "^"
    } else {
        text_of(marked)
    }
}

/// Adds the rest after the part at fault, if that is shown whole.
fn push_rest(lines: &mut Shown, is_cut: bool, rest: &[u8]) {
    if is_cut {
        return lines.push_shown(LEFT_OUT);
    }
    let near = first_characters(rest);
    lines.push_shown(text_of(near));
    if near.len() < rest.len() {
        lines.push_shown(LEFT_OUT)
    }
}

/// The text after the last line feed.
fn last_line(text: &[u8]) -> &[u8] {
    let mut start = 0;
    for (index, byte) in text.iter().enumerate() {
        if *byte == b'\n' {
            start = index + 1;
        }
    }
    text.get(start..).unwrap_or(&[])
}

/// The text before the first line feed, and before a carriage return in front of it.
fn first_line(text: &[u8]) -> &[u8] {
    for (index, byte) in text.iter().enumerate() {
        if *byte == b'\n' {
            return without_return(text.get(..index).unwrap_or(text));
        }
    }
    text
}

/// The line without a carriage return at its end.
fn without_return(line: &[u8]) -> &[u8] {
    match line.split_last() {
        Some((b'\r', rest)) => rest,
        _ => line,
    }
}

/// This length, or more, up to where a character of the text ends.
fn whole_length(text: &[u8], length: usize) -> usize {
    for (index, byte) in text.iter().enumerate() {
        if index >= length && !is_inner(*byte) {
            return index;
        }
    }
    text.len()
}

/// The last characters of a text, up to the limit.
fn last_characters(text: &[u8]) -> &[u8] {
    let mut left = MOST;
    for index in (0..text.len()).rev() {
        if !is_inner(text[index]) {
            left = left.saturating_sub(1);
        }
        if left == 0 {
            return text.get(index..).unwrap_or(text);
        }
    }
    text
}

/// The first characters of a text, up to the limit.
fn first_characters(text: &[u8]) -> &[u8] {
    let mut left = MOST;
    for (index, byte) in text.iter().enumerate() {
        let is_start = !is_inner(*byte);
        if is_start && left == 0 {
            return text.get(..index).unwrap_or(text);
        }
        if is_start {
            left -= 1;
        }
    }
    text
}

/// Whether a byte is the second or a later one of a character.
fn is_inner(byte: u8) -> bool {
    matches!(byte, 0x80..=0xbf)
}

/// The text of these bytes: nothing if they are no text.
fn text_of(bytes: &[u8]) -> &str {
    str::from_utf8(bytes).unwrap_or("")
}
