//! What the canonical text of a system leaves out.

use crate::lines::Lines;
use crate::reading::tokens_of;
use sc_text::{Terminal, Token, TokenKind};
use std::alloc::{AllocError, Global};

/// The number of comments in a text, and whether it has notes, a line for each. Its canonical text has none of them.
pub fn left_out(alloc: Global, text: &str) -> Result<Vec<u8>, AllocError> {
    let mut lines = Lines::new(alloc);
    if let Some(tokens) = tokens_of(&mut lines, text) {
        push_left_out(&mut lines, text, &tokens);
    }
    lines.finish()
}

/// Adds the number of comments in a text of these tokens, and whether it has notes.
fn push_left_out(lines: &mut Lines, text: &str, tokens: &[Token]) {
    let comments = comment_count(text.as_bytes(), tokens);
    if comments > 0 {
        lines.fill_number("comments left out: ~\n", comments as u64);
    }
    if have_note(tokens) {
        lines.push("notes left out\n");
    }
}

/// Whether a note begins with one of these tokens.
fn have_note(tokens: &[Token]) -> bool {
    for token in tokens {
        if let TokenKind::Terminal(Terminal::Note | Terminal::Indexing) = token.kind {
            return true;
        }
    }
    false
}

/// The number of comments between the tokens of a text.
fn comment_count(text: &[u8], tokens: &[Token]) -> usize {
    let mut count = 0usize;
    let mut end = 0;
    for token in tokens {
        count = count.saturating_add(comments_in(text, end, token.span.start as usize));
        end = token.span.end as usize;
    }
    count.saturating_add(comments_in(text, end, text.len()))
}

/// The number of comments in a gap of a text: each goes from two dashes to the end of its line.
fn comments_in(text: &[u8], start: usize, end: usize) -> usize {
    let mut count = 0_usize;
    let mut is_comment = false;
    for byte in text.get(start..end).unwrap_or(&[]) {
        if *byte == b'-' && !is_comment {
            count = count.saturating_add(1);
        }
        is_comment = *byte == b'-' || is_comment && *byte != b'\n';
    }
    count
}
