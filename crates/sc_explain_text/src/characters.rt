//! What is said of a character that begins no token.

use crate::foreign::push_instead_at;
use crate::lines::Lines;
use crate::reading::first_bytes;
use sc_text::Span;

/// Adds an explanation of the character that begins here and begins no token: what is written in its place, or why it
/// isn't allowed there.
pub fn explain_character(lines: &mut Lines, text: &str, span: Span) {
    let from = text.get(span.start as usize..).unwrap_or("");
    let character = first_character(from);
    let template = if is_control(character) {
        "this begins no token\n"
    } else {
        "`~` begins no token\n"
    };
    lines.fill_name(template, character);
    if !push_instead_at(lines, from, 1) && !character.is_ascii() {
        lines.push("help: outside of texts and comments there are ASCII characters alone\n")
    }
}

/// The first character of a text; nothing if it is empty.
fn first_character(text: &str) -> &str {
    for length in 1..5_usize {
        let character = first_bytes(text, length);
        if !character.is_empty() {
            return character;
        }
    }
    ""
}

/// Whether a terminal shows no sign for the text, which is one character or empty.
fn is_control(character: &str) -> bool {
    match character.as_bytes().first() {
        None => true,
        Some(byte) => byte.is_ascii_control(),
    }
}
