//! Texts in quotes, as JSON writes them.

use sc_explain_text::Lines;

/// Adds a text in quotes, with the escapes that JSON needs.
pub fn push_quoted(lines: &mut Lines, text: &str) {
    lines.push("\"");
    for character in text.chars() {
        push_character(lines, character)
    }
    lines.push("\"")
}

fn push_character(lines: &mut Lines, character: char) {
    match character {
        '"' => lines.push("\\\""),
        '\\' => lines.push("\\\\"),
        '\n' => lines.push("\\n"),
        '\t' => lines.push("\\t"),
        '\0'..='\x1f' => lines.push("?"),
        _ => {
            let mut buffer = [0u8; 4];
            lines.push(character.encode_utf8(&mut buffer))
        }
    }
}
