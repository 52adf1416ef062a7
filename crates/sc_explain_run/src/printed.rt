//! What was printed, as the language writes it.

use sc_explain_text::Lines;

/// The most bytes of what a turn prints that are shown.
const MOST_BYTES: usize = 256;

/// Adds what was printed as a string of the language, with its escapes. A character that would change how a terminal
/// shows its neighbours is shown as a question mark, and what is too long ends with two dots.
pub fn push_printed(lines: &mut Lines, printed: &[u8]) {
    lines.push("\"");
    if let Ok(text) = str::from_utf8(printed) {
        let mut room = MOST_BYTES;
        for character in text.chars() {
            if room == 0 {
                lines.push(" ..");
                break;
            }
            room = room.saturating_sub(character.len_utf8());
            push_character(lines, character)
        }
    }
    lines.push("\"")
}

fn push_character(lines: &mut Lines, character: char) {
    match mark_of(character) {
        Some(mark) => lines.push(mark),
        None => {
            let mut buffer = [0u8; 4];
            lines.push(character.encode_utf8(&mut buffer))
        }
    }
}

/// The escape that is shown in place of a character.
fn mark_of(character: char) -> Option<&'static str> {
    match character {
        '\n' => Some("%N"),
        '\t' => Some("%T"),
        '"' => Some("%\""),
        '%' => Some("%%"),
        _ => match character as u32 {
            0x00..=0x1f
            | 0x7f..=0x9f
            | 0x200b..=0x200f
            | 0x2028..=0x202e
            | 0x2066..=0x2069
            | 0xfeff => Some("?"),
            _ => None,
        },
    }
}
