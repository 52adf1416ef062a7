//! Templates of numbers, and texts in a page.

use sc_explain_text::Lines;

/// Adds a text in which these numbers take the places of `~`, one after the other.
pub fn fill_numbers(lines: &mut Lines, template: &str, numbers: &[usize]) {
    let mut rest = template;
    for number in numbers {
        let Some((before, behind)) = rest.split_once('~') else {
            break;
        };
        lines.push(before);
        lines.push_number(*number as u64);
        rest = behind;
    }
    lines.push(rest)
}

/// Adds a text with the escapes that a page needs. Bytes that aren't UTF-8 are left out.
pub fn push_escaped(lines: &mut Lines, text: &[u8]) {
    for character in str::from_utf8(text).unwrap_or("..").chars() {
        push_character(lines, character)
    }
}

fn push_character(lines: &mut Lines, character: char) {
    match character {
        '&' => lines.push("&amp;"),
        '<' => lines.push("&lt;"),
        '>' => lines.push("&gt;"),
        '"' => lines.push("&quot;"),
        '\'' => lines.push("&#39;"),
        _ => {
            let mut buffer = [0u8; 4];
            lines.push(character.encode_utf8(&mut buffer))
        }
    }
}
