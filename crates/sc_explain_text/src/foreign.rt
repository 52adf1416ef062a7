//! What is written in place of a construct that isn't here.

use crate::instead::{NAMES, SIGNS, WORDS};
use crate::lines::Lines;
use crate::reading::first_bytes;

/// Adds a line with what is written in place of the construct that this unknown name shows. Returns whether there is
/// one.
pub fn push_instead_of(lines: &mut Lines, name: &str) -> bool {
    push_instead_of_word(lines, name) || push_instead(lines, NAMES, name, name.len())
}

/// Adds a line that says what is written in place of a construct that has this word, and whether there is one.
pub fn push_instead_of_word(lines: &mut Lines, word: &str) -> bool {
    push_instead(lines, WORDS, word, word.len())
}

/// Adds a line with what is written in place of signs that a text begins with, of at least this number of bytes.
/// Returns whether there is one.
pub fn push_instead_at(lines: &mut Lines, text: &str, least: usize) -> bool {
    push_instead(lines, SIGNS, text, least)
}

/// Adds a line with what is written in place of the first of these constructs that a text begins with, in a spelling of
/// at least this number of bytes. Returns whether there is one.
fn push_instead(lines: &mut Lines, constructs: &str, text: &str, least: usize) -> bool {
    for row in constructs.split('\n') {
        if let Some((spellings, instead)) = row.rsplit_once('\t')
            && begins_with(text, spellings, least)
        {
            lines.fill_name("help: ~\n", instead);
            return true;
        }
    }
    false
}

/// Whether the text begins with one of these spellings, which have tabs between, of at least this number of bytes, in
/// any letter case.
fn begins_with(text: &str, spellings: &str, least: usize) -> bool {
    for spelling in spellings.split('\t') {
        let length = spelling.len();
        if length >= least && first_bytes(text, length).eq_ignore_ascii_case(spelling) {
            return true;
        }
    }
    false
}
