//! Characters as a terminal shows them.

use std::alloc::{AllocError, Global};
use unicode_width::UnicodeWidthChar;

/// The sign that is shown in place of the first control character; those of the others follow it.
const FIRST_PICTURE: u32 = 0x2400;

/// The sign that is shown in place of a deletion.
const DELETION: char = '\u{2421}';

/// The sign that is shown in place of any other character that changes how a terminal shows its neighbours.
const UNKNOWN: char = '\u{fffd}';

/// Lines as a terminal shows them. Where memory is refused to some of them they are lacking, and all is no answer in the end.
#[derive(Drop)]
pub struct Shown {
    text: String,
    is_lacking: bool,
}

impl Shown {
    /// No lines.
    pub fn new(alloc: Global) -> Shown {
        Shown {
            text: String::new(alloc),
            is_lacking: false,
        }
    }

    /// Adds a text with a sign in place of each character that a terminal doesn't show. Tabs are as they are.
    pub fn push_shown(&mut self, text: &str) {
        for character in text.chars() {
            self.push(visible(character))
        }
    }

    /// Adds what is as wide as a text: a tab for a tab, and for any other character the sign so often as it has columns.
    pub fn push_under(&mut self, text: &str, sign: char) {
        for character in text.chars() {
            if character == '\t' {
                self.push('\t')
            } else {
                self.push_often(columns_of(character), sign)
            }
        }
    }

    /// Ends the line, and adds that of another below it, which ends too.
    pub fn push_below(&mut self, other: &Shown) {
        self.push('\n');
        self.push_shown(other.text.as_str());
        self.push('\n');
        self.is_lacking = self.is_lacking || other.is_lacking;
    }

    /// The lines, if nothing is missing.
    pub fn finish(self) -> Result<Vec<u8>, AllocError> {
        if self.is_lacking {
            return Err(AllocError);
        }
        Ok(self.text.into_bytes())
    }

    fn push_often(&mut self, count: usize, sign: char) {
        for _ in 0..count {
            self.push(sign)
        }
    }

    fn push(&mut self, character: char) {
        if self.text.push(character).is_err() {
            self.is_lacking = true;
        }
    }
}

/// How many columns of a terminal what is shown of a character takes.
fn columns_of(character: char) -> usize {
    visible(character).width().unwrap_or(1)
}

/// What is shown of a character.
fn visible(character: char) -> char {
    let code = character as u32;
    match code {
        0x09 => character,
        0x00..=0x1f => char::from_u32(FIRST_PICTURE + code).unwrap_or(UNKNOWN),
        0x7f => DELETION,
        0x80..=0x9f | 0x200b..=0x200f | 0x2028..=0x202e | 0x2066..=0x2069 | 0xfeff => UNKNOWN,
        _ => character,
    }
}
