//! What a text begins with, as far as that says how it may go on.

use crate::layout::Layout;
use crate::lines::Lines;
use crate::reading::{first_bytes, tokens_of, word_at};
use sc_parse::{ParseFault, let_go, parse};
use sc_text::Token;
use std::alloc::Global;

/// The most bytes of a beginning for which it is tried how it may go on.
const MOST: usize = 4_096;

/// In place of whole classes and routines: a text goes on after it as after them.
const ROUTINE: &str = "class x feature x do end";

/// In place of whole instructions.
const INSTRUCTION: &str = "check end";

/// The beginning of a text up to a place, or a shorter one that goes on in the same ways: without classes and
/// routines that end before that place, instructions that are whole there, and anything that is no token. If memory
/// is refused to a part of it, that is missing, and the lines are incomplete that it is made for.
#[derive(Drop)]
pub struct Beginning {
    text: String,
}

impl Beginning {
    /// The beginning of a text with these first tokens. After them come this part of the text up to its fault, and
    /// then the word at fault, if the text has one there: if a shorter beginning doesn't go on so, nothing is left
    /// out.
    pub fn of(lines: &mut Lines, text: &str, before: &[Token], between: &str, fault: &str) -> Self {
        let shorter = Self::shortened(lines, text, before);
        if !shorter.is_short() || shorter.goes_as(lines, between, fault) {
            return shorter;
        }
        let mut whole = Self::new(lines.alloc());
        whole.push_word(lines, first_bytes(text, end_of(before, 0)));
        whole
    }

    /// Nothing.
    fn new(alloc: Global) -> Self {
        Beginning {
            text: String::new(alloc),
        }
    }

    /// What is shorter.
    fn shortened(lines: &mut Lines, text: &str, before: &[Token]) -> Self {
        let layout = Layout::of(lines, text, before);
        let mut shorter = Self::new(lines.alloc());
        shorter.push_shortened(lines, text, before, &layout);
        shorter
    }

    /// Adds these tokens of a text, without what is settled and whole by this layout of them.
    fn push_shortened(&mut self, lines: &mut Lines, text: &str, before: &[Token], layout: &Layout) {
        self.push_word(lines, if layout.is_in_class { ROUTINE } else { "" });
        let mut from = layout.settled;
        for part in layout.whole.iter() {
            self.push_words(lines, text, before.get(from..part.start));
            self.push_word(lines, INSTRUCTION);
            from = part.end;
        }
        self.push_words(lines, text, before.get(from..))
    }

    /// Adds the words of these tokens, if there are some.
    fn push_words(&mut self, lines: &mut Lines, text: &str, tokens: Option<&[Token]>) {
        for token in tokens.unwrap_or(&[]) {
            self.push_word(lines, word_at(text, token.span));
        }
    }

    fn push_word(&mut self, lines: &mut Lines, word: &str) {
        if self.text.push_str(" ").is_err() || self.text.push_str(word).is_err() {
            lines.lack();
        }
    }

    /// Whether it is short enough to be tried often.
    pub fn is_short(&self) -> bool {
        self.text.len() <= MOST
    }

    /// Whether a system begins with it and this text, and none with these and the word at fault.
    fn goes_as(&self, lines: &mut Lines, between: &str, fault: &str) -> bool {
        self.goes_on(lines, between, "")
            && (fault.is_empty() || !self.goes_on(lines, between, fault))
    }

    /// Whether a system begins with it and these two texts. The lines are incomplete if memory runs out.
    pub fn goes_on(&self, lines: &mut Lines, behind: &str, last: &str) -> bool {
        let mut longer = Self::new(lines.alloc());
        longer.push_word(lines, &self.text);
        longer.push_word(lines, behind);
        longer.push_word(lines, last);
        is_begun(lines, &longer.text)
    }
}

/// Whether a system begins with the text.
fn is_begun(lines: &mut Lines, text: &str) -> bool {
    match tokens_of(lines, text) {
        None => false,
        Some(tokens) => are_begun(lines, &tokens, text.len()),
    }
}

/// Whether a system begins with the tokens of a text of this length.
fn are_begun(lines: &mut Lines, tokens: &[Token], length: usize) -> bool {
    match parse(lines.alloc(), tokens) {
        Ok(system) => {
            let_go(system);
            true
        }
        Err(ParseFault::NotInGrammar { span }) => span.start as usize >= end_of(tokens, length),
        Err(ParseFault::OutOfMemory) => {
            lines.lack();
            false
        }
        Err(_) => false,
    }
}

/// Where the last token ends, or this place if there is none.
fn end_of(tokens: &[Token], without: usize) -> usize {
    match tokens.last() {
        None => without,
        Some(token) => token.span.end as usize,
    }
}
