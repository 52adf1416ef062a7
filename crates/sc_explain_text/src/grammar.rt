//! What is said of a text that is no system.

use crate::beginning::Beginning;
use crate::expected::push_expected;
use crate::foreign::{push_instead_at, push_instead_of, push_instead_of_word};
use crate::layout::open_construct;
use crate::lines::Lines;
use crate::nearest::{near_word, push_meant};
use crate::reading::{tokens_of, word_at};
use crate::related::Related;
use sc_text::{Span, Terminal, Token, TokenKind};

/// A text, its tokens, and the number of the first that no system has there.
#[derive(Clone, Copy)]
struct Stop<'t> {
    text: &'t str,
    tokens: &'t [Token],
    number: usize,
    span: Span,
}

/// Adds an explanation of a text with which no system begins, up to the end of this part: what is written in place of
/// a construct that isn't in the language, a word that was meant, or else what may be there. Then the construct that
/// hasn't ended, if it belongs to the fault. The lines are incomplete if memory runs out.
pub fn explain_grammar(lines: &mut Lines, text: &str, span: Span) -> Option<Related> {
    match tokens_of(lines, text) {
        None => None,
        Some(tokens) => {
            let stop = Stop {
                text,
                tokens: tokens.as_slice(),
                number: number_of(tokens.as_slice(), span),
                span,
            };
            stop.explain(lines)
        }
    }
}

/// The number of the first token that begins at this part or after it.
fn number_of(tokens: &[Token], span: Span) -> usize {
    for (number, token) in tokens.iter().enumerate() {
        if token.span.start >= span.start {
            return number;
        }
    }
    tokens.len()
}

impl<'t> Stop<'t> {
    fn explain(self, lines: &mut Lines) -> Option<Related> {
        self.push_place(lines);
        let is_told = self.push_record(lines)
            || push_instead_of_word(lines, self.word(0))
            || self.push_word_in_line(lines)
            || self.push_meant(lines)
            || self.push_real(lines)
            || self.push_sign(lines);
        if is_told {
            return None;
        }
        let beginning = self.beginning(lines, 0);
        push_expected(lines, &beginning);
        open_construct(lines, self.text, self.before(0))
    }

    /// The beginning of the text before the token `back` tokens before the one at fault.
    fn beginning(self, lines: &mut Lines, back: usize) -> Beginning {
        let between = self.text_between(back, self.start(0));
        let fault = self.word(0);
        Beginning::of(lines, self.text, self.before(back), between, fault)
    }

    /// The token `back` tokens before the one at fault; none after the last.
    fn token(self, back: usize) -> Option<&'t Token> {
        self.tokens.get(self.number.saturating_sub(back))
    }

    /// The spelling of the token `back` tokens before the one at fault; nothing if the text ends before its last
    /// class does.
    fn word(self, back: usize) -> &'t str {
        match self.token(back) {
            None => "",
            Some(token) => word_at(self.text, token.span),
        }
    }

    /// The start of the token `back` tokens before the one at fault; else the end of the text.
    fn start(self, back: usize) -> usize {
        match self.token(back) {
            None => self.text.len(),
            Some(token) => token.span.start as usize,
        }
    }

    /// The text from the token `back` tokens before the one at fault to this place.
    fn text_between(self, back: usize, end: usize) -> &'t str {
        let start = self.start(back);
        self.text.get(start..end).unwrap_or("")
    }

    /// The tokens before the one `back` tokens before that at fault.
    fn before(self, back: usize) -> &'t [Token] {
        let number = self.number.saturating_sub(back);
        self.tokens.get(..number).unwrap_or(self.tokens)
    }

    /// Adds which token is at fault.
    fn push_place(self, lines: &mut Lines) {
        let word = self.word(0);
        let template = if word.is_empty() {
            "the text ends before its last class does\n"
        } else {
            "no system begins with the text up to `~`\n"
        };
        lines.fill_name(template, word)
    }

    /// Adds what to do with a record that is given as a text, and whether there is one.
    fn push_record(self, lines: &mut Lines) -> bool {
        let from = self.text_between(0, self.text.len());
        let is_record = from.starts_with("scoop record ");
        if is_record {
            lines.push("help: this is a record, which `scoop replay RECORD FILE..` plays\n")
        }
        is_record
    }

    /// Adds what is written in place of a number with a point, and whether there is one.
    fn push_real(self, lines: &mut Lines) -> bool {
        match (self.kind(1), self.kind(0)) {
            (Some(TokenKind::Integer(_)), Some(TokenKind::Terminal(Terminal::Dot))) => {
                push_instead_of(lines, "real")
            }
            _ => false,
        }
    }

    /// Adds what is written in place of signs: of several that begin at the token at fault, of those that begin at the
    /// token before it and reach over that, or of the one at fault.
    fn push_sign(self, lines: &mut Lines) -> bool {
        let over = self.word(1).len().saturating_add(1);
        self.push_sign_at(lines, 0, 2)
            || self.push_sign_at(lines, 1, over)
            || self.push_sign_at(lines, 0, 1)
    }

    /// Adds a line with what is written in place of signs of at least this number of bytes, from the token `back`
    /// tokens before the one at fault. Returns whether there is one.
    fn push_sign_at(self, lines: &mut Lines, back: usize, least: usize) -> bool {
        let from = self.text_between(back, self.text.len());
        self.is_sign(back) && push_instead_at(lines, from, least)
    }

    /// Whether the token `back` tokens before the one at fault is no name and no number.
    fn is_sign(self, back: usize) -> bool {
        match self.kind(back) {
            Some(TokenKind::Terminal(_)) => true,
            Some(TokenKind::ManifestString(_)) => back == 0,
            _ => false,
        }
    }

    /// The kind of the token `back` tokens before the one at fault.
    fn kind(self, back: usize) -> Option<&'t TokenKind> {
        if let Some(number) = self.number.checked_sub(back)
            && let Some(token) = self.tokens.get(number)
        {
            Some(&token.kind)
        } else {
            None
        }
    }

    /// Adds a line with what is written in place of a construct that is shown by one of the eight words before the
    /// fault, if that is in its line and declared nowhere.
    fn push_word_in_line(self, lines: &mut Lines) -> bool {
        let first = self.number.saturating_sub(8);
        for token in self.tokens.get(first..self.number).unwrap_or(&[]) {
            if let TokenKind::Name(name) = &token.kind
                && self.is_in_line(token.span)
                && !self.is_declared(name)
                && push_instead_of_word(lines, name)
            {
                return true;
            }
        }
        false
    }

    /// Whether the name is declared or assigned somewhere.
    fn is_declared(self, name: &str) -> bool {
        let mut is_name = false;
        for token in self.tokens {
            is_name = match &token.kind {
                TokenKind::Name(known) => known.as_str() == name,
                TokenKind::Terminal(Terminal::Colon | Terminal::Comma | Terminal::Becomes)
                    if is_name => {
                    return true;
                }
                _ => false,
            };
        }
        false
    }

    /// Whether this part begins in the line of the fault before it.
    fn is_in_line(self, part: Span) -> bool {
        match self.text.get(part.start as usize..self.span.start as usize) {
            None => false,
            Some(between) => !between.as_bytes().contains(&b'\n'),
        }
    }

    /// Adds which word was meant, where a system goes on further with one that is near to one written here, and whether
    /// there is one.
    fn push_meant(self, lines: &mut Lines) -> bool {
        for back in 0..4_usize {
            if let Some(word) = self.near(back)
                && self.is_better(lines, back, word)
            {
                push_meant(lines, word);
                return true;
            }
        }
        false
    }

    /// The word that is similar to the name `back` tokens before the one at fault, if that is a token.
    fn near(self, back: usize) -> Option<&'static str> {
        match self.kind(back) {
            Some(TokenKind::Name(name)) if self.number < self.tokens.len() => near_word(name),
            _ => None,
        }
    }

    /// Whether a system goes on further with this word in place of the token `back` tokens before the one at fault.
    fn is_better(self, lines: &mut Lines, back: usize, word: &str) -> bool {
        let beginning = self.beginning(lines, back);
        beginning.is_short() && beginning.goes_on(lines, word, self.text_behind(back))
    }

    /// The text after the token `back` tokens before the one at fault, to its end.
    fn text_behind(self, back: usize) -> &'t str {
        match back.checked_sub(1) {
            None => "",
            Some(back) => {
                let end = self.start(0).saturating_add(self.word(0).len());
                self.text_between(back, end)
            }
        }
    }
}
