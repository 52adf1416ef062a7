//! A text's tokens, one after the other.

ghost use Rattle.std.specs.Prelude.{◌≡◌, ◌≤◌, ◌<◌, ◌+◌, ◌↔◌, false, List, [], drop, length, slice_index, string_bytes, IfErr, IfOk, IsErrOf, IsSome, IsTrue, MatchResult};
ghost use Rattle.sc_text.specs.Characters.{is_letter, quote};
ghost use Rattle.sc_text.specs.Spelling.{IsRefused, Lexeme, Spells, StandInOrder, lexemes_of, max_source_bytes, span_at};
ghost use Rattle.sc_text.specs.Reading.Front as spec;
ghost use Rattle.sc_text.specs.Reading.Answers.{Gives, GivesMarks};

use crate::characters::{escape, is_white_space};
use crate::fault::LexFault;
use crate::scan::{
    closing_quote, comment_length, integer_length, name_ahead, number, unmarked_length,
};
use crate::symbols::{long_symbol, short_symbol};
use crate::token::{Span, Token, TokenKind};
use crate::words::Words;
use std::alloc::Global;
use std::rc::Rc;

/// The greatest number of bytes of a text.
pub const MAX_SOURCE_BYTES: usize = 1_048_576;

/// What begins at one place of a text, with its length in bytes.
#[derive(Drop)]
enum Piece {
    /// White space or a comment.
    Gap { length: usize },
    Token { kind: TokenKind, length: usize },
}

/// The tokens of a text, in order.
///
/// The fault that comes first in the text is answered: `SourceTooLong` at once, and `OutOfMemory`
/// where a growth was refused.
pub fn lex(alloc: Global, text: &str) -> Result<Vec<Token>, LexFault>
    ensures spelled { IfOk result (λ v. Spells text.now (lexemes_of v.items)) }
    ensures slices { IfOk result (λ v. StandInOrder text.now 0 (lexemes_of v.items)) }
    ensures refused { IfErr result (IsRefused text.now) }
    ensures too_long { IsErrOf result LexFault.SourceTooLong ↔ (max_source_bytes < length text.now) }

    // A text that spells some tokens is answered with these, unless memory ran out.
    ensures complete { (ts : List Lexeme) → length text.now ≤ max_source_bytes → Spells text.now ts
        → MatchResult result (λ v. lexemes_of v.items ≡ ts) (λ e. e ≡ LexFault.OutOfMemory) }
{
    if text.len() > MAX_SOURCE_BYTES {
        return Err(LexFault::SourceTooLong);
    }
    let mut tokens = Vec::new(alloc);
    let mut words = Words::new(alloc)?;
    let mut place = 0;
    while place < text.len() {
        if is_white_space(text.as_bytes()[place]) {
            place += 1;
            continue;
        }
        match piece_at(alloc, &mut words, text, place)? {
            Piece::Gap { length } => place += length,
            Piece::Token { kind, length } => {
                let span = span_at(place, length);
                tokens.push(Token { kind, span })?;
                place += length;
            }
        }
    }
    Ok(tokens)
}

/// The span of this length at this place.
fn span_at(place: usize, length: usize) -> Span
    requires { place + length ≤ u32.MAX }
    ensures { result ≡ span_at place length }
{
    Span {
        start: place as u32,
        end: (place + length) as u32,
    }
}

/// What begins at this place of the text.
#[tactic(auto, unfolding(crate::specs::Reading::Front::front))]
fn piece_at(alloc: Global, words: &mut Words, text: &str, place: usize) -> Result<Piece, LexFault>
    requires within { place < length text.now }
    requires fits { length text.now ≤ u32.MAX }
    ensures { Gives (spec.front place (drop place text.now)) result }
{
    let rest = &text.as_bytes()[place..];
    let first = rest[0];
    if is_white_space(first) {
        Ok(Piece::Gap { length: 1 })
    } else if first.is_ascii_alphabetic() {
        word(words, text, place)
    } else if first.is_ascii_digit() {
        integer(rest, place)
    } else if first == b'"' {
        manifest_string(alloc, text, place)
    } else {
        symbol(rest, place)
    }
}

/// The name or the reserved word that the letter at this place begins.
#[tactic(auto, unfolding(crate::specs::Reading::Front::word))]
fn word(words: &mut Words, text: &str, place: usize) -> Result<Piece, LexFault>
    requires within { place < length text.now }
    requires begins { IsTrue (is_letter (slice_index text.now place)) }
    ensures { Gives (spec.word (drop place text.now)) result }
{
    let (_, rest) = text.split_at(place);
    let (length, mixed) = name_ahead(rest.as_bytes());
    let (word, _) = rest.split_at(length);
    let kind = words.token_kind(word, mixed)?;
    Ok(Piece::Token { kind, length })
}

/// The integer at the front of the text, whose place this is.
#[tactic(auto, unfolding(crate::specs::Reading::Front::integer))]
fn integer(text: &[u8], place: usize) -> Result<Piece, LexFault>
    requires { place + length text.now ≤ u32.MAX }
    ensures { Gives (spec.integer place text.now) result }
{
    let length = integer_length(text);
    match number(&text[..length]) {
        Some(value) => Ok(Piece::Token {
            kind: TokenKind::Integer(value),
            length,
        }),
        None => Err(LexFault::IntegerTooLarge {
            span: span_at(place, length),
        }),
    }
}

/// The manifest string that the quote at this place opens.
#[tactic(auto, unfolding(crate::specs::Reading::Front::manifest_string))]
fn manifest_string(alloc: Global, text: &str, place: usize) -> Result<Piece, LexFault>
    requires within { place < length text.now }
    requires opens { slice_index text.now place ≡ quote }
    requires fits { length text.now ≤ u32.MAX }
    ensures { Gives (spec.manifest_string place (drop (place + 1) text.now)) result }
{
    let (_, rest) = text.split_at(place + 1);
    let Some(length) = closing_quote(rest.as_bytes()) else {
        return Err(LexFault::UnclosedString {
            span: span_at(place, 1),
        });
    };
    let (body, _) = rest.split_at(length);
    let value = Rc::new(alloc, marks_read(alloc, body, place + 1)?)?;
    Ok(Piece::Token {
        kind: TokenKind::ManifestString(value),
        length: length + 2,
    })
}

/// The text between the quotes of a manifest string, with its marks read. It begins at this place.
fn marks_read(alloc: Global, text: &str, place: usize) -> Result<String, LexFault>
    requires { place + length text.now ≤ u32.MAX }
    ensures { GivesMarks (spec.marks_read false [] place text.now) result }
{
    let mut value = String::with_capacity(alloc, text.len())?;
    let mut rest = text;
    let mut at = place;
    while !rest.is_empty() {
        let length = unmarked_length(rest.as_bytes());
        if length > 0 {
            let (unmarked, after) = rest.split_at(length);
            value.push_str(unmarked)?;
            rest = after;
            at += length;
        } else {
            let Some(character) = mark(rest.as_bytes()) else {
                return Err(LexFault::BadEscape {
                    span: span_at(at, 1),
                });
            };
            value.push(char::from(character))?;
            let (_, after) = rest.split_at(2);
            rest = after;
            at += 2;
        }
    }
    Ok(value)
}

/// The character that the escape at the front of the text means.
fn mark(text: &[u8]) -> Option<u8>
    ensures value { result ≡ spec.mark_ahead text.now }
    ensures ascii { IsSome result → (1 < length text.now) × (slice_index text.now 1 < 128) }
{
    match text {
        [_, byte, ..] => escape(*byte),
        _ => None,
    }
}

/// The comment or the symbol at the front of the text, whose place this is.
#[tactic(auto, unfolding(crate::specs::Reading::Front::symbol))]
fn symbol(text: &[u8], place: usize) -> Result<Piece, LexFault>
    requires some { 0 < length text.now }
    requires fits { place + length text.now ≤ u32.MAX }
    ensures { Gives (spec.symbol place text.now) result }
{
    let first = text[0];
    let second = if text.len() > 1 { text[1] } else { 0 };
    if first == b'-' && second == b'-' {
        return Ok(Piece::Gap {
            length: 2 + comment_length(&text[2..]),
        });
    }
    let (terminal, length) = match long_symbol(first, second) {
        Some(terminal) => (terminal, 2),
        None => match short_symbol(first) {
            Some(terminal) => (terminal, 1),
            None => {
                return Err(LexFault::BadCharacter {
                    span: span_at(place, 1),
                });
            }
        },
    };
    Ok(Piece::Token {
        kind: TokenKind::Terminal(terminal),
        length,
    })
}
