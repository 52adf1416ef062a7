//! The tokens before a place of a text.

use sc_text::{LexFault, Span, Terminal, Token, TokenKind, lex};
use std::alloc::{AllocError, Global};

/// What a call begins with, or continues with after a dot.
#[derive(Clone, Copy)]
pub enum Link {
    Current,
    Result,
    /// The name at this place.
    Name(Span),
}

/// A chain of calls: where it begins, or the `create` before it if it is there, and what it ends with.
#[derive(Clone, Copy)]
pub struct Chain {
    pub begin: u32,
    pub last: Link,
    pub is_created: bool,
}

/// The tokens of a text, if it has some.
pub fn lexed(alloc: Global, text: &str) -> Result<Option<Vec<Token>>, AllocError> {
    match lex(alloc, text) {
        Ok(tokens) => Ok(Some(tokens)),
        Err(LexFault::OutOfMemory) => Err(AllocError),
        Err(_) => Ok(None),
    }
}

/// Whether a token is this word or symbol.
pub fn is_terminal(token: &Token, terminal: Terminal) -> bool {
    match &token.kind {
        TokenKind::Terminal(found) => *found == terminal,
        _ => false,
    }
}

/// The tokens after the last one that is this word; none if it isn't there.
pub fn after_last(tokens: &[Token], word: Terminal) -> &[Token] {
    let mut found: &[Token] = &[];
    let mut rest = tokens;
    while let [token, after @ ..] = rest {
        if is_terminal(token, word) {
            found = after;
        }
        rest = after;
    }
    found
}

/// The tokens before the actuals in parentheses that these end with; all if they end otherwise.
fn before_actuals(tokens: &[Token]) -> &[Token] {
    let mut depth = 0usize;
    let mut rest = tokens;
    while let [before @ .., last] = rest {
        if is_terminal(last, Terminal::CloseParenthesis) {
            depth = depth.saturating_add(1);
        } else if depth == 0 {
            return rest;
        } else if is_terminal(last, Terminal::OpenParenthesis) {
            depth = depth.saturating_sub(1);
        }
        rest = before;
        if depth == 0 {
            return rest;
        }
    }
    rest
}

/// What a token is in a chain of calls, if it can be in one without actuals.
fn link_of(token: &Token) -> Option<Link> {
    match &token.kind {
        TokenKind::Name(_) => Some(Link::Name(token.span)),
        TokenKind::Terminal(Terminal::Current) => Some(Link::Current),
        TokenKind::Terminal(Terminal::Result) => Some(Link::Result),
        _ => None,
    }
}

/// The chain of calls that these tokens end with, if they end with one.
pub fn chain_at_end(tokens: &[Token]) -> Option<Chain> {
    let mut rest = tokens;
    let mut last = None;
    for _ in 0..tokens.len() {
        let [before @ .., token] = before_actuals(rest) else {
            return None;
        };
        let link = link_of(token)?;
        let last_link = last.unwrap_or(link);
        match before {
            [others @ .., dot] if is_terminal(dot, Terminal::Dot) => rest = others,
            _ => return Some(chain_from(before, token.span.start, last_link)),
        }
        last = Some(last_link);
    }
    None
}

/// The chain of calls after these tokens.
fn chain_from(before: &[Token], start: u32, last: Link) -> Chain {
    match before {
        [.., create] if is_terminal(create, Terminal::Create) => Chain {
            begin: create.span.start,
            last,
            is_created: true,
        },
        _ => Chain {
            begin: start,
            last,
            is_created: false,
        },
    }
}

/// How many bytes of a word are at the end of a text.
pub fn word_before(text: &[u8]) -> usize {
    let mut rest = text;
    while let [before @ .., last] = rest {
        if !is_of_word(*last) {
            break;
        }
        rest = before;
    }
    text.len().saturating_sub(rest.len())
}

/// How many bytes of a word are at the beginning of a text.
pub fn word_after(text: &[u8]) -> usize {
    let mut rest = text;
    while let [first, after @ ..] = rest {
        if !is_of_word(*first) {
            break;
        }
        rest = after;
    }
    text.len().saturating_sub(rest.len())
}

/// Whether a name or a number can have this byte.
fn is_of_word(byte: u8) -> bool {
    byte.is_ascii_alphanumeric() || byte == b'_'
}
