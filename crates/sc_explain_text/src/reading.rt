//! A text read again for what is said about it. Its faults were reported before; running out of memory is reported
//! here.

use crate::lines::Lines;
use sc_parse::{ParseFault, parse};
use sc_text::{LexFault, Span, Token, lex};
use sc_tree::System;
use std::alloc::{AllocError, Global};

/// The tokens of a text, if it has some. The lines lack something where memory runs out.
pub fn tokens_of(lines: &mut Lines, text: &str) -> Option<Vec<Token>> {
    match lex(lines.alloc(), text) {
        Ok(tokens) => Some(tokens),
        Err(LexFault::OutOfMemory) => {
            lines.lack();
            None
        }
        Err(_) => None,
    }
}

/// The system of a text, if it spells one.
pub fn system_of(alloc: Global, text: &str) -> Result<Option<System>, AllocError> {
    match lex(alloc, text) {
        Ok(tokens) => parsed(alloc, &tokens),
        Err(LexFault::OutOfMemory) => Err(AllocError),
        Err(_) => Ok(None),
    }
}

/// The system of these tokens, if they spell one.
fn parsed(alloc: Global, tokens: &[Token]) -> Result<Option<System>, AllocError> {
    match parse(alloc, tokens) {
        Ok(system) => Ok(Some(system)),
        Err(ParseFault::OutOfMemory) => Err(AllocError),
        Err(_) => Ok(None),
    }
}

/// The text of a part; nothing if it begins or ends inside a character.
pub fn word_at(text: &str, span: Span) -> &str {
    text.get(span.start as usize..span.end as usize)
        .unwrap_or("")
}

/// The first `count` bytes of a text; nothing if that is inside a character or after its end.
pub fn first_bytes(text: &str, count: usize) -> &str {
    text.get(..count).unwrap_or("")
}
