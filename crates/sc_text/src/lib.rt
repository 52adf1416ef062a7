//! Tokens of Eiffel source text: names, integers, manifest strings, reserved words and symbols, each with its place
//! (ECMA-367, 8.32). `lex` returns the tokens that a text spells, or the first fault in it. What it means for a text
//! to spell tokens is in `specs/Spelling`.
#![tactic(auto)]

mod characters;
mod fault;
mod laws;
mod lexer;
mod reserved_words;
mod scan;
mod symbols;
mod token;
mod words;

pub use fault::LexFault;
pub use laws::{no_spelling_of_faults, one_fault, one_spelling};
pub use lexer::{MAX_SOURCE_BYTES, lex};
pub use token::{Span, Terminal, Token, TokenKind};
