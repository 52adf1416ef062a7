//! The special symbols.

ghost use Rattle.std.specs.Prelude.{◌≡◌};
ghost use Rattle.sc_text.specs.Words.{long_symbol, short_symbol};

use crate::token::Terminal;

/// The special symbol of these two characters.
#[tactic(auto, unfolding(crate::specs::Words::long_symbol))]
pub fn long_symbol(first: u8, second: u8) -> Option<Terminal>
    ensures { result ≡ long_symbol first second }
{
    match (first, second) {
        (b':', b'=') => Some(Terminal::Becomes),
        (b'/', b'=') => Some(Terminal::NotEqual),
        (b'<', b'=') => Some(Terminal::LessEqual),
        (b'>', b'=') => Some(Terminal::GreaterEqual),
        (b'/', b'/') => Some(Terminal::Quotient),
        (b'\\', b'\\') => Some(Terminal::Remainder),
        _ => None,
    }
}

/// The special symbol of this one character.
#[tactic(auto, unfolding(crate::specs::Words::short_symbol))]
pub fn short_symbol(first: u8) -> Option<Terminal>
    ensures { result ≡ short_symbol first }
{
    match first {
        b'.' => Some(Terminal::Dot),
        b',' => Some(Terminal::Comma),
        b':' => Some(Terminal::Colon),
        b';' => Some(Terminal::Semicolon),
        b'(' => Some(Terminal::OpenParenthesis),
        b')' => Some(Terminal::CloseParenthesis),
        b'{' => Some(Terminal::OpenBrace),
        b'}' => Some(Terminal::CloseBrace),
        b'?' => Some(Terminal::Question),
        b'!' => Some(Terminal::Exclamation),
        b'=' => Some(Terminal::Equal),
        b'<' => Some(Terminal::Less),
        b'>' => Some(Terminal::Greater),
        b'+' => Some(Terminal::Plus),
        b'-' => Some(Terminal::Minus),
        b'*' => Some(Terminal::Times),
        _ => None,
    }
}
