//! What a source text is read as: tokens, each with its place.

use std::rc::Rc;

/// A range of bytes of the source text, from `start` up to but not including `end`.
#[derive(Clone, Copy, Debug, PartialEq, Eq)]
pub struct Span {
    pub start: u32,
    pub end: u32,
}

/// A terminal symbol of the grammar that is spelled in one way alone: a reserved word, in any letter
/// case, or a special symbol (ECMA-367, 8.32).
#[derive(Clone, Copy, Debug, PartialEq, Eq)]
pub enum Terminal {
    // Reserved words that the grammar uses.
    And,
    As,
    Attached,
    Check,
    Class,
    Create,
    Current,
    Deferred,
    Detachable,
    Do,
    Else,
    Elseif,
    End,
    Ensure,
    Expanded,
    False,
    Feature,
    From,
    Frozen,
    If,
    Implies,
    Indexing,
    Inherit,
    Invariant,
    Is,
    Local,
    Loop,
    Not,
    Note,
    Old,
    Or,
    Redefine,
    Require,
    Result,
    Separate,
    Then,
    True,
    Until,
    Void,
    Xor,

    // Words that are reserved and have no use in this language.
    Across,
    Agent,
    Alias,
    Assign,
    Debug,
    Export,
    External,
    Inspect,
    Like,
    Once,
    Rename,
    Rescue,
    Retry,
    Select,
    Undefine,
    Variant,
    When,

    // Special symbols.
    Becomes,
    NotEqual,
    LessEqual,
    GreaterEqual,
    Quotient,
    Remainder,
    Dot,
    Comma,
    Colon,
    Semicolon,
    OpenParenthesis,
    CloseParenthesis,
    OpenBrace,
    CloseBrace,
    Question,
    Exclamation,
    Equal,
    Less,
    Greater,
    Plus,
    Minus,
    Times,
}

/// What a token is.
#[derive(Drop)]
pub enum TokenKind {
    /// An identifier, in lower case. Tokens with the same identifier mostly share it in memory.
    Name(Rc<String>),
    /// The value of an integer, which is not negative.
    Integer(i64),
    /// A manifest string, with its marks read.
    ManifestString(Rc<String>),
    /// A reserved word or a special symbol.
    Terminal(Terminal),
}

/// A token and its place in the source text.
#[derive(Drop)]
pub struct Token {
    pub kind: TokenKind,
    pub span: Span,
}
