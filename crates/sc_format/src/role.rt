//! What a token does to the layout.

ghost use Rattle.std.specs.Prelude.{◌≡◌};
ghost use Rattle.sc_format.specs.Layout as spec;
ghost use Rattle.sc_text.specs.Kind.{kind_of};

use sc_text::{Terminal, TokenKind};

/// What a token does to the layout.
#[derive(Clone, Copy)]
pub enum Role {
    /// Begins a part of a class: `inherit`, `feature`, `note` or `indexing`.
    Section,
    /// `invariant`.
    Invariant,
    /// `class`, or the word before it.
    Class,
    Redefine,
    /// Begins a part of a routine: `require`, `local` or `ensure`.
    Part,
    Do,
    End,
    If,
    /// Opens a block with its own line: `from` or `check`.
    Block,
    Separate,
    Create,
    Elseif,
    Else,
    Then,
    /// Goes on with a loop: `until` or `loop`.
    Middle,
    /// `and` or `or`, which `then` or `else` may follow.
    Connective,
    OpenParenthesis,
    CloseParenthesis,
    OpenBrace,
    CloseBrace,
    /// What comes close to the token before it and to the one after it: `.`.
    Dot,
    /// What comes close to the token after it: `?` or `!`.
    Sign,
    Semicolon,
    /// `,` or `:`.
    Separator,
    Less,
    Greater,
    /// May end an expression, a type or a list, and may begin one.
    Operand,
    /// May begin an expression, and ends none.
    Prefix,
    Operator,
}

/// What a token of this kind does to the layout.
pub fn role_of(kind: &TokenKind) -> Role
    ensures { result ≡ spec.role_of (kind_of kind.now) }
{
    match kind {
        TokenKind::Terminal(terminal) => role_of_terminal(*terminal),
        _ => Role::Operand,
    }
}

/// What a reserved word or a special symbol does to the layout.
fn role_of_terminal(terminal: Terminal) -> Role
    ensures { result ≡ spec.role_of_terminal terminal }
{
    match terminal {
        Terminal::Inherit | Terminal::Feature | Terminal::Note | Terminal::Indexing =>
            Role::Section,
        Terminal::Invariant => Role::Invariant,
        Terminal::Class | Terminal::Deferred | Terminal::Expanded | Terminal::Frozen => Role::Class,
        Terminal::Redefine => Role::Redefine,
        Terminal::Require | Terminal::Local | Terminal::Ensure => Role::Part,
        Terminal::Do => Role::Do,
        Terminal::End => Role::End,
        Terminal::If => Role::If,
        Terminal::From | Terminal::Check => Role::Block,
        Terminal::Separate => Role::Separate,
        Terminal::Create => Role::Create,
        Terminal::Elseif => Role::Elseif,
        Terminal::Else => Role::Else,
        Terminal::Then => Role::Then,
        Terminal::Until | Terminal::Loop => Role::Middle,
        Terminal::And | Terminal::Or => Role::Connective,
        Terminal::OpenParenthesis => Role::OpenParenthesis,
        Terminal::CloseParenthesis => Role::CloseParenthesis,
        Terminal::OpenBrace => Role::OpenBrace,
        Terminal::CloseBrace => Role::CloseBrace,
        Terminal::Dot => Role::Dot,
        Terminal::Question | Terminal::Exclamation => Role::Sign,
        Terminal::Semicolon => Role::Semicolon,
        Terminal::Comma | Terminal::Colon => Role::Separator,
        Terminal::Less => Role::Less,
        Terminal::Greater => Role::Greater,
        Terminal::Current | Terminal::Result | Terminal::True | Terminal::False | Terminal::Void =>
            { Role::Operand }
        Terminal::Not | Terminal::Old | Terminal::Attached => Role::Prefix,
        _ => Role::Operator,
    }
}
