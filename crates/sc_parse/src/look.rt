//! Looks at the next tokens, which read none of them.

ghost use Rattle.std.specs.Prelude.{◌≡◌};
ghost use Rattle.sc_text.specs.Kind.{kind_of, kinds_of};
ghost use Rattle.sc_parse.specs.Reading.Reads.{ends_note};
ghost use Rattle.sc_parse.specs.Reading.Looks as spec;
ghost use Rattle.sc_tree.specs.Internal.Reading.Looks as looks;
ghost use Rattle.sc_parse.specs.Reading.Classes as classes;
ghost use Rattle.sc_tree.specs.Grammar.Assertions as assertions;
ghost use Rattle.sc_parse.specs.Reading.Instructions as instructions;

use crate::cursor::Parser;
use sc_text::{Terminal, Token, TokenKind};

/// Whether the first of the tokens is this terminal.
#[tactic(auto, unfolding(sc_tree::specs::Internal::Reading::Looks::same_terminal))]
pub fn begins_with(tokens: &[Token], terminal: Terminal) -> bool
    ensures { result ≡ looks.sees terminal (kinds_of tokens.now) }
{
    match tokens.first() {
        Some(
            Token {
                kind: TokenKind::Terminal(next),
                ..
            },
        ) => *next == terminal,
        _ => false,
    }
}

/// Whether the first of the tokens is the name that is spelled so.
pub fn is_word(tokens: &[Token], word: &str) -> bool
    ensures { result ≡ looks.sees_word word.now (kinds_of tokens.now) }
{
    match tokens.first() {
        Some(
            Token {
                kind: TokenKind::Name(text),
                ..
            },
        ) => text.as_str() == word,
        _ => false,
    }
}

/// Whether the first of the tokens is a manifest string.
fn is_text(tokens: &[Token]) -> bool
    ensures { result ≡ looks.text_ahead (kinds_of tokens.now) }
{
    match tokens.first() {
        Some(
            Token {
                kind: TokenKind::ManifestString(_),
                ..
            },
        ) => true,
        _ => false,
    }
}

/// The tokens after the first.
fn past(tokens: &[Token]) -> &[Token]
    ensures { result.now ≡ spec.rest_past tokens.now }
{
    match tokens.split_first() {
        Some((_, rest)) => rest,
        None => tokens,
    }
}

/// Whether a note before a class or, if that is not meant, before its `end` ends at the token.
pub fn ends_note(token: &Token, is_first: bool) -> bool
    ensures { result ≡ ends_note is_first (kind_of token.now.kind) }
{
    match token.kind {
        TokenKind::Terminal(terminal) => match terminal {
            Terminal::Deferred | Terminal::Expanded | Terminal::Frozen | Terminal::Class =>
                is_first,
            Terminal::End => !is_first,
            _ => false,
        },
        _ => false,
    }
}

/// Whether the terminal would go on with an expression before it, and might begin one.
fn joins(terminal: Terminal) -> bool
    ensures { result ≡ assertions.goes_on_by terminal }
{
    matches!(
        terminal,
        Terminal::OpenParenthesis | Terminal::Plus | Terminal::Minus
    )
}

impl<'a> Parser<'a> {
    ghost use Rattle.sc_parse.specs.Reading.Reads.{ahead};

    /// Whether no token is left.
    pub fn is_done(&self) -> bool
        ensures { result ≡ classes.is_done (ahead self.now) }
    {
        match self.rest.first() {
            Some(_) => false,
            None => true,
        }
    }

    /// Whether the next token is a name.
    pub fn sees_name(&self) -> bool
        ensures { result ≡ spec.name_ahead (ahead self.now) }
    {
        match self.rest.first() {
            Some(
                Token {
                    kind: TokenKind::Name(_),
                    ..
                },
            ) => true,
            _ => false,
        }
    }

    /// The integer that the next token is.
    pub fn integer(&self) -> Option<i64>
        ensures { result ≡ spec.integer_ahead (ahead self.now) }
    {
        match self.rest.first() {
            Some(
                Token {
                    kind: TokenKind::Integer(value),
                    ..
                },
            ) => Some(*value),
            _ => None,
        }
    }

    /// Whether an assignment begins here.
    pub fn assigns(&self) -> bool
        ensures { result ≡ instructions.assigns (ahead self.now) }
    {
        (self.sees_name() || self.sees(Terminal::Result))
            && begins_with(past(self.rest), Terminal::Becomes)
    }

    /// Whether `print` of a manifest string begins here.
    pub fn prints(&self) -> bool
        ensures { result ≡ instructions.prints (ahead self.now) }
    {
        let behind = past(self.rest);
        is_word(self.rest, "print")
            && begins_with(behind, Terminal::OpenParenthesis)
            && is_text(past(behind))
    }

    /// Whether an instruction begins here.
    pub fn begins_instruction(&self) -> bool
        ensures { result ≡ spec.begins_instr (ahead self.now) }
    {
        match self.rest.first() {
            None => false,
            Some(token) => match token.kind {
                TokenKind::Name(_) => true,
                TokenKind::Terminal(terminal) => matches!(
                    terminal,
                    Terminal::Result
                        | Terminal::Current
                        | Terminal::Create
                        | Terminal::If
                        | Terminal::From
                        | Terminal::Check
                        | Terminal::Separate
                ),
                _ => false,
            },
        }
    }

    /// Whether an expression begins here.
    pub fn begins_expression(&self) -> bool
        ensures { result ≡ spec.begins_expr (ahead self.now) }
    {
        match self.rest.first() {
            None => false,
            Some(token) => match token.kind {
                TokenKind::Name(_) => true,
                TokenKind::Integer(_) => true,
                TokenKind::ManifestString(_) => false,
                TokenKind::Terminal(terminal) => matches!(
                    terminal,
                    Terminal::True
                        | Terminal::False
                        | Terminal::Void
                        | Terminal::Current
                        | Terminal::Result
                        | Terminal::Attached
                        | Terminal::OpenParenthesis
                        | Terminal::Not
                        | Terminal::Old
                        | Terminal::Plus
                        | Terminal::Minus
                ),
            },
        }
    }

    /// Whether the next token would go on with an expression before it, and might begin one.
    pub fn goes_on(&self) -> bool
        ensures { result ≡ spec.goes_on (ahead self.now) }
    {
        match self.rest.first() {
            Some(
                Token {
                    kind: TokenKind::Terminal(terminal),
                    ..
                },
            ) => joins(*terminal),
            _ => false,
        }
    }

    /// Whether the part of a routine after its result type begins here.
    pub fn begins_routine(&self) -> bool
        ensures { result ≡ classes.begins_routine (ahead self.now) }
    {
        self.sees(Terminal::Is)
            || self.sees(Terminal::Require)
            || self.sees(Terminal::Local)
            || self.sees(Terminal::Do)
    }

    /// Whether a note begins here.
    pub fn sees_note(&self) -> bool
        ensures { result ≡ spec.sees_note (ahead self.now) }
    {
        self.sees(Terminal::Note) || self.sees(Terminal::Indexing)
    }
}
