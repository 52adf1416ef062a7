//! What operations were made of, to be told to people. No operation does anything else for it.

ghost use Rattle.std.specs.Prelude.{◌≡◌, min};

use sc_text::Span;
use sc_tree::{BinaryOperator, UnaryOperator};

/// A name's place in the text, in 8 bytes.
#[derive(Clone, Copy)]
pub struct NameSpan {
    pub start: u32,
    pub end: u32,
}

impl NameSpan {
    /// The place of a name. Places after the first 4 GiB of a text become their end.
    pub fn of(span: Span) -> NameSpan
        ensures start { result.start ≡ min span.start 4294967295 }
        ensures end { result.end ≡ min span.end 4294967295 }
    {
        NameSpan {
            start: span.start,
            end: span.end,
        }
    }

    /// The place as spans have it.
    pub fn span(self) -> Span
        ensures { result ≡ record { start = self.start; end = self.end } }
    {
        Span {
            start: self.start,
            end: self.end,
        }
    }
}

/// What a clause is one of.
#[derive(Clone, Copy)]
pub enum Assertion {
    Precondition,
    Check,
    Postcondition,
}

/// What an operation does at its part of the text.
#[derive(Clone, Copy)]
pub enum SiteKind {
    /// A clause is tested, which may have a tag.
    Clause(Assertion, Option<NameSpan>),
    /// Each clause of the precondition holds.
    Start,
    /// What a clause of the postcondition says `old` of is kept.
    Keep,
    /// A local gets its default.
    Local,
    /// A constant or Current.
    Constant,
    /// An entity of this name is read, or a feature of Current called.
    Name(NameSpan),
    /// Result is read.
    Result,
    /// A feature of this name of a target is called.
    Call(NameSpan),
    Unary(UnaryOperator),
    Binary(BinaryOperator),
    ObjectTest,
    /// The value that was kept for an `old` is read.
    Old,
    /// A variable gets a value.
    Assignment,
    /// A variable gets the object that was created.
    Created,
    Creation,
    Print,
    /// The condition of an `if`, or of an `elseif`.
    Condition,
    /// The end of the instructions under a condition, or the way to the `until` of a loop.
    Jump,
    /// The `until` of a loop.
    Until,
    /// A separate block begins.
    Block,
    /// A separate block ends.
    BlockEnd,
    /// The routine ends.
    End,
}

/// A part of the text that an operation was made of: its place and its kind.
#[derive(Clone, Copy)]
pub struct TextSite {
    pub span: Span,
    pub kind: SiteKind,
}

const _: () = prove!(std::mem::size_of::<TextSite>() <= 32);
