//! What is warned of, and where.

use sc_text::Span;

/// What is warned of.
#[derive(Clone, Copy, Debug)]
pub enum WarningKind {
    /// No expression of the routine is this local, and nothing is created in it.
    UnreadLocal,
    /// A condition or a clause has neither a name nor a call in it.
    ConstantCondition,
    /// A clause of a `check` is `False`.
    CheckFalse,
    /// A clause of a `require` asks formals whose handlers each caller in the text has reserved.
    NeverWaits,
}

impl WarningKind {
    /// One sentence for people.
    pub fn message(self) -> &'static str {
        match self {
            WarningKind::UnreadLocal => "this local is never read",
            WarningKind::ConstantCondition => "this condition is constant",
            WarningKind::CheckFalse => "this check always fails",
            WarningKind::NeverWaits => {
                "this clause is never waited for: each caller has reserved the handler that it asks"
            }
        }
    }
}

/// Something that is hardly meant, and the part of the text that it is about.
#[derive(Clone, Copy, Debug)]
pub struct Warning {
    /// What is warned of.
    pub kind: WarningKind,
    /// The name of the local, the condition, or the clause's expression.
    pub span: Span,
}
