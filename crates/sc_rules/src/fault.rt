//! Why a system is refused.

use crate::rule::Rule;
use sc_text::Span;

/// A rule that fails, and where.
#[derive(Clone, Copy, Debug)]
pub struct Fault {
    /// The rule that fails.
    pub rule: Rule,
    /// The whole part of the text that is at fault.
    pub span: Span,
}
