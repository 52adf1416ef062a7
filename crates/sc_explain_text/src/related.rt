//! Another part of the text.

use sc_text::Span;

/// A part of the text that a fault goes with, and what it has to do with it.
#[derive(Clone, Copy)]
pub struct Related {
    pub what: &'static str,
    pub span: Span,
}
