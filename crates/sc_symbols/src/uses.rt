//! The symbol at an offset of a text, and the places at which a symbol is written.

ghost use Rattle.std.specs.Prelude.{◌≡◌, IfOk, OnOk};
ghost use Rattle.sc_symbols.specs.Uses as spec;

use crate::symbol::Mention;
use sc_text::Span;
use std::alloc::{AllocError, Global};

/// Whether the offset is in the place or right after it.
fn touches(offset: u32, span: Span) -> bool
    ensures { result ≡ spec.touches offset span }
{
    span.start <= offset && offset <= span.end
}

/// The name at this offset in bytes, or right before it, with what it means: the first of these that is there.
pub fn symbol_at(mentions: &[Mention], offset: u32) -> Option<Mention>
    ensures { result ≡ spec.mention_at offset mentions.now }
{
    for mention in mentions {
        if touches(offset, mention.span) {
            return Some(*mention);
        }
    }
    None
}

/// Whether both are one place.
pub fn is_same_span(one: Span, other: Span) -> bool
    ensures { result ≡ spec.is_same_span one other }
{
    one.start == other.start && one.end == other.end
}

/// Whether the place is one of these.
fn is_among(span: Span, spans: &[Span]) -> bool
    ensures { result ≡ spec.is_among span spans.now }
{
    for other in spans {
        if is_same_span(span, *other) {
            return true;
        }
    }
    false
}

/// Adds the place of a name that means the symbol with this origin, if it isn't among these yet.
fn add_use(origin: Span, mention: &Mention, uses: &mut Vec<Span>) -> Result<(), AllocError>
    ensures { OnOk result (uses.new.items ≡ spec.with_use origin uses.old.items mention.now) }
{
    if is_same_span(mention.origin, origin) && !is_among(mention.span, uses) {
        uses.push(mention.span)?;
    }
    Ok(())
}

/// The places at which the symbol with this origin is written, its declarations among them: each once, in the order of
/// these names. All versions of a feature are one symbol.
///
/// # Errors
///
/// Memory ran out.
pub fn uses_of(alloc: Global, mentions: &[Mention], origin: Span) -> Result<Vec<Span>, AllocError>
    ensures { IfOk result (λ uses. uses.items ≡ spec.uses_of origin mentions.now) }
{
    let mut uses = Vec::new(alloc);
    for mention in mentions {
        add_use(origin, mention, &mut uses)?;
    }
    Ok(uses)
}
