//! Changes of a text.

ghost use Rattle.std.specs.Prelude.{◌≡◌, IfOk, string_bytes};
ghost use Rattle.sc_documents.specs.Changes as spec;

use crate::position::{Range, offset_of};
use std::alloc::{AllocError, Global};

/// The text in which `new` stands in place of what is in the range. If the range ends before it begins, `new` stands where it
/// begins.
pub fn replaced(alloc: Global, text: &str, range: Range, new: &str) -> Result<String, AllocError>
    ensures { IfOk result (λ changed. string_bytes changed ≡ spec.replaced text.now range new.now) }
{
    let start = offset_of(text, range.start);
    let end = offset_of(text, range.end);
    let (before, behind) = text.split_at(start);
    let after = if start < end {
        text.split_at(end).1
    } else {
        behind
    };
    let mut changed = String::from_str(alloc, before)?;
    changed.push_str(new)?;
    changed.push_str(after)?;
    Ok(changed)
}
