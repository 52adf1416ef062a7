//! Lists that grow at their end.

ghost use Rattle.std.specs.Prelude.{◌≡◌, ◌++◌, [], ◌∷◌, Some, IfOk, OnErr, OnOk, slice_get};
ghost use Rattle.sc_lower.specs.Growing.{Extends};

use std::alloc::AllocError;

/// Adds an item, and answers its number.
pub fn add<T: Drop>(items: &mut Vec<T>, item: T) -> Result<usize, AllocError>
    ensures added { IfOk result (λ number. slice_get items.new.items number ≡ Some item) }
    ensures kept { OnOk result (Extends items.old.items items.new.items) }
    ensures one_more { OnOk result (items.new.items ≡ items.old.items ++ item ∷ []) }
    ensures unchanged { OnErr result (items.new.items ≡ items.old.items) }
{
    let number = items.len();
    items.push(item)?;
    Ok(number)
}
