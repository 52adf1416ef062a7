//! Lists that grow by what was read, and lists that take no more room than they need.

ghost use Rattle.std.specs.Prelude.{◌≡◌, ◌∷◌, ◌++◌, [], IfOk};

use std::alloc::{AllocError, Global};

/// A list of one item.
pub fn alone<T: Drop>(alloc: Global, item: T) -> Result<Vec<T>, AllocError>
    ensures { IfOk result (λ list. list.items ≡ item ∷ []) }
{
    let mut list = Vec::new(alloc);
    list.push(item)?;
    Ok(list)
}

/// The list with the item at its end.
pub fn with_last<T: Drop>(list: Vec<T>, item: T) -> Result<Vec<T>, AllocError>
    ensures { IfOk result (λ longer. longer.items ≡ list.items ++ item ∷ []) }
{
    let mut longer = list;
    longer.push(item)?;
    Ok(longer)
}

/// The list with all of the others at its end.
pub fn with_all<T: Drop>(list: Vec<T>, others: Vec<T>) -> Result<Vec<T>, AllocError>
    ensures { IfOk result (λ longer. longer.items ≡ list.items ++ others.items) }
{
    let mut longer = list;
    let mut others = others;
    longer.append(&mut others)?;
    Ok(longer)
}

/// The list in no more room than it needs. It keeps its own room if no smaller one can be had.
pub fn fitted<T>(list: Vec<T>) -> Vec<T>
    ensures { result.items ≡ list.items }
{
    let mut list = list;
    list.shrink_to_fit();
    list
}
