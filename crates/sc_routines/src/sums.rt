//! Sums that may not fit.

ghost use Rattle.std.specs.Prelude.{◌≡◌, ◌+◌, IfOk};

use std::alloc::AllocError;

/// The sum. One that doesn't fit has as little memory as any list that is so long.
pub fn sum(one: usize, other: usize) -> Result<usize, AllocError>
    ensures { IfOk result (λ total. total ≡ one + other) }
{
    one.checked_add(other).ok_or(AllocError)
}
