//! Numbers that may not fit.

ghost use Rattle.std.specs.Prelude.{◌≡◌, ◌≤◌, IfOk};

use std::alloc::AllocError;

/// The number, if it fits 32 bits. If it doesn't, memory would run out for any list of that length.
pub fn within_32_bits(number: usize) -> Result<u32, AllocError>
    ensures same { IfOk result (λ same. same ≡ number) }
    ensures fits { IfOk result (λ same. same ≤ 4294967295) }
{
    if number > u32::MAX as usize {
        Err(AllocError)
    } else {
        Ok(number as u32)
    }
}
