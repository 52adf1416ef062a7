//! Why a system isn't lowered.

ghost use Rattle.std.specs.Prelude.{◌≡◌};
ghost use Rattle.sc_lower.specs.declared.refusal.LoweringFault.TheVariants.{OutOfMemory};

use std::alloc::{AllocError, AllocFailed};

/// Why a system isn't lowered.
#[derive(Clone, Copy)]
pub enum LoweringFault {
    /// No memory was left.
    OutOfMemory,
    /// The code has more instructions than it may have.
    CodeTooLong,
}

impl From<AllocError> for LoweringFault {
    ghost from_gives = { λ _ e. e ≡ OutOfMemory };

    fn from(_error: AllocError) -> LoweringFault {
        LoweringFault::OutOfMemory
    }
}

impl<T: Drop> From<AllocFailed<T>> for LoweringFault {
    ghost from_gives = { λ _ e. e ≡ OutOfMemory };

    fn from(_error: AllocFailed<T>) -> LoweringFault {
        LoweringFault::OutOfMemory
    }
}
