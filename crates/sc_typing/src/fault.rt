//! Why a system is refused.

ghost use Rattle.std.specs.Prelude.{◌≡◌};
ghost use Rattle.sc_rules.specs.Judging as judging;
ghost use Rattle.sc_typing.specs.declared.fault.CheckFault.TheVariants.{OutOfMemory, Refused};
ghost use Rattle.sc_typing.specs.Judges.{Passes};

use sc_rules::{Fault, Rule};
use sc_text::Span;
use std::alloc::{AllocError, AllocFailed};
use thiserror::Error;

/// Why a system is refused.
#[derive(Debug, Drop, Error)]
pub enum CheckFault {
    /// A rule fails, and where.
    #[error("a rule fails")]
    Refused(Fault),
    /// No memory was left for the check.
    #[error("out of memory")]
    OutOfMemory,
}

impl From<AllocError> for CheckFault {
    ghost from_gives = { λ _ e. e ≡ OutOfMemory };

    fn from(_error: AllocError) -> CheckFault {
        CheckFault::OutOfMemory
    }
}

impl<T: Drop> From<AllocFailed<T>> for CheckFault {
    ghost from_gives = { λ _ e. e ≡ OutOfMemory };

    fn from(_error: AllocFailed<T>) -> CheckFault {
        CheckFault::OutOfMemory
    }
}

/// The fault that a rule fails there.
pub fn refusal(rule: Rule, span: Span) -> CheckFault
    ensures { result ≡ Refused (judging.fault rule span) }
{
    CheckFault::Refused(Fault { rule, span })
}

/// The rule fails unless the test holds.
pub fn required(holds: bool, rule: Rule, span: Span) -> Result<(), CheckFault>
    ensures { Passes (judging.required holds rule span) result }
{
    if holds {
        Ok(())
    } else {
        Err(refusal(rule, span))
    }
}
