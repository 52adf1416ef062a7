//! Why nothing is made of a source text.

ghost use Rattle.std.specs.Prelude.{◌≡◌};
ghost use Rattle.sc_frontend.specs.Rejection as spec;

use sc_check::CheckFault;
use sc_class::ClassFault;
use sc_lower::Lowering;
use sc_parse::ParseFault;
use sc_rules::Fault;
use sc_text::LexFault;
use std::alloc::AllocError;
use thiserror::Error;

/// Why nothing is made of a source text.
#[derive(Debug, Drop, Error)]
pub enum Rejection {
    /// It spells no tokens.
    #[error("{0}")]
    Text(LexFault),
    /// Its tokens spell no system, or none that is nested at most 64 deep.
    #[error("{0}")]
    Grammar(ParseFault),
    /// Something is at fault in the classes of its system.
    #[error("{0}")]
    Classes(ClassFault),
    /// A rule fails in its system.
    #[error("a rule fails at {}", .0.span.start)]
    Rules(Fault),
    /// Its system is sound, and its code has more instructions than a program may have.
    #[error("the code has more instructions than a program may have")]
    CodeTooLong,
    #[error("out of memory")]
    OutOfMemory,
}

impl From<AllocError> for Rejection {
    ghost from_gives = { λ _ rejection. rejection ≡ spec.out_of_memory };

    fn from(_error: AllocError) -> Rejection {
        Rejection::OutOfMemory
    }
}

impl From<LexFault> for Rejection {
    ghost from_gives = { λ fault rejection. rejection ≡ spec.of_text fault };

    fn from(fault: LexFault) -> Rejection {
        match fault {
            LexFault::OutOfMemory => Rejection::OutOfMemory,
            _ => Rejection::Text(fault),
        }
    }
}

impl From<ParseFault> for Rejection {
    ghost from_gives = { λ fault rejection. rejection ≡ spec.of_tokens fault };

    fn from(fault: ParseFault) -> Rejection {
        match fault {
            ParseFault::OutOfMemory => Rejection::OutOfMemory,
            _ => Rejection::Grammar(fault),
        }
    }
}

impl From<ClassFault> for Rejection {
    ghost from_gives = { λ fault rejection. rejection ≡ spec.of_classes fault };

    fn from(fault: ClassFault) -> Rejection {
        match fault {
            ClassFault::OutOfMemory => Rejection::OutOfMemory,
            _ => Rejection::Classes(fault),
        }
    }
}

impl<'s> From<Lowering<'s>> for Rejection {
    ghost from_gives = { λ fault rejection. rejection ≡ spec.of_code fault };

    fn from(fault: Lowering<'s>) -> Rejection {
        match fault {
            Lowering::CodeTooLong(_) => Rejection::CodeTooLong,
            Lowering::OutOfMemory(_) => Rejection::OutOfMemory,
        }
    }
}

impl From<CheckFault> for Rejection {
    ghost from_gives = { λ fault rejection. rejection ≡ spec.of_system fault };

    fn from(fault: CheckFault) -> Rejection {
        match fault {
            CheckFault::Refused(fault) => Rejection::Rules(fault),
            CheckFault::OutOfMemory => Rejection::OutOfMemory,
        }
    }
}
