//! Why tokens are refused.

ghost use Rattle.std.specs.Prelude.{◌≡◌};
ghost use Rattle.sc_parse.specs.declared.fault.ParseFault.TheVariants.{OutOfMemory};

use sc_text::Span;
use std::alloc::{AllocError, AllocFailed};
use thiserror::Error;

/// Why there is no tree of the tokens, and the token that is at fault: nothing, at the end of the last
/// one, if what is at fault is that no more follow.
#[derive(Clone, Copy, Debug, PartialEq, Eq, Error)]
pub enum ParseFault {
    /// P1: the tokens spell no system, and none begins with the tokens up to the one at `span`.
    #[error("no system goes on with the token at {}", .span.start)]
    NotInGrammar { span: Span },
    /// P2: the tokens spell no system of nesting at most 64, and none begins with the tokens up to the
    /// one at `span`.
    #[error("the token at {} is nested too deep", .span.start)]
    TooDeep { span: Span },
    /// P9: no memory was left for the tree.
    #[error("out of memory")]
    OutOfMemory,
}

impl From<AllocError> for ParseFault {
    ghost from_gives = { λ _ e. e ≡ OutOfMemory };

    fn from(_error: AllocError) -> ParseFault {
        ParseFault::OutOfMemory
    }
}

impl<T: Drop> From<AllocFailed<T>> for ParseFault {
    ghost from_gives = { λ _ e. e ≡ OutOfMemory };

    fn from(_error: AllocFailed<T>) -> ParseFault {
        ParseFault::OutOfMemory
    }
}
