//! Why a text is refused.

ghost use Rattle.std.specs.Prelude.{◌≡◌};
ghost use Rattle.sc_text.specs.declared.fault.LexFault.TheVariants.{OutOfMemory};

use crate::token::Span;
use std::alloc::{AllocError, AllocFailed};
use thiserror::Error;

/// Why a text has no tokens, and the part of the text that is at fault.
#[derive(Debug, Drop, Error)]
pub enum LexFault {
    /// L1: no token, white space or comment begins with the byte at `span`.
    #[error("no token begins with the character at {}", .span.start)]
    BadCharacter { span: Span },
    /// L2: the manifest string that the quote at `span` opens isn't closed on its line.
    #[error("the string at {} is not closed on its line", .span.start)]
    UnclosedString { span: Span },
    /// L3: the percent sign at `span`, in a manifest string, begins none of the marks `%N`, `%T`,
    /// `%%`, `%"` and `%'`.
    #[error("no mark begins at {}", .span.start)]
    BadEscape { span: Span },
    /// L4: the integer at `span` is above 9223372036854775807.
    #[error("the integer at {} is too large", .span.start)]
    IntegerTooLarge { span: Span },
    /// L5: the text has more than [`MAX_SOURCE_BYTES`](crate::MAX_SOURCE_BYTES) bytes.
    #[error("the text is too long")]
    SourceTooLong,
    /// L9: no memory was left for the tokens.
    #[error("out of memory")]
    OutOfMemory,
}

impl From<AllocError> for LexFault {
    ghost from_gives = { λ _ e. e ≡ OutOfMemory };

    fn from(_error: AllocError) -> LexFault {
        LexFault::OutOfMemory
    }
}

impl<T: Drop> From<AllocFailed<T>> for LexFault {
    ghost from_gives = { λ _ e. e ≡ OutOfMemory };

    fn from(_error: AllocFailed<T>) -> LexFault {
        LexFault::OutOfMemory
    }
}
