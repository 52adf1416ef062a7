//! What keeps turns from being settled.

use sc_lockpass::HandlerNumber;
use thiserror::Error;

/// Why turns aren't settled.
#[derive(Clone, Copy, Debug, Error)]
pub enum SettleFault {
    /// S1: the handler of this number isn't out.
    #[error("handler {handler} is not out")]
    NotOut { handler: HandlerNumber },
    /// S9: there is no memory for the settlement.
    #[error("out of memory")]
    OutOfMemory,
}
