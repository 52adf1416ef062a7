//! What each handler waits for.

use sc_lockpass::HandlerNumber;
use sc_model::Status;
use sc_request::Core;

/// What a handler waits for.
#[derive(Clone, Copy)]
pub enum Wait {
    /// Nothing: it is free, or has failed.
    Nothing,
    /// Nothing: it has something to do.
    Busy,
    /// It is to reserve the handlers that it needs, and can't.
    Reservation,
    /// It could reserve them, but a wait condition was false when it last did.
    Condition,
    /// For the answer of this handler.
    Answer(HandlerNumber),
}

impl Wait {
    /// Whether it waits.
    pub fn is_waiting(self) -> bool {
        !matches!(self, Wait::Nothing | Wait::Busy)
    }
}

/// The handler that keeps others from reserving a handler: its holder, or itself if it isn't idle. None if it can be
/// reserved.
pub fn keeper_of(core: &Core, handler: HandlerNumber) -> Option<HandlerNumber> {
    match (core.holder(handler), core.status(handler)) {
        (Some(holder), _) => Some(holder),
        (None, Some(Status::Busy | Status::Waiting)) => Some(handler),
        _ => None,
    }
}

/// How many handlers there are.
pub fn count_of(core: &Core) -> HandlerNumber {
    core.handler_count().min(HandlerNumber::MAX as usize) as HandlerNumber
}

/// Whether a handler has something to do.
pub fn is_any_busy(core: &Core) -> bool {
    for handler in 0..count_of(core) {
        if let Some(Status::Busy) = core.status(handler) {
            return true;
        }
    }
    false
}

/// What a handler waits for.
pub fn wait_of(core: &Core, handler: HandlerNumber) -> Wait {
    match core.status(handler) {
        Some(Status::Busy) => Wait::Busy,
        Some(Status::Waiting) => match core.awaits(handler) {
            Some(supplier) => Wait::Answer(supplier),
            None if core.is_put_off(handler) && !is_kept(core, handler) => Wait::Condition,
            None => Wait::Reservation,
        },
        _ => Wait::Nothing,
    }
}

/// Whether a handler can't have all that it needs.
pub fn is_kept(core: &Core, handler: HandlerNumber) -> bool {
    let needed = core.needed_by(handler);
    for one in needed.as_slice() {
        if keeper_of(core, *one).is_some() {
            return true;
        }
    }
    false
}
