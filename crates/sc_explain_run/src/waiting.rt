//! Which handlers were reported to wait.

use sc_lockpass::HandlerNumber;
use std::alloc::{AllocError, Global};

/// How many handlers there may be.
const MOST_HANDLERS: usize = 512;

/// The handlers that were reported to wait to reserve others, since their last reservation.
#[derive(Drop)]
pub struct Waiting {
    told: Vec<bool>,
}

impl Waiting {
    /// None of them.
    pub fn none(alloc: Global) -> Result<Waiting, AllocError> {
        match vec![in alloc; false; MOST_HANDLERS] {
            Ok(told) => Ok(Waiting { told }),
            Err(error) => Err(error),
        }
    }

    /// Whether a handler was reported.
    pub fn is_told(&self, handler: HandlerNumber) -> bool {
        match self.told.get(handler as usize) {
            Some(is_told) => *is_told,
            None => true,
        }
    }

    /// Notes that a handler was reported, or that it has reserved what it waited for.
    pub fn set(&mut self, handler: HandlerNumber, is_told: bool) {
        if let Some(place) = self.told.get_mut(handler as usize) {
            *place = is_told;
        }
    }
}
