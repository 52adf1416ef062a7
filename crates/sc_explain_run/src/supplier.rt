//! Which handler a failed one needed.

use crate::history::{Ended, created_last, turn_of};
use sc_handler::Log;
use sc_lockpass::HandlerNumber;
use sc_model::Status;
use sc_region::Want;
use sc_request::Core;

/// The handler that this one asked last, or a failed one of those that it was to reserve last.
pub fn supplier_of(core: &Core, log: &Log, handler: HandlerNumber) -> Option<HandlerNumber> {
    for place in (0..log.len()).rev() {
        if let Some(turn) = turn_of(log, handler, place) {
            match turn.ended {
                Ended::Asks(sent) => return Some(sent.target.handler),
                Ended::Creates(_) => return created_last(log, handler),
                Ended::Reserves => return failed_at(core, log, place),
                _ => {}
            }
        }
    }
    None
}

/// The first failed handler of those that are to be reserved by the turn at a place.
fn failed_at(core: &Core, log: &Log, place: usize) -> Option<HandlerNumber> {
    if let Some(settlement) = log.get(place)
        && let Want::Reserve(handlers) = &settlement.want
    {
        for handler in handlers.as_slice() {
            if let Some(Status::Failed(_)) = core.status(*handler) {
                return Some(*handler);
            }
        }
    }
    None
}
