//! What keeps handlers from their next step, and which handler holds which, to be shown to people.
ghost use Rattle.std.specs.Prelude.{◌≡◌, length, map, slice_get};
ghost use Rattle.std.specs.Option.{option_map};
ghost use Rattle.sc_handler.specs.InMemory.{posting_of};
ghost use Rattle.sc_request.specs.Places.{awaited};
ghost use Rattle.sc_request.specs.Waiting as waiting;
ghost use Rattle.sc_request.specs.Waiting.{is_put_off, needed_at};

use crate::center::Core;
use arrayvec::ArrayVec;
use sc_handler::{Handler, HandlerStage, Posting};
use sc_lockpass::HandlerNumber;
use sc_region::Request;

impl Core {
    ghost use Rattle.sc_request.specs.Cores.{state_of};

    /// Who may post to a handler, if anybody may.
    pub fn holder(&self, handler: HandlerNumber) -> Option<HandlerNumber>
        ensures { result ≡ (state_of self.now).rights.queue handler }
    {
        self.state.rights.queue(handler)
    }

    /// Of the handlers that the next step of a handler reserves, those that it doesn't hold, each once: none where that is no
    /// reserve step.
    pub fn needed_by(&self, handler: HandlerNumber) -> ArrayVec<HandlerNumber, 16>
        ensures { let s = state_of self.now in result.items ≡ needed_at handler s.rights (s.handlers handler).stage }
    {
        match self.state.handlers.get(handler as usize) {
            Some(place) => match place.stage {
                HandlerStage::Reserves => self.state.needed(handler, place),
                _ => ArrayVec::new(),
            },
            None => ArrayVec::new(),
        }
    }

    /// Whether the next step of a handler is a reserve step that a false wait condition put off, and no session has ended
    /// since of the handlers that were reserved for that.
    pub fn is_put_off(&self, handler: HandlerNumber) -> bool
        ensures { let s = state_of self.now in result ≡ is_put_off (λ k. (s.handlers k).sessions) (s.handlers handler).stage }
    {
        match self.state.handlers.get(handler as usize) {
            Some(place) => match place.stage {
                HandlerStage::Reserves => !place.mark.allows(self.state.sessions.as_slice()),
                _ => false,
            },
            None => false,
        }
    }

    /// The handler for whose answer a handler waits, if it waits for one.
    pub fn awaits(&self, handler: HandlerNumber) -> Option<HandlerNumber>
        ensures { result ≡ awaited ((state_of self.now).handlers handler).stage }
    {
        match self.state.handlers.get(handler as usize)?.stage {
            HandlerStage::Awaits {
                supplier,
                is_creation: _,
            } => Some(supplier),
            _ => None,
        }
    }

    /// What the core keeps of a handler, if there is one of this number.
    pub fn kept_at(&self, handler: HandlerNumber) -> Option<&Handler>
        ensures { option_map (λ kept. kept.now) result ≡ slice_get self.now.state.handlers.items handler }
    {
        self.state.handlers.get(handler as usize)
    }

    /// The number of requests in the queue of a handler.
    pub fn queue_len(&self, handler: HandlerNumber) -> usize
        ensures { result ≡ length ((state_of self.now).handlers handler).queue }
    {
        match self.state.handlers.get(handler as usize) {
            Some(place) => place.queue.len(),
            None => 0,
        }
    }

    /// The request at a place of the queue of a handler, from 0, which is taken next; None if the queue is shorter.
    pub fn asked_at(&self, handler: HandlerNumber, number: usize) -> Option<Request>
        ensures { result ≡ waiting.request_at ((state_of self.now).handlers handler).queue number }
    {
        match self.state.handlers.get(handler as usize) {
            Some(place) => request_at(place, number),
            None => None,
        }
    }
}

/// The posting at a place of the queue, if there is one.
fn posting_at(place: &Handler, number: usize) -> Option<&Posting>
    ensures { option_map (λ posting. posting.now) result ≡ slice_get place.now.queue number }
{
    place.queue.iter().nth(number)
}

/// The request at a place of the queue, if there is one.
fn request_at(place: &Handler, number: usize) -> Option<Request>
    ensures { result ≡ waiting.request_at (map posting_of place.now.queue) number }
{
    match posting_at(place, number) {
        Some(posting) => Some(posting.request.to_request()),
        None => None,
    }
}
