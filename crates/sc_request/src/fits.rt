//! Whether a turn of a handler may ask what it asks, with what the handler holds.
ghost use Rattle.std.specs.Prelude.{◌≡◌};

use crate::state::State;
use sc_handler::is_request_of;
use sc_lockpass::HandlerNumber;
use sc_region::Want;

impl State {
    ghost use Rattle.sc_request.specs.Settling.{posts_unheld, may_ask, may_post_to_all, are_handlers};
    ghost use Rattle.sc_request.specs.Places.{plain};
    ghost use Rattle.sc_lockpass.specs.Rights.{is_handler};

    /// Whether a turn of the handler that asks this sends a request to a handler that it doesn't hold.
    pub(crate) fn posts_unheld(&self, handler: HandlerNumber, want: &Want) -> bool
        ensures { result ≡ posts_unheld handler want.now (plain self.now) }
    {
        match want {
            Want::Post(request) => !self.rights.held(handler, request.target.handler),
            Want::Ask { request, passes: _ } => !self.rights.held(handler, request.target.handler),
            _ => false,
        }
    }

    /// Whether a turn of the handler may ask this.
    pub(crate) fn may_ask(&self, handler: HandlerNumber, want: &Want) -> bool
        ensures { result ≡ may_ask handler want.now (plain self.now) }
    {
        match want {
            Want::Reserve(handlers) => self.are_handlers(handlers.as_slice()),
            Want::Post(request) => is_request_of(handler, request) && !request.is_waited,
            Want::Ask { request, passes: _ } => {
                is_request_of(handler, request) && request.is_waited
            }
            Want::Release(handlers) => self.may_post_to_all(handler, handlers.as_slice()),
            Want::Wait(handlers) => self.may_post_to_all(handler, handlers.as_slice()),
            Want::Done {
                reply: _,
                released,
                refused: _,
            } => self.may_post_to_all(handler, released.as_slice()),
            _ => true,
        }
    }

    /// Whether the handler may post to all of these.
    fn may_post_to_all(&self, handler: HandlerNumber, handlers: &[HandlerNumber]) -> bool
        ensures { result ≡ may_post_to_all handler handlers.now (plain self.now) }
    {
        handlers.iter().all(|k| self.may_post_to(handler, *k))
    }

    /// Whether the handler may post to another one.
    fn may_post_to(&self, handler: HandlerNumber, other: HandlerNumber) -> bool
        ensures { result ≡ is_handler handler ((plain self.now).rights.queue other) }
    {
        match self.rights.queue(other) {
            Some(holder) => holder == handler,
            None => false,
        }
    }

    /// Whether there are all of these.
    fn are_handlers(&self, handlers: &[HandlerNumber]) -> bool
        ensures { result ≡ are_handlers handlers.now (plain self.now) }
    {
        handlers.iter().all(|k| (*k as usize) < self.count)
    }
}
