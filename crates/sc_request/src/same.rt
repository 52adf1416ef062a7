//! Whether two cores are alike.
ghost use Rattle.std.specs.Prelude.{◌≡◌, ◌↔◌, IsTrue};
ghost use Rattle.sc_request.specs.Places.{plain};
ghost use Rattle.sc_request.specs.Same.{AreSameAt};
ghost use Rattle.sc_request.specs.Cores.{center_of};

use crate::center::Core;
use crate::state::State;
use sc_handler::same_handler;
use sc_lockpass::HandlerNumber;

impl Core {
    /// Whether another core is alike at a handler: it has the same stage, services, queue and count of ended sessions
    /// in both, and the same holders. The job that it is out with may differ.
    pub fn is_same_at(&self, other: &Core, handler: HandlerNumber) -> bool
        ensures { IsTrue result ↔ AreSameAt handler (center_of self.now) (center_of other.now) }
    {
        self.status(handler) == other.status(handler)
            && self.state.has_same_handler(&other.state, handler)
            && self.state.rights.queue(handler) == other.state.rights.queue(handler)
            && self.state.rights.top(handler) == other.state.rights.top(handler)
    }
}

impl State {
    /// Whether a handler is kept alike in both, with the count of its sessions, or has no place.
    fn has_same_handler(&self, other: &State, handler: HandlerNumber) -> bool
        ensures { IsTrue result ↔ (plain self.now).handlers handler ≡ (plain other.now).handlers handler }
    {
        let place = handler as usize;
        if place >= 512 {
            return true;
        }
        self.sessions[place] == other.sessions[place]
            && same_handler(&self.handlers[place], &other.handlers[place])
    }
}
