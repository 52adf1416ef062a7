//! Whether two requests passed the same rights.
ghost use Rattle.std.specs.Prelude.{◌≡◌, ◌<◌, ◌↔◌, IsTrue};
ghost use Rattle.sc_lockpass.specs.Passing.{AreListedAlike};
ghost use Rattle.sc_lockpass.specs.Tables.{passed_of};

use crate::handler_number::HandlerNumber;
use crate::passed::Passed;

impl Passed {
    /// Whether both list the same rights, with the same holders before.
    pub fn is_same(&self, other: &Passed) -> bool
        ensures { IsTrue result ↔ passed_of self.now ≡ passed_of other.now }
    {
        for k in 0..self.reach.max(other.reach) {
            if !self.lists_alike(other, k) {
                return false;
            }
        }
        true
    }

    /// Whether both list the rights over a handler with the same holders, or neither lists them.
    fn lists_alike(&self, other: &Passed, handler: usize) -> bool
        requires { handler < 512 }
        ensures { IsTrue result ↔ AreListedAlike handler (passed_of self.now) (passed_of other.now) }
    {
        self.queue(handler) == other.queue(handler) && self.top(handler) == other.top(handler)
    }

    /// Who could post to a handler before, where that is listed.
    fn queue(&self, handler: usize) -> Option<Option<HandlerNumber>>
        requires { handler < 512 }
        ensures { result ≡ (passed_of self.now).queue handler }
    {
        if self.queues.contains(handler) {
            Some(Some(self.client))
        } else {
            None
        }
    }

    /// Who could push on a handler's waiting stack before, where that is listed.
    fn top(&self, handler: usize) -> Option<Option<HandlerNumber>>
        requires { handler < 512 }
        ensures { result ≡ (passed_of self.now).top handler }
    {
        if handler == self.client as usize {
            Some(self.top_holder)
        } else if self.tops.contains(handler) {
            Some(Some(self.client))
        } else {
            None
        }
    }
}
