//! What the last turn of a handler asks is done.
ghost use Rattle.std.specs.Prelude.{◌≡◌, ◌≤◌, ◌<◌, ◌+◌, ◌-◌, ◌^◌, false, true};
ghost use Rattle.sc_lockpass.specs.Versions.{most_handlers};
ghost use Rattle.sc_request.specs.Places.{outs_of, plain};
ghost use Rattle.sc_request.specs.Settling.{done, may_ask, posts_unheld};
ghost use Rattle.sc_request.specs.Sound.{IsSound};

use crate::state::State;
use sc_handler::SparePlaces;
use sc_lockpass::HandlerNumber;
use sc_region::Want;

impl State {
    /// Does what the last turn of a handler asks. What is sent takes one place of `spare`.
    pub(crate) fn done(&mut self, handler: HandlerNumber, want: &Want, spare: &mut SparePlaces)
        requires there { handler < most_handlers self.old.rights.version }
        requires spare { 1 ≤ spare.old }
        requires sound { IsSound (2 ^ 64 - 2) (2 ^ 63) (plain self.old) }
        requires held { posts_unheld handler want.now (plain self.old) ≡ false }
        requires asked { may_ask handler want.now (plain self.old) ≡ true }
        ensures plain { plain self.new ≡ done (most_handlers self.old.rights.version) handler want.now (plain self.old) }
        ensures outs { outs_of self.new ≡ outs_of self.old }
        ensures version { self.new.rights.version ≡ self.old.rights.version }
        ensures places { spare.old ≤ spare.new + 1 }
    {
        match want {
            Want::Continue => {}
            Want::Reserve(handlers) => self.reserve_next(handler, handlers),
            Want::Post(request) => self.ask(handler, request, false, spare),
            Want::Ask { request, passes } => self.ask(handler, request, *passes, spare),
            Want::Create {
                class,
                procedure,
                actuals,
                passes,
            } => self.create(handler, *class, *procedure, actuals, *passes, spare),
            Want::Release(handlers) => self.end_sessions(handlers.as_slice()),
            Want::Wait(handlers) => self.wait_again(handler, handlers.as_slice()),
            Want::Done {
                reply,
                released,
                refused,
            } => self.end(handler, *reply, released.as_slice(), *refused, spare),
            Want::Fail(why) => self.fail(handler, *why),
        }
    }
}
