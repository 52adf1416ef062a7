//! Handlers are made.
ghost use Rattle.std.specs.Prelude.{◌≡◌, ◌≤◌, ◌<◌, ◌+◌, ◌-◌, ◌^◌, ℕ, [], false, true, slice_index};
ghost use Rattle.sc_lockpass.specs.Versions.{most_handlers};
ghost use Rattle.sc_request.specs.Places.{outs_of, plain};
ghost use Rattle.sc_request.specs.Sessions.{with_handler};
ghost use Rattle.sc_request.specs.Settling.{creates, creates_with, creation};
ghost use Rattle.sc_request.specs.Sound.{IsSound};

use crate::sessions::give_new;
use crate::state::State;
use arrayvec::ArrayVec;
use sc_handler::{HandlerStage, SparePlaces, copy_values};
use sc_lockpass::HandlerNumber;
use sc_model::Cause;
use sc_region::{ClassNumber, Errand, NameNumber, Reference, Request, Value};

impl State {
    /// A handler makes another one, if there may be one more, and asks it for this creation.
    pub(crate) fn create(
        &mut self,
        handler: HandlerNumber,
        class: ClassNumber,
        procedure: Option<NameNumber>,
        actuals: &ArrayVec<Value, 16>,
        passes: bool,
        spare: &mut SparePlaces,
    )
        requires there { handler < most_handlers self.old.rights.version }
        requires spare { 1 ≤ spare.old }
        requires sound { IsSound (2 ^ 64 - 2) (2 ^ 63) (plain self.old) }
        ensures plain { plain self.new ≡ creates (most_handlers self.old.rights.version) handler class procedure actuals.now passes (plain self.old) }
        ensures places { spare.old ≤ spare.new + 1 }
        ensures outs { outs_of self.new ≡ outs_of self.old }
        ensures version { self.new.rights.version ≡ self.old.rights.version }
    {
        if self.count >= self.rights.version().most_handlers() as usize {
            self.fail(handler, Cause::TooManyHandlers);
            return;
        }
        let made = self.count as HandlerNumber;
        self.make(made, handler);
        let request = creation(handler, made, class, procedure, actuals, passes);
        if passes {
            self.create_passing(handler, made, request, spare);
        } else {
            self.create_alone(handler, made, request, spare);
        }
    }

    /// There is a new handler, which another one may post to.
    fn make(&mut self, made: HandlerNumber, holder: HandlerNumber)
        requires next { made ≡ self.old.count }
        requires most { made < most_handlers self.old.rights.version }
        ensures plain { plain self.new ≡ with_handler made holder (plain self.old) }
        ensures outs { outs_of self.new ≡ outs_of self.old }
        ensures version { self.new.rights.version ≡ self.old.rights.version }
    {
        self.handlers[made as usize].renew();
        self.sessions[made as usize] = 0;
        give_new(&mut self.rights, made, holder);
        self.count += 1;
    }

    /// The creator passes its rights and waits.
    fn create_passing(
        &mut self,
        handler: HandlerNumber,
        made: HandlerNumber,
        request: Request,
        spare: &mut SparePlaces,
    )
        requires there { handler < most_handlers self.old.rights.version }
        requires made { made < 512 }
        requires spare { 1 ≤ spare.old }
        requires new { ((plain self.old).handlers made).queue ≡ [] }
        ensures plain { plain self.new ≡ creates_with true handler made request (plain self.old) }
        ensures places { spare.old ≤ spare.new + 1 }
        ensures outs { outs_of self.new ≡ outs_of self.old }
        ensures version { self.new.rights.version ≡ self.old.rights.version }
    {
        let stage = HandlerStage::Awaits {
            supplier: made,
            is_creation: true,
        };
        self.stand(handler, stage);
        let mut passed = self.pass_if(true, handler, made);
        self.send(false, made, &request, request.is_waited, &mut passed, spare);
    }

    /// The creator goes on, and releases the new handler at once.
    fn create_alone(
        &mut self,
        handler: HandlerNumber,
        made: HandlerNumber,
        request: Request,
        spare: &mut SparePlaces,
    )
        requires there { handler < most_handlers self.old.rights.version }
        requires made { made < 512 }
        requires spare { 1 ≤ spare.old }
        requires new { ((plain self.old).handlers made).queue ≡ [] }
        requires room { (k : ℕ) → slice_index self.old.sessions.items k + 1 < 2 ^ 64 }
        ensures plain { plain self.new ≡ creates_with false handler made request (plain self.old) }
        ensures places { spare.old ≤ spare.new + 1 }
        ensures outs { outs_of self.new ≡ outs_of self.old }
        ensures version { self.new.rights.version ≡ self.old.rights.version }
    {
        self.stand(handler, HandlerStage::HasMade(made));
        self.send(false, made, &request, request.is_waited, &mut None, spare);
        self.end_sessions(&[made]);
    }
}

/// The first request of a new handler.
fn creation(
    poster: HandlerNumber,
    made: HandlerNumber,
    class: ClassNumber,
    procedure: Option<NameNumber>,
    actuals: &ArrayVec<Value, 16>,
    is_waited: bool,
) -> Request
    ensures { result ≡ creation poster made class procedure actuals.now is_waited }
{
    Request {
        poster: Some(poster),
        target: Reference {
            handler: made,
            number: 1,
            class,
        },
        errand: Errand::Makes(procedure),
        actuals: copy_values(actuals),
        is_waited,
    }
}
