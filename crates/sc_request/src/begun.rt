//! The job of a handler begins.
ghost use Rattle.std.specs.Prelude.{◌≡◌, ◌<◌, ◌-◌, ◌^◌};
ghost use Rattle.std.specs.List.{All};
ghost use Rattle.sc_lockpass.specs.Versions.{most_handlers};
ghost use Rattle.sc_handler.specs.Kinds.{of_kind};
ghost use Rattle.sc_request.specs.Candidates.{granted_items};
ghost use Rattle.sc_request.specs.Places.{awaited, outs_of, plain};
ghost use Rattle.sc_request.specs.Settling.{begun, made_at};
ghost use Rattle.sc_request.specs.Sound.{IsSound};

use crate::sessions::reserve_each;
use crate::state::State;
use sc_handler::{HandlerStage, JobKind};
use sc_lockpass::HandlerNumber;

impl State {
    /// What a handler was asked for is taken, or what its reserve step was granted is its own.
    pub(crate) fn begin(&mut self, handler: HandlerNumber, kind: &JobKind)
        requires there { handler < 512 }
        requires sound { IsSound (2 ^ 64 - 2) (2 ^ 63 - 2) (plain self.old) }
        requires granted { All (λ k. k < most_handlers self.old.rights.version) (granted_items (of_kind kind.now)) }
        ensures plain { plain self.new ≡ begun handler (of_kind kind.now) (plain self.old) }
        ensures outs { outs_of self.new ≡ outs_of self.old }
        ensures version { self.new.rights.version ≡ self.old.rights.version }
    {
        match kind {
            JobKind::Take => self.take_at(handler),
            JobKind::Reply => self.take_answer_at(handler),
            JobKind::Granted(handlers) => {
                self.stand(handler, HandlerStage::Runs);
                reserve_each(&mut self.rights, handler, handlers.as_slice());
            }
            JobKind::Made => self.go_on_with_made(handler),
            JobKind::Failed | JobKind::Refused | JobKind::Go => {}
        }
    }

    /// A handler goes on with one that was made for it. If it waited for the creation, it releases the new one.
    fn go_on_with_made(&mut self, handler: HandlerNumber)
        requires there { handler < 512 }
        requires sound { IsSound (2 ^ 64 - 2) (2 ^ 63 - 2) (plain self.old) }
        ensures plain { plain self.new ≡ made_at handler ((plain self.old).handlers handler).stage (plain self.old) }
        ensures outs { outs_of self.new ≡ outs_of self.old }
        ensures version { self.new.rights.version ≡ self.old.rights.version }
    {
        match self.awaited(handler) {
            Some(supplier) => {
                self.take_answer_at(handler);
                self.end_sessions(&[supplier]);
            }
            None => self.stand(handler, HandlerStage::Runs),
        }
    }

    /// The handler for whose answer this one waits, if it waits.
    fn awaited(&self, handler: HandlerNumber) -> Option<HandlerNumber>
        requires { handler < 512 }
        ensures { result ≡ awaited ((plain self.now).handlers handler).stage }
    {
        match self.handlers[handler as usize].stage {
            HandlerStage::Awaits {
                supplier,
                is_creation: _,
            } => Some(supplier),
            HandlerStage::Idle
            | HandlerStage::Runs
            | HandlerStage::HasMade(_)
            | HandlerStage::Reserves => None,
        }
    }
}
