//! What a handler's turns came to is settled.
ghost use Rattle.std.specs.Prelude.{◌≡◌, ◌++◌, ◌∷◌, ◌+◌, ◌<◌, ◌≤◌, ◌-◌, ◌^◌, ℕ, [], Some, IfErr, OnErr, OnOk, false, is_some, not, true};
ghost use Rattle.std.specs.List.{All};
ghost use Rattle.std.specs.Option.{option_map};
ghost use Rattle.sc_lockpass.specs.Versions.{most_handlers};
ghost use Rattle.sc_handler.specs.Logged.{HasPlaces};
ghost use Rattle.sc_handler.specs.Kinds.{of_kind};
ghost use Rattle.sc_request.specs.Candidates.{granted_items};
ghost use Rattle.sc_request.specs.Places.{outs_of, plain};
ghost use Rattle.sc_request.specs.Settling.{asked_in, settled};
ghost use Rattle.sc_request.specs.Rooms.{HasRoomFor, IsNamed, is_not_out, is_short};
ghost use Rattle.sc_request.specs.Sound.{IsSound};

use crate::center::Core;
use crate::settlement::SettleFault;
use crate::state::State;
use sc_handler::{JobKind, SparePlaces, fits_turns, frees, kind_of};
use sc_lockpass::HandlerNumber;
use sc_model::Cause;
use sc_region::{Job, Want};

impl Core {
    ghost use Rattle.sc_request.specs.Cores.{LogsSettlement, Settles, center_of, log_of};

    /// Settles this number of turns of a handler that is out, the last of which wants this. The handler isn't out
    /// from then on. A want that fits no case for the job fails the handler: by F13 if it posts to a handler that
    /// isn't held, else by F16.
    ///
    /// S1 with the handler's number if it isn't out, and S9 if memory ran out. Nothing has changed then. S9 doesn't
    /// occur if there is room for a settlement.
    pub fn settle(
        &mut self,
        handler: HandlerNumber,
        turns: u32,
        want: &Want,
    ) -> Result<(), SettleFault>
        ensures center { OnOk result (Settles handler turns want.now self.old self.new) }
        ensures log { OnOk result (LogsSettlement handler turns want.now self.old self.new) }
        ensures not_out { is_not_out result ≡ not (is_some ((center_of self.old).out handler)) }
        ensures named { IfErr result (IsNamed handler) }
        ensures short { HasRoomFor 0 self.old → is_short result ≡ false }
        ensures unchanged { OnErr result ((center_of self.new ≡ center_of self.old) × (log_of self.new ≡ log_of self.old)) }
        ensures outs { OnOk result (self.old.outs ≡ self.new.outs + 1) }
        ensures room { (n : ℕ) → HasRoomFor n self.old → HasRoomFor n self.new }
        ensures version { self.new.state.rights.version ≡ self.old.state.rights.version }
    {
        if !self.is_out(handler) {
            return Err(SettleFault::NotOut { handler });
        }
        if self.make_room_for_one().is_err() {
            return Err(SettleFault::OutOfMemory);
        }
        self.settle_out(handler, turns, want);
        Ok(())
    }

    /// Whether a handler is out.
    fn is_out(&self, handler: HandlerNumber) -> bool
        ensures { result ≡ is_some ((center_of self.now).out handler) }
    {
        self.state.job_out(handler).is_some()
    }

    /// Settles this number of turns of a handler that is out, if there is room.
    fn settle_out(&mut self, handler: HandlerNumber, turns: u32, want: &Want)
        requires out { is_some ((center_of self.old).out handler) ≡ true }
        requires places { 1 ≤ self.old.spare }
        requires entries { HasPlaces 1 self.old.log }
        ensures center { Settles handler turns want.now self.old self.new }
        ensures log { LogsSettlement handler turns want.now self.old self.new }
        ensures outs { self.old.outs ≡ self.new.outs + 1 }
        ensures room { (n : ℕ) → HasRoomFor n self.old → HasRoomFor n self.new }
        ensures version { self.new.state.rights.version ≡ self.old.state.rights.version }
    {
        let Some(job) = self.state.job_out(handler) else {
            unreachable!();
        };
        let kind = kind_of(job);
        let is_freeing = frees(job, want);
        self.log.push(handler, job, turns, want);
        self.state.touch(handler, want, &mut self.candidates);
        self.state.leave_crowds(handler, &mut self.crowds);
        self.state
            .settle(handler, &kind, turns, want, &mut self.spare);
        self.state.disband(handler, &mut self.crowds);
        self.state.wake(
            handler,
            is_freeing,
            &mut self.reserving,
            &mut self.candidates,
        );
        self.state.handlers[handler as usize].out.clear();
        self.outs -= 1;
    }
}

impl State {
    /// The job that a handler is out with.
    pub(crate) fn job_out(&self, handler: HandlerNumber) -> Option<&Job>
        ensures { option_map (λ job. job.now) result ≡ outs_of self.now handler }
    {
        self.handlers.get(handler as usize)?.out.get()
    }

    /// Settles this number of turns of a handler under a job of this kind, the last of which wants this. A request
    /// that is sent takes one of these places.
    fn settle(
        &mut self,
        handler: HandlerNumber,
        kind: &JobKind,
        turns: u32,
        want: &Want,
        spare: &mut SparePlaces,
    )
        requires there { handler < most_handlers self.old.rights.version }
        requires place { 1 ≤ spare.old }
        requires granted { All (λ k. k < most_handlers self.old.rights.version) (granted_items (of_kind kind.now)) }
        requires sound { IsSound (2 ^ 64 - 4) (2 ^ 63 - 2) (plain self.old) }
        ensures plain { plain self.new ≡ settled (most_handlers self.old.rights.version) handler (of_kind kind.now) turns want.now (plain self.old) }
        ensures outs { outs_of self.new ≡ outs_of self.old }
        ensures version { self.new.rights.version ≡ self.old.rights.version }
        ensures places { spare.old ≤ spare.new + 1 }
    {
        let stage = self.handlers[handler as usize].stage;
        let fits = fits_turns(turns, stage, kind, want);
        self.begin(handler, kind);
        self.ask_in(handler, fits, want, spare);
    }

    /// Does what the last turn of a handler wants, if it fits. Else the handler fails.
    fn ask_in(&mut self, handler: HandlerNumber, fits: bool, want: &Want, spare: &mut SparePlaces)
        requires there { handler < most_handlers self.old.rights.version }
        requires place { 1 ≤ spare.old }
        requires sound { IsSound (2 ^ 64 - 2) (2 ^ 63) (plain self.old) }
        ensures plain { plain self.new ≡ asked_in fits (most_handlers self.old.rights.version) handler want.now (plain self.old) }
        ensures outs { outs_of self.new ≡ outs_of self.old }
        ensures version { self.new.rights.version ≡ self.old.rights.version }
        ensures places { spare.old ≤ spare.new + 1 }
    {
        if self.posts_unheld(handler, want) {
            self.fail(handler, Cause::NotHeld);
            return;
        }
        let may = self.may_ask(handler, want);
        if fits && may {
            self.done(handler, want, spare);
        } else {
            self.fail(handler, Cause::BadCode);
        }
    }
}
