//! The world, and its turns.
ghost use Rattle.std.specs.Prelude.{◌≡◌, ◌≤◌, ℕ, IfOk, OnErr, OnOk, length, replicate, slice_get};
ghost use Rattle.std.specs.Option.{option_map};
ghost use Rattle.sc_handler.specs.Logged.{settlements_of};
ghost use Rattle.sc_request.specs.Cores.{center_of, log_of};
ghost use Rattle.sc_request.specs.Logs as core;
ghost use Rattle.sc_world.specs.Reports as told;
ghost use Rattle.sc_world.specs.Turning.{IsRefusedTurn, IsTried, IsTurn, Runs, StopsBehind, StopsShort, TurnsUnderJob, turned_by};
ghost use Rattle.sc_world.specs.Worlds.{opened, world_with};

use crate::configuration::{Configuration, Turned};
use sc_code::Program;
use sc_handler::Log;
use sc_lockpass::{HandlerNumber, Version};
use sc_model::Status;
use sc_play::Region;
use sc_region::Breakdown;
use sc_request::Core;
use std::alloc::{AllocError, Global};

/// A world of handlers; number 0 begins with the creation of the root object.
///
/// Each handler serves in the core what its region serves. So the region of a handler that is free has no frames, and
/// each of its objects meets its class invariant ([`free_objects_meet`](crate::laws::free_objects_meet)).
///
/// Turns that were made, and turns that memory was refused to, lead to the world from the opening of a program, in
/// any mix. A turn that was refused leaves the core and the other regions as they are, and its own region but for
/// silent operations of a routine that goes on. The handler keeps its job, and its next turn goes on from there as if
/// memory had never been refused.
#[derive(Drop)]
pub struct World<'p> {
    pub(crate) configuration: Configuration<'p>,
    pub ghost tried: { ∥ IsTried (world_with configuration.core configuration.regions.items) ∥₁ },
}

impl<'p> World<'p> {
    ghost use Rattle.sc_request.specs.Logs.{pick_for};
    ghost use Rattle.sc_world.specs.Views.{world_of};

    /// The world of a program at its opening, with the version's limit on handlers. Further memory comes from this
    /// allocator.
    ///
    /// # Errors
    /// Memory ran out.
    pub fn open(
        alloc: Global,
        program: &'p Program,
        version: Version,
    ) -> Result<World<'p>, AllocError>
        ensures { IfOk result (λ world. world_of world ≡ opened program.now.image version) }
    {
        Ok(World {
            configuration: Configuration::open(alloc, program, version)?,
        })
    }

    /// Makes the turn of one handler: its silent steps, up to and with the next visible one. The machine makes the
    /// same turn (`world_runs_as_machine` of `sc_refines_world`); after an error it has made none
    /// (`refused_turn_stays_near`).
    ///
    /// # Errors
    /// Memory ran out. Then nothing has changed, but that silent steps of the turn may be made: the turn is
    /// still to be made, and the machine is in the same state.
    pub fn turn(&mut self, handler: HandlerNumber) -> Result<Turned, AllocError>
        ensures ok { OnOk result (IsTurn handler (world_of self.old) (world_of self.new)) }
        ensures turned { IfOk result (λ turned. turned ≡ turned_by (pick_for handler (world_of self.old).center)) }
        ensures err { OnErr result (IsRefusedTurn handler (world_of self.old) (world_of self.new)) }
    {
        self.configuration.turn(handler)
    }

    /// Makes the turns of the handlers, one after the other. From the opening on they lead the machine to the state
    /// that the world represents, and the headline holds of that state (`headline` of `sc_headline`); after an error
    /// the turns before do (`stopped_world_stays_near` of `sc_refines_world`).
    ///
    /// # Errors
    /// Memory ran out. The world is then the one after the turns before, but that silent steps of the next
    /// may be made.
    pub fn turns(&mut self, handlers: &[HandlerNumber]) -> Result<(), AllocError>
        ensures ok { OnOk result (Runs handlers.now (world_of self.old) (world_of self.new)) }
        ensures err { OnErr result ((n : ℕ) × StopsBehind n handlers.now (world_of self.old) (world_of self.new)) }
    {
        let (_, result) = self.turns_until(handlers);
        result
    }

    /// The turns of the handlers, one after the other, as far as there is memory: how many of the handlers had theirs,
    /// all of them where that is Ok. If the rest follows later, the machine has made the turns of all
    /// (`rest_runs_as_machine` of `sc_refines_world`).
    pub fn turns_until(&mut self, handlers: &[HandlerNumber]) -> (usize, Result<(), AllocError>)
        ensures count { OnOk result.1 (result.0 ≡ length handlers.now) }
        ensures ok { OnOk result.1 (Runs handlers.now (world_of self.old) (world_of self.new)) }
        ensures err { OnErr result.1 (StopsBehind result.0 handlers.now (world_of self.old) (world_of self.new)) }
    {
        for (count, handler) in handlers.iter().enumerate() {
            if self.turn(*handler).is_err() {
                return (count, Err(AllocError));
            }
        }
        (handlers.len(), Ok(()))
    }

    /// Makes this number of turns of one handler. Once it has no job, the others would change nothing, and are left
    /// out.
    ///
    /// # Errors
    /// Memory ran out. The world is then the one after the turns before, but that silent steps of the next
    /// may be made.
    pub fn turns_of(&mut self, handler: HandlerNumber, count: u32) -> Result<(), AllocError>
        ensures ok { OnOk result (Runs (replicate count handler) (world_of self.old) (world_of self.new)) }
        ensures err { OnErr result ((n : ℕ) ×
            StopsBehind n (replicate count handler) (world_of self.old) (world_of self.new)) }
    {
        let mut left = count;
        for _ in 0..count {
            if left == 0 {
                break;
            }
            let made = self.turns_under_job(handler, left)?;
            if made == 0 {
                break;
            }
            left = left.saturating_sub(made);
        }
        Ok(())
    }

    /// Plays at most this number of turns of a handler under its job, and settles them as one. Returns how many: none
    /// if it has no job, and fewer if one wants something.
    ///
    /// # Errors
    /// Memory is refused to one of them, perhaps after others.
    fn turns_under_job(&mut self, handler: HandlerNumber, limit: u32) -> Result<u32, AllocError>
        requires { 1 ≤ limit }
        ensures ok { IfOk result (λ turns. TurnsUnderJob limit handler turns (world_of self.old) (world_of self.new)) }
        ensures err { OnErr result (StopsShort limit handler (world_of self.old) (world_of self.new)) }
    {
        self.configuration.turns_under_job(handler, limit)
    }

    /// How many handlers there are.
    pub fn handler_count(&self) -> usize
        ensures { result ≡ (world_of self.now).center.state.count }
    {
        self.configuration.handler_count()
    }

    /// The status of a handler, or None if there is no such handler.
    pub fn status(&self, handler: HandlerNumber) -> Option<Status>
        ensures { result ≡ core.status_for handler (world_of self.now).center }
    {
        self.configuration.status(handler)
    }

    /// The status of each handler, in order of number.
    ///
    /// # Errors
    /// Memory ran out.
    pub fn statuses(&self) -> Result<Vec<Status>, AllocError>
        ensures { IfOk result (λ statuses. statuses.items ≡ told.statuses (world_of self.now)) }
    {
        self.configuration.statuses()
    }

    /// What the turns of handlers came to so far, the first one first.
    pub fn log(&self) -> &Log
        ensures { settlements_of result.now ≡ log_of self.now.configuration.core }
    {
        self.configuration.log()
    }

    /// The core.
    pub fn core(&self) -> &Core
        ensures center { center_of result.now ≡ (world_of self.now).center }
        ensures log { log_of result.now ≡ log_of self.now.configuration.core }
    {
        self.configuration.core()
    }

    /// The region of a handler, or None if no version has such a handler.
    pub fn region(&self, handler: HandlerNumber) -> Option<&Region<'p>>
        ensures { option_map (λ region. region.now) result ≡ slice_get (world_of self.now).regions handler }
    {
        self.configuration.region(handler)
    }

    /// Where a handler was as it failed, or else is now, to be shown to people; None if there is no such handler. It
    /// has no contract: no turn depends on it.
    pub fn breakdown(&self, handler: HandlerNumber) -> Option<Breakdown> {
        self.configuration.breakdown(handler)
    }

    /// Each handler's line and output, and how the run has ended.
    ///
    /// # Errors
    /// Memory ran out.
    pub fn report(&self) -> Result<Vec<u8>, AllocError>
        ensures { IfOk result (λ report. report.items ≡ told.report (world_of self.now)) }
    {
        self.configuration.report()
    }
}
