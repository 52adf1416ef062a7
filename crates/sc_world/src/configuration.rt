//! The core and the regions, and what one turn changes of them.
ghost use Rattle.std.specs.Prelude.{◌≡◌, ◌≤◌, ◌<◌, ◌↔◌, ℕ, IfOk, IsTrue, OnErr, OnOk, Some, is_some, slice_get, true, vec_len};
ghost use Rattle.std.specs.Option.{option_map};
ghost use Rattle.sc_world.specs.Requests.Props.{linked_prop};
ghost use Rattle.sc_world.specs.Requests.Links.{AreLinked};
ghost use Rattle.sc_lockpass.specs.Versions.{most_handlers};
ghost use Rattle.sc_handler.specs.Logged.{settlements_of};
ghost use Rattle.sc_request.specs.Cores.{center_of, log_of};
ghost use Rattle.sc_request.specs.Rooms.{HasRoomFor};
ghost use Rattle.sc_request.specs.Logs.{settles};
ghost use Rattle.sc_request.specs.Logs as core;
ghost use Rattle.sc_world.specs.Reports as told;
ghost use Rattle.sc_region.specs.declared.job.Want.TheVariants as want;
ghost use Rattle.sc_world.specs.UnderJob.{AreCutShort, PlaysOut};
ghost use Rattle.sc_world.specs.Unused.{AreUnusedFrom};
ghost use Rattle.sc_request.specs.Candidates.{IsSparedBy};
ghost use Rattle.sc_region.specs.declared.job.Job.{Job};
ghost use Rattle.sc_world.specs.Turning.{IsRefusedTurn, IsTurn, PutsOutBack, StopsShort, TurnsUnderJob, turned_by};
ghost use Rattle.sc_world.specs.Worlds.{max_handlers, new_regions, opened};

use crate::report::{self, push_end, push_handler};
use sc_code::Program;
use sc_handler::Log;
use sc_lockpass::{HandlerNumber, Version};
use sc_model::Status;
use sc_play::Region;
use sc_region::{Breakdown, Want};
use sc_request::{Core, past_target};
use std::alloc::{AllocError, Global};

/// What a step of the world did.
#[derive(Clone, Copy, PartialEq, Eq)]
pub enum Turned {
    /// The handler made a turn.
    Moved,
    /// There is no such handler, or it has nothing to do.
    Nothing,
}

/// How many handlers there may be in any version.
const MAX_HANDLERS: u16 = 512;

/// A core, and a region for each handler: what turns go on from and change.
///
/// Each handler serves in the core what its region serves. A [`World`](crate::World) is one to which turns led from the
/// opening of a program.
#[derive(Drop)]
pub struct Configuration<'p> {
    pub(crate) alloc: Global,
    pub(crate) core: Core,
    /// The region of each handler by number, and places for those that there may be.
    pub(crate) regions: Vec<Region<'p>>,
    /// From this number on no handler was asked for anything yet.
    pub(crate) used: usize,
    ghost places: { vec_len regions ≡ 512 },
    pub(crate) ghost few: { used ≤ 512 },
    pub(crate) ghost unused: { AreUnusedFrom used (center_of core) regions.items },
    pub(crate) ghost linked: { AreLinked (center_of core) regions.items } by { linked_prop (center_of core) regions.items },
}

impl<'p> Configuration<'p> {
    ghost use Rattle.sc_request.specs.Logs.{pick_for};
    ghost use Rattle.sc_world.specs.Views.{world_in};

    /// That of a program at its opening, with the version's limit on handlers. Further memory comes from this allocator.
    ///
    /// # Errors
    /// Memory ran out.
    pub fn open(
        alloc: Global,
        program: &'p Program,
        version: Version,
    ) -> Result<Configuration<'p>, AllocError>
        ensures { IfOk result (λ configuration. world_in configuration ≡ opened program.now.image version) }
    {
        Ok(Configuration {
            alloc,
            core: open_core(alloc, program, version)?,
            regions: regions(alloc, program)?,
            used: MAX_HANDLERS as usize,
        })
    }

    /// Makes the turn of one handler: its silent steps, up to and with the next visible one.
    ///
    /// # Errors
    /// Memory ran out. Then nothing has changed, but that silent steps of the turn may be made: the turn is
    /// still to be made, and the machine is in the same state.
    pub fn turn(&mut self, handler: HandlerNumber) -> Result<Turned, AllocError>
        ensures ok { OnOk result (IsTurn handler (world_in self.old) (world_in self.new)) }
        ensures turned { IfOk result (λ turned. turned ≡ turned_by (pick_for handler (world_in self.old).center)) }
        ensures err { OnErr result (IsRefusedTurn handler (world_in self.old) (world_in self.new)) }
    {
        self.core.make_room()?;
        if self.core.pick_at(handler) {
            self.used = self.used.max(self.core.strangers_from(handler));
            let region = &mut self.regions[handler as usize];
            let mut asked = Want::Continue;
            play(&mut self.core, region, handler, 1, &mut asked)?;
            self.used = used_after(&self.core, handler, &asked, self.used);
            Ok(Turned::Moved)
        } else {
            Ok(Turned::Nothing)
        }
    }

    /// Plays at most this number of turns of a handler under its job, and settles them as one. Returns how many: none
    /// if it has no job, and fewer if one wants something.
    ///
    /// # Errors
    /// Memory is refused to one of them, perhaps after others.
    pub(crate) fn turns_under_job(
        &mut self,
        handler: HandlerNumber,
        limit: u32,
    ) -> Result<u32, AllocError>
        requires { 1 ≤ limit }
        ensures ok { IfOk result (λ turns. TurnsUnderJob limit handler turns (world_in self.old) (world_in self.new)) }
        ensures err { OnErr result (StopsShort limit handler (world_in self.old) (world_in self.new)) }
    {
        self.core.make_room()?;
        if self.core.pick_at(handler) {
            self.used = MAX_HANDLERS as usize;
            let region = &mut self.regions[handler as usize];
            let mut asked = Want::Continue;
            let (turns, cut_short) = play(&mut self.core, region, handler, limit, &mut asked)?;
            if cut_short {
                return Err(AllocError);
            }
            Ok(turns)
        } else {
            Ok(0)
        }
    }

    /// How many handlers there are.
    pub fn handler_count(&self) -> usize
        ensures { result ≡ (world_in self.now).center.state.count }
    {
        self.core.handler_count()
    }

    /// The status of a handler, or None if there is no such handler.
    pub fn status(&self, handler: HandlerNumber) -> Option<Status>
        ensures { result ≡ core.status_for handler (world_in self.now).center }
    {
        self.core.status(handler)
    }

    /// The status of each handler, in order of number.
    ///
    /// # Errors
    /// Memory ran out.
    pub fn statuses(&self) -> Result<Vec<Status>, AllocError>
        ensures { IfOk result (λ statuses. statuses.items ≡ told.statuses (world_in self.now)) }
    {
        let mut statuses = Vec::new(self.alloc);
        for handler in 0..self.core.handler_count() {
            if let Some(status) = self.core.status(handler as HandlerNumber) {
                statuses.push(status)?;
            }
        }
        Ok(statuses)
    }

    /// What the turns of handlers came to so far, the first one first.
    pub fn log(&self) -> &Log
        ensures { settlements_of result.now ≡ log_of self.now.core }
    {
        self.core.log()
    }

    /// The core.
    pub fn core(&self) -> &Core
        ensures center { center_of result.now ≡ (world_in self.now).center }
        ensures log { log_of result.now ≡ log_of self.now.core }
    {
        &self.core
    }

    /// The region of a handler, or None if no version has such a handler.
    pub fn region(&self, handler: HandlerNumber) -> Option<&Region<'p>>
        ensures { option_map (λ region. region.now) result ≡ slice_get (world_in self.now).regions handler }
    {
        self.regions.get(handler as usize)
    }

    /// Where a handler was as it failed, or else is now, to be shown to people; None if there is no such handler. It
    /// has no contract: no turn depends on it.
    pub fn breakdown(&self, handler: HandlerNumber) -> Option<Breakdown> {
        Some(self.regions.get(handler as usize)?.breakdown())
    }

    /// Each handler's line and output, and how the run has ended.
    ///
    /// # Errors
    /// Memory ran out.
    pub fn report(&self) -> Result<Vec<u8>, AllocError>
        ensures { IfOk result (λ report. report.items ≡ told.report (world_in self.now)) }
    {
        let mut report = Vec::new(self.alloc);
        let mut is_busy = false;
        for handler in 0..self.core.handler_count() {
            let Some(status) = self.core.status(handler as HandlerNumber) else {
                break;
            };
            let refused = self.core.refused(handler as HandlerNumber).unwrap_or(0);
            let output = self.regions[handler].output();
            push_handler(self.alloc, &mut report, handler, status, refused, output)?;
            is_busy = is_busy || report::is_busy(status);
        }
        push_end(&mut report, is_busy)?;
        Ok(report)
    }
}

/// The core of a program.
fn open_core(alloc: Global, program: &Program, version: Version) -> Result<Core, AllocError>
    ensures center { IfOk result (λ c. center_of c ≡ (opened program.now.image version).center) }
    ensures version { IfOk result (λ c. c.state.rights.version ≡ version) }
{
    let class = program.root_class();
    let procedure = program.root_procedure();
    Core::opening(alloc, class, procedure, version)
}

/// A region for each handler that there may be.
fn regions<'p>(alloc: Global, program: &'p Program) -> Result<Vec<Region<'p>>, AllocError>
    ensures regions { IfOk result (λ regions. regions.items ≡ new_regions program.now.image 0 max_handlers) }
    ensures count { IfOk result (λ regions. vec_len regions ≡ 512) }
{
    let mut regions = Vec::with_capacity(alloc, MAX_HANDLERS as usize)?;
    for handler in 0..MAX_HANDLERS {
        regions.push_reserved(Region::new(alloc, program, handler));
    }
    Ok(regions)
}

/// Whether the turns that a handler made under its job were cut short: the last asks nothing, and there might be more.
fn are_cut_short(limit: u32, turns: u32, asked: &Want) -> bool
    ensures { IsTrue result ↔ AreCutShort limit turns asked.now }
{
    turns < limit && matches!(asked, Want::Continue)
}

/// A number, at least `from`, from which on a turn of a handler that wanted this and is settled asked no handler. It is
/// that of all places if the handler has failed.
fn used_after(core: &Core, handler: HandlerNumber, asked: &Want, from: usize) -> usize
    requires there { handler < 512 }
    requires few { from ≤ 512 }
    ensures few { result ≤ 512 }
    ensures not_below { from ≤ result }
    ensures spared { (k : ℕ) → result ≤ k → k < 512 → IsSparedBy handler asked.now (center_of core.now).state k }
{
    if core.has_failed(handler) {
        return MAX_HANDLERS as usize;
    }
    past_target(asked, from)
}

/// Plays at most this number of turns of a handler that is out under its job, and settles it. Returns how many it
/// played, and whether memory was refused to the next; `asked` is then what the last one wanted. Err if it was refused
/// to the first: the handler is put back.
fn play(
    core: &mut Core,
    region: &mut Region<'_>,
    handler: HandlerNumber,
    limit: u32,
    asked: &mut Want,
) -> Result<(u32, bool), AllocError>
    requires some { 1 ≤ limit }
    requires asked { asked.old ≡ want.Continue }
    requires out { is_some ((center_of core.old).out handler) ≡ true }
    requires room { HasRoomFor 0 core.old }
    ensures ok { IfOk result (λ played. PlaysOut limit handler played.0 (most_handlers core.old.state.rights.version)
        (center_of core.old) (center_of core.new) region.old region.new played.1) }
    ensures err { OnErr result (PutsOutBack handler (center_of core.old) (center_of core.new) region.old region.new) }
    ensures asked { IfOk result (λ played. (j : Job) → (center_of core.old).out handler ≡ Some j →
        center_of core.new ≡ settles (most_handlers core.old.state.rights.version) handler j played.0 asked.new (center_of core.old)) }
    ensures version { core.new.state.rights.version ≡ core.old.state.rights.version }
{
    let Some(job) = core.job_out(handler) else {
        unreachable!();
    };
    let Ok(turns) = region.play_asking(job, limit, asked) else {
        core.put_back(handler);
        return Err(AllocError);
    };
    let cut_short = are_cut_short(limit, turns, asked);
    if core.settle(handler, turns, asked).is_err() {
        unreachable!();
    }
    Ok((turns, cut_short))
}
