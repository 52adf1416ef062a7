//! What is done with a program: replays of records, and the result of a run or a replay.

ghost use Rattle.std.specs.Prelude.{◌≡◌, IfOk};
ghost use Rattle.sc_lower.specs.Lowerings.{image_of};
ghost use Rattle.sc_world.specs.Views.{world_of};
ghost use Rattle.sc_driver.specs.Execution.{EmptyReplayLeavesOpening, IsReplay, Leaves, LinesMayBeSplit};

use crate::playing::play;
use sc_audit::Record;
use sc_code::Program;
use sc_model::Status;
use sc_world::World;
use std::alloc::{AllocError, Global};

/// The result of a run or a replay: its report, and the status of each handler, in order of number.
#[derive(Drop)]
pub struct RunReport {
    pub report: Vec<u8>,
    pub statuses: Vec<Status>,
}

/// Plays the lines of a record in a world of its version.
pub fn replay(alloc: Global, program: &Program, recorded: &Record) -> Result<RunReport, AllocError>
    ensures { let turns = recorded.now.lines.items in IfOk result (λ outcome.
        IsReplay (image_of program.now) recorded.now.version turns outcome.report.items outcome.statuses.items) }
{
    let world = play(alloc, program, recorded.version, &recorded.lines)?;
    outcome_of(&world)
}

/// What the world leaves.
fn outcome_of(world: &World<'_>) -> Result<RunReport, AllocError>
    ensures { IfOk result (λ outcome. Leaves (world_of world.now) outcome.report.items outcome.statuses.items) }
{
    Ok(RunReport {
        report: world.report()?,
        statuses: world.statuses()?,
    })
}

// ---- laws of replays

/// A replay of no lines leaves what the opening of its program does.
pub fn empty_replay_leaves_opening()
    ensures { EmptyReplayLeavesOpening }
{}

/// A line may be split: one handler's turns, some and then others.
pub fn lines_may_be_split()
    ensures { LinesMayBeSplit }
{}
