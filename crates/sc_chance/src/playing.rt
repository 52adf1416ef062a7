//! One run.
ghost use Rattle.std.specs.Prelude.{◌≡◌, ◌≤◌, ◌+◌, ◌++◌, ◌∷◌, [], IfOk, OnOk, length};
ghost use Rattle.std.specs.List.{flat_map};
ghost use Rattle.sc_audit.specs.Records.{turns_of};
ghost use Rattle.sc_driver.specs.Execution.{IsThreadRun, line_turns};
ghost use Rattle.sc_lockpass.specs.declared.version.Version.TheVariants.{Two};
ghost use Rattle.sc_world.specs.Kept.{IsOf, kept};
ghost use Rattle.sc_world.specs.Views.{world_in};
ghost use Rattle.sc_world.specs.Worlds.{opened};
ghost use Rattle.sc_chance.specs.Runs.{IsPlayed};
ghost use Rattle.sc_chance.specs.Stages.{IsStage};

use crate::picking::pick;
use crate::stage::Stage;
use rand_core::SeedableRng;
use rand_pcg::Pcg32;
use sc_audit::RecordLine;
use sc_code::Program;
use sc_lockpass::HandlerNumber;
use sc_model::Status;
use sc_request::Core;
use sc_world::Configuration;
use sc_world::laws::{
    kept_alike_read_alike, kept_alike_turn_alike, openings_are_of_their_program,
    runs_stay_of_their_program,
};
use std::alloc::{AllocError, Global};

/// The most lines of a record.
const MOST_LINES: usize = 1_000_000;

/// A run that has ended.
#[derive(Drop)]
pub struct ChanceRun {
    /// The record: which handler took how many turns, line after line.
    pub lines: Vec<RecordLine>,
    pub report: Vec<u8>,
    /// The status of each handler, in order of number.
    pub statuses: Vec<Status>,
    /// Whether a handler has refused a request for which no handler waited.
    pub has_refused: bool,
}

/// Plays a program until none of its handlers has a turn, or at most this number of turns. Each is that of a handler that is
/// picked at random among those that have one. A seed gives the same run on every machine.
///
/// # Errors
/// Memory ran out.
#[tactic(auto, using(crate::proofs::Runs::run_of))]
pub fn play(
    alloc: Global,
    program: &Program,
    stage: &mut Stage<'_>,
    limit: u32,
    seed: u64,
) -> Result<ChanceRun, AllocError>
    requires { IsStage program.now.image stage.old }
    ensures run { IfOk result (λ run. IsThreadRun program.now.image limit run.lines.items run.report.items run.statuses.items) }
    ensures stage { OnOk result (IsStage program.now.image stage.new) }
{
    kept_alike_read_alike();
    stage.reopen(program)?;
    let lines = play_turns(alloc, program, &mut stage.configuration, limit, seed)?;
    Ok(ChanceRun {
        lines,
        report: stage.configuration.report()?,
        statuses: stage.configuration.statuses()?,
        has_refused: has_refused(stage.configuration.core()),
    })
}

/// Plays the turns of a run from the opening on, and returns its record.
#[tactic(auto, using(crate::proofs::Runs::ends_there))]
fn play_turns(
    alloc: Global,
    program: &Program,
    configuration: &mut Configuration<'_>,
    limit: u32,
    seed: u64,
) -> Result<Vec<RecordLine>, AllocError>
    requires of { IsOf program.now.image 512 (world_in configuration.old) }
    requires opening { kept (world_in configuration.old) ≡ kept (opened program.now.image Two) }
    ensures { IfOk result (λ lines. IsPlayed program.now.image limit lines.items (world_in configuration.new)) }
{
    openings_are_of_their_program();
    runs_stay_of_their_program();
    kept_alike_read_alike();
    kept_alike_turn_alike();
    let mut chance = Pcg32::seed_from_u64(seed);
    let mut lines = Vec::new(alloc);
    for _ in 0..limit {
        if lines.len() >= MOST_LINES {
            return Ok(lines);
        }
        let Some(handler) = pick(configuration.core(), &mut chance) else {
            return Ok(lines);
        };
        configuration.turn(handler)?;
        push_turn(&mut lines, handler)?;
    }
    Ok(lines)
}

/// Adds a turn to a record. Turns of one handler in a row are one line.
fn push_turn(lines: &mut Vec<RecordLine>, handler: HandlerNumber) -> Result<(), AllocError>
    ensures turns { OnOk result (flat_map line_turns lines.new.items ≡ flat_map line_turns lines.old.items ++ handler ∷ []) }
    ensures count { OnOk result (turns_of lines.new.items ≡ turns_of lines.old.items + 1) }
    ensures few { OnOk result (length lines.new.items ≤ length lines.old.items + 1) }
{
    match lines.pop() {
        Some(last) if last.handler == handler && last.turns < u32::MAX => {
            lines.push(RecordLine {
                handler,
                turns: last.turns + 1,
            })?;
        }
        Some(last) => {
            lines.push(last)?;
            lines.push(RecordLine { handler, turns: 1 })?;
        }
        None => lines.push(RecordLine { handler, turns: 1 })?,
    }
    Ok(())
}

/// Whether a handler has refused a request for which no handler waited.
fn has_refused(core: &Core) -> bool {
    for handler in 0..core.handler_count() {
        if core.refused(handler as HandlerNumber).unwrap_or(0) > 0 {
            return true;
        }
    }
    false
}
