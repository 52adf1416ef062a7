//! Several runs, until one shows what is looked for.
ghost use Rattle.std.specs.Prelude.{IfOk};
ghost use Rattle.sc_chance.specs.Found.{IsFound};

use crate::judging::{Sought, shows};
use crate::outcomes::Outcomes;
use crate::playing::{ChanceRun, play};
use crate::stage::Stage;
use sc_code::Program;
use std::alloc::{AllocError, Global};

/// Seeds in a row.
#[derive(Clone, Copy)]
pub struct Seeds {
    pub first: u64,
    /// How many there are.
    pub times: u32,
}

/// What came of runs.
#[derive(Drop)]
pub enum Found {
    /// This run shows what is looked for, and was played by this seed.
    Run(u64, ChanceRun),
    /// None does. These are the reports that they ended with.
    Nothing(Outcomes),
}

/// Plays runs of a program, with at most 512 handlers, by one seed after the other, until one shows what is looked for.
///
/// # Errors
/// Memory ran out.
pub fn play_until(
    alloc: Global,
    program: &Program,
    limit: u32,
    seeds: Seeds,
    sought: Sought,
) -> Result<Found, AllocError>
    ensures { IfOk result (IsFound program.now.image limit seeds.times sought) }
{
    let mut stage = Stage::open(alloc, program)?;
    let mut outcomes = Outcomes::new(alloc)?;
    for number in 0..seeds.times {
        let seed = seeds.first.saturating_add(number as u64);
        let run = play(alloc, program, &mut stage, limit, seed)?;
        if shows(sought, &run, outcomes.first()) {
            return Ok(Found::Run(seed, run));
        }
        let ChanceRun { report, .. } = run;
        outcomes.count(report, seed)?;
    }
    Ok(Found::Nothing(outcomes))
}
