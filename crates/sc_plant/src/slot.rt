//! A region under its lock.
ghost use Rattle.std.specs.Prelude.{◌≡◌, ◌≤◌, ◌↔◌, IsTrue, Some, false};
ghost use Rattle.sc_region.specs.declared.job.Want.TheVariants as want;
ghost use Rattle.std.specs.Coded.{codes};
ghost use Rattle.sc_formula.specs.contracts.formula.Formula as formula;
ghost use Rattle.sc_formula.specs.contracts.term.Term as term;
ghost use Rattle.sc_worklog.specs.LoggedRegions.{region_of};
ghost use Rattle.sc_recording.specs.Regions.{IsMadeByLog};
ghost use Rattle.sc_plant.specs.Sharing.{Fits};

use crate::task::{Played, Task};
use crate::wants::clear_want;
use sc_handler::Log;
use sc_lockpass::HandlerNumber;
use sc_play::Region;
use sc_recording::OfProgram;
use sc_region::{Job, Want};
use sc_worklog::LoggedRegion;
use std::marker::PhantomData;

/// The region of a handler of a run's program. Where memory was refused to none of its turns, the turns of its log lead to
/// it.
#[derive(Drop)]
pub struct Slot<'p, P: OfProgram> {
    pub region: LoggedRegion<'p>,
    /// Memory was refused to a turn.
    pub is_refused: bool,
    pub of: PhantomData<P>,
    pub ghost program: { P.image ≡ Some (region_of region).store.program } by { Prim.hlevel (codes, term.the_row.coded, formula.the_row.coded) },
    pub ghost made: { is_refused ≡ false → ∥ IsMadeByLog region ∥₁ },
}

impl<'p, P: OfProgram> Slot<'p, P> {
    /// The region of the handler of a number, with a log whose turns lead to it.
    pub fn new(region: Region<'p>, handler: HandlerNumber, log: Log) -> Slot<'p, P>
        requires { Fits P.image handler region log }
    {
        Slot {
            region: LoggedRegion::with_log(region, handler, log),
            is_refused: false,
            of: PhantomData,
        }
    }

    /// Plays the job of a task, for as many turns as it may.
    pub fn play(&mut self, task: &mut Task) -> Played {
        let Task {
            job,
            turns,
            asked,
            ..
        } = task;
        if *turns == 0 {
            return Played::Refused;
        }
        self.play_job(job, *turns, asked)
    }

    /// Plays at most this number of turns of a job.
    fn play_job(&mut self, job: &Job, limit: u32, asked: &mut Want) -> Played
        requires { 1 ≤ limit }
    {
        clear_want(asked);
        match self.region.play_asking(job, limit, asked) {
            Ok(turns) => {
                if turns < limit && is_continue(asked) {
                    self.is_refused = true;
                    Played::CutShort(turns)
                } else {
                    Played::Made(turns)
                }
            }
            Err(_) => {
                self.is_refused = true;
                Played::Refused
            }
        }
    }
}

/// Whether the last turn asks nothing.
fn is_continue(asked: &Want) -> bool
    ensures { IsTrue result ↔ asked.now ≡ want.Continue }
{
    matches!(asked, Want::Continue)
}
