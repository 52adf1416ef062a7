//! Runs of a program by several workers.

ghost use Rattle.std.specs.Prelude.{◌≡◌, ◌≤◌, IfErr, IfOk};
ghost use Rattle.sc_lower.specs.Lowerings.{image_of};
ghost use Rattle.sc_world.specs.Reports as told;
ghost use Rattle.sc_plant.specs.Bounded.{IsBoundedRun};
ghost use Rattle.sc_plant.specs.Left.{IsOutOfMemory, SaysWhy, world_of};
ghost use Rattle.sc_plant.specs.Order.{GoesInOrder, round_robin};
ghost use Rattle.sc_driver.specs.Execution.{IsThreadRun};

use sc_code::Program;
use sc_lockpass::HandlerNumber;
use sc_model::Status;
use sc_plant::laws::runs_are_one_threads;
use sc_plant::{Bounds, Gate, Left, RunFault, Watch, run_watched};
use std::alloc::{AllocError, Global};
use std::sync::Wait;
use std::thread::Threads;

/// A run that has ended: what its threads left, with the lines of its record.
#[derive(Drop)]
pub struct Ended<'p> {
    pub left: Left<'p>,
    /// The number of turns that ended it: its limit, or fewer if its handlers have printed more than they may.
    pub turns: u32,
    /// The status of each handler, in order of number.
    pub statuses: Vec<Status>,
}

/// A gate that does nothing.
struct Ungated;

impl Gate for Ungated {
    fn began(&self, _handler: HandlerNumber) {}

    fn ended(&self, _handler: HandlerNumber) {}
}

/// Runs a program by this number of threads, the calling one among them, within bounds, with at most 512 handlers.
/// The watch looks at it on its way.
///
/// # Errors
/// U1 if memory is refused, U2 if a thread is, and U3 if the logs of the threads differ, which never
/// happens. With one worker it is always U1.
pub fn run_program<'p, R: Threads + Wait + Sync, W: Watch>(
    rt: &R,
    alloc: Global,
    program: &'p Program,
    workers: u8,
    bounds: Bounds,
    watch: &mut W,
) -> Result<Ended<'p>, RunFault<'p>>
    ensures left { IfOk result (λ ended. IsBoundedRun (image_of program.now) bounds ended.turns ended.left) }
    ensures ran { IfOk result (λ ended. let report = told.report (world_of ended.left) in
        ∥ IsThreadRun (image_of program.now) ended.turns ended.left.lines.items report ended.statuses.items ∥₁) }
    ensures err { IfErr result (SaysWhy (image_of program.now)) }
    ensures alone { workers ≤ 1 → IfErr result IsOutOfMemory }
    ensures order { workers ≤ 1 → IfOk result (λ ended. GoesInOrder round_robin (image_of program.now) ended.left) }
{
    runs_are_one_threads();
    let (left, turns) = run_watched(rt, alloc, program, workers, bounds, &Ungated, watch)?;
    match statuses_of_left(alloc, &left) {
        Ok(statuses) => Ok(Ended {
            left,
            turns,
            statuses,
        }),
        Err(_) => Err(RunFault::OutOfMemory(Some(left))),
    }
}

/// The status of each handler, in order of number.
fn statuses_of_left(alloc: Global, left: &Left<'_>) -> Result<Vec<Status>, AllocError>
    ensures { IfOk result (λ statuses. statuses.items ≡ told.statuses (world_of left.now)) }
{
    let mut statuses = Vec::new(alloc);
    for handler in 0..left.core.handler_count() {
        if let Some(status) = left.core.status(handler as HandlerNumber) {
            statuses.push(status)?;
        }
    }
    Ok(statuses)
}
