//! Runs of a program on several threads.
ghost use Rattle.std.specs.Prelude.{◌≡◌, ◌≤◌, ℕ, IfErr, IfOk, None, Some, true};
ghost use Rattle.sc_plant.specs.Bounded.{IsBoundedRun};
ghost use Rattle.sc_code.specs.declared.program.Image.{Image};
ghost use Rattle.sc_request.specs.Cores.{center_of};
ghost use Rattle.sc_recording.specs.Ending.{IsOver};
ghost use Rattle.sc_plant.specs.Left.{IsOutOfMemory, IsRun, LeavesNothing, SaysWhy, TellsLeft};
ghost use Rattle.sc_plant.specs.Order.{GoesInOrder, round_robin};
ghost use Rattle.sc_plant.specs.Sharing.{IsOnWayIn};

use crate::alone::{Stretch, ended, open_left, play_all, run_alone};
use crate::bounds::Bounds;
use crate::gate::Gate;
use crate::leaving::{difference, left_of, without_logs};
use crate::left::{Left, RunFault};
use crate::scheduler::Scheduler;
use crate::sharing::{Shared, share};
use crate::slot::Slot;
use crate::watch::{Unwatched, Watch};
use crate::workers::start_and_join;
use sc_audit::RecordLine;
use sc_code::Program;
use sc_recording::{OfProgram, RecordedCore, Stop, has_ended, turns_in, turns_left};
use std::alloc::Global;
use std::marker::Brand;
use std::sync::{Mutex, Wait};
use std::thread::Threads;

/// How many turns several workers make between two looks at the run.
const TURNS_BETWEEN: u32 = 262_144;

/// How many turns several workers make between two looks if what is printed has a bound: a turn may print 10,000
/// bytes and more.
const TURNS_BETWEEN_OUTPUTS: u32 = 4_096;

/// Plays the handlers of a program on this number of threads, the calling one among them, until none has a job, the
/// limit of turns is reached, or the record has 1,000,000 lines. There may be 512 handlers.
///
/// Each handler is played by one thread at a time, under the lock of its region, with calls of the gate there. What
/// is left is what one thread leaves that makes the turns of the record's lines, one after the other.
///
/// # Errors
/// U1 if memory is refused, with what is left then, unless the run hadn't begun; U2 if a thread is refused;
/// and U3 if a region played other jobs than were settled, which isn't expected: workers settle what they play. With
/// one worker it is always U1. All threads have ended then, too.
pub fn run<'p, R: Threads + Wait + Sync, G: Gate>(
    rt: &R,
    alloc: Global,
    program: &'p Program,
    workers: u8,
    limit: u32,
    gate: &G,
) -> Result<Left<'p>, RunFault<'p>>
    ensures ok { IfOk result (IsRun program.now.image limit) }
    ensures err { IfErr result (SaysWhy program.now.image) }
    ensures alone { workers ≤ 1 → IfErr result IsOutOfMemory }
    ensures order { workers ≤ 1 → IfOk result (GoesInOrder round_robin program.now.image) }
{
    let bounds = Bounds {
        turns: limit,
        output: None,
    };
    match run_watched(rt, alloc, program, workers, bounds, gate, &mut Unwatched) {
        Ok(ended) => Ok(ended.0),
        Err(fault) => Err(fault),
    }
}

/// Runs a program as `run` does, within bounds, and lets a watch look between its tasks: after each that one thread
/// plays, and when several workers have ended. By one worker the tasks are those of a run without a watch. Returns
/// the number of turns that ended the run at most, which is below the bound if the handlers have printed more than
/// they may.
///
/// # Errors
/// Those of a run without a watch. U1 without anything left comes only if the run hadn't begun, so the watch has seen
/// nothing.
pub fn run_watched<'p, R: Threads + Wait + Sync, G: Gate, W: Watch>(
    rt: &R,
    alloc: Global,
    program: &'p Program,
    workers: u8,
    bounds: Bounds,
    gate: &G,
    watch: &mut W,
) -> Result<(Left<'p>, u32), RunFault<'p>>
    ensures ok { IfOk result (λ ended. IsBoundedRun program.now.image bounds ended.1 ended.0) }
    ensures err { IfErr result (SaysWhy program.now.image) }
    ensures unbegun { IfErr result (λ fault. LeavesNothing fault → watch.new ≡ watch.old) }
    ensures alone { workers ≤ 1 → IfErr result IsOutOfMemory }
    ensures order { workers ≤ 1 → IfOk result (λ ended. GoesInOrder round_robin program.now.image ended.0) }
{
    if workers <= 1 {
        return run_alone(rt, alloc, program, bounds, gate, watch);
    }
    run_open::<Brand, R, G, W>(rt, alloc, program, workers, bounds, gate, watch)
}

/// A run of the program that the types under its locks have.
#[inline(never)]
fn run_open<'p, P: OfProgram + Send + Sync, R: Threads + Wait + Sync, G: Gate, W: Watch>(
    rt: &R,
    alloc: Global,
    program: &'p Program,
    workers: u8,
    bounds: Bounds,
    gate: &G,
    watch: &mut W,
) -> Result<(Left<'p>, u32), RunFault<'p>>
    requires { P.image ≡ Some program.now.image }
    ensures ok { IfOk result (λ ended. IsBoundedRun program.now.image bounds ended.1 ended.0) }
    ensures err { IfErr result (SaysWhy program.now.image) }
    ensures unbegun { IfErr result (λ fault. LeavesNothing fault → watch.new ≡ watch.old) }
{
    let Ok(left) = open_left(alloc, program) else {
        return Err(RunFault::OutOfMemory(None));
    };
    play_in_turns::<P, R, G, W>(rt, alloc, left, workers, bounds, gate, watch)
}

/// Plays a run that has opened, by several workers as long as that is faster, and in turns with that by one.
fn play_in_turns<'p, P: OfProgram + Send + Sync, R: Threads + Wait + Sync, G: Gate, W: Watch>(
    rt: &R,
    alloc: Global,
    mut left: Left<'p>,
    workers: u8,
    bounds: Bounds,
    gate: &G,
    watch: &mut W,
) -> Result<(Left<'p>, u32), RunFault<'p>>
    requires { IsOnWayIn P.image left }
    ensures ok { (p : Image) → P.image ≡ Some p → IfOk result (λ ended. IsBoundedRun p bounds ended.1 ended.0) }
    ensures err { (p : Image) → P.image ≡ Some p → IfErr result (SaysWhy p) }
    ensures left { IfErr result TellsLeft }
{
    for _ in rt.forever() {
        let pause = turns_to_see(left.lines.as_slice(), bounds, watch.interrupts());
        let (next, _) = play_shared::<P, R, G>(rt, alloc, left, workers, pause, gate)?;
        left = next;
        watch.sees(&left);
        if let Some(made) = ended(&mut left, bounds) {
            return Ok((left, made));
        }
        let Ok((turns, is_over)) = play_all(
            rt,
            &mut left,
            Stretch::CoarseGrained,
            bounds,
            gate,
            watch,
        ) else {
            return Err(RunFault::OutOfMemory(Some(left)));
        };
        if is_over {
            return Ok((left, turns));
        }
    }
    unreachable!()
}

/// After which number of turns several workers are to end, so that the watch can see what was printed, or the state
/// if they are to be interrupted.
fn turns_to_see(lines: &[RecordLine], bounds: Bounds, interrupts: bool) -> u32 {
    let between = if bounds.output.is_some() {
        TURNS_BETWEEN_OUTPUTS
    } else if interrupts {
        TURNS_BETWEEN
    } else {
        return bounds.turns;
    };
    let made = turns_in(lines).unwrap_or(bounds.turns);
    bounds.turns.min(made.saturating_add(between))
}

/// Plays by several workers: what they leave, and whether the run is over.
fn play_shared<'p, P: OfProgram + Send + Sync, R: Threads + Wait + Sync, G: Gate>(
    rt: &R,
    alloc: Global,
    left: Left<'p>,
    workers: u8,
    limit: u32,
    gate: &G,
) -> Result<(Left<'p>, bool), RunFault<'p>>
    requires { IsOnWayIn P.image left }
    ensures on { IfOk result (λ r. IsOnWayIn P.image r.0) }
    ensures over { IfOk result (λ r. r.1 ≡ true → IsOver limit (center_of r.0.core) r.0.lines.items) }
    ensures err { (p : Image) → P.image ≡ Some p → IfErr result (SaysWhy p) }
    ensures left { IfErr result TellsLeft }
{
    let shared = match share::<P>(alloc, left) {
        Ok(shared) => shared,
        Err(left) => return Err(RunFault::OutOfMemory(Some(left))),
    };
    let Shared {
        recorded,
        slots,
        logged,
        bare,
    } = shared;
    let turns = turns_left(recorded.lines.as_slice(), limit);
    let scheduler = Scheduler::new(recorded, turns);
    let (recorded, stop) = rounds(rt, scheduler, &slots, workers, limit, gate);
    let (logged_left, is_refused) = left_of(recorded, slots, logged);
    if let Some(Stop::ThreadRefused) = stop {
        return Err(RunFault::ThreadRefused);
    }
    if let Some(handler) = difference(&logged_left) {
        return Err(RunFault::LogsDiffer(handler, logged_left));
    }
    let left = without_logs(logged_left, bare);
    if is_refused || matches!(stop, Some(Stop::OutOfMemory)) {
        return Err(RunFault::OutOfMemory(Some(left)));
    }
    Ok((left, stop.is_none()))
}

/// Rounds of the workers, until the run is over or they were stopped and no handler is out: why they were.
#[inline(never)]
fn rounds<'p, P: OfProgram + Send + Sync, R: Threads + Wait + Sync, G: Gate>(
    rt: &R,
    mut scheduler: Scheduler<P>,
    slots: &Vec<Mutex<Slot<'p, P>>>,
    workers: u8,
    limit: u32,
    gate: &G,
) -> (RecordedCore<P>, Option<Stop>)
    ensures over { result.1 ≡ None → IsOver limit (center_of result.0.core) result.0.lines.items }
    ensures home { (h : ℕ) → (center_of result.0.core).out h ≡ None }
{
    for _ in rt.forever() {
        let stop = scheduler.stop;
        if has_ended(&mut scheduler.recorded, stop, limit) {
            return (scheduler.recorded, stop);
        }
        let lock = Mutex::new(scheduler);
        start_and_join(rt, &lock, slots, workers, gate);
        scheduler = lock.into_inner();
    }
    unreachable!()
}
