//! Runs on one thread, without locks.
//!
//! That a handler's settlements lead to its region is kept on the way, so the regions need no logs.
ghost use Rattle.std.specs.Prelude.{◌≡◌, ◌≤◌, ◌↔◌, ◌<◌, ◌-◌, ℕ, IfErr, IfOk, IfSome, IsTrue, OnErr, OnOk, Some, false, is_some, length, true, vec_capacity, vec_len};
ghost use Rattle.std.specs.Bool.{OnTrue};
ghost use Rattle.std.specs.Option.{option_map};
ghost use Rattle.sc_lockpass.specs.declared.version.Version.TheVariants.{Two};
ghost use Rattle.sc_code.specs.declared.program.Image.{Image};
ghost use Rattle.sc_region.specs.declared.job.Job.{Job};
ghost use Rattle.sc_region.specs.declared.job.Want.TheVariants as want;
ghost use Rattle.sc_request.specs.Cores.{center_of, log_of};
ghost use Rattle.sc_request.specs.Logs.{next, picks};
ghost use Rattle.sc_request.specs.Rooms.{HasRoomFor};
ghost use Rattle.sc_plant.specs.declared.alone.Stretch.TheVariants.{Over};
ghost use Rattle.sc_plant.specs.Alone.{AreNew, IsBack, IsCutOff, IsOnWay, IsPlayed, IsRecorded};
ghost use Rattle.sc_plant.specs.Bounded.{EndsBehind, IsBoundedRun};
ghost use Rattle.sc_recording.specs.Ending.{IsOver};
ghost use Rattle.sc_plant.specs.Left.{IsOutOfMemory, IsStopped, LeavesNothing, SaysWhy, TellsLeft};
ghost use Rattle.sc_plant.specs.Order.{ComesInOrder, GoesInOrder, round_robin};

use crate::bounds::Bounds;
use crate::gate::Gate;
use crate::granularity::Granularity;
use crate::left::{Left, RunFault};
use crate::opening::{MAX_HANDLERS, open_core};
use crate::outputs::{Tally, are_past};
use crate::scheduler::MOST_TURNS;
use crate::wants::clear_want;
use crate::watch::Watch;
use sc_audit::RecordLine;
use sc_code::Program;
use sc_lockpass::{HandlerNumber, Version};
use sc_play::Region;
use sc_recording::{MOST_LINES, is_idle_or_full, settle_out, turns_in, turns_left};
use sc_region::Want;
use sc_request::Core;
use std::alloc::{AllocError, Global};
use std::sync::Wait;

/// Plays the handlers of a program on the calling thread, until the run is over. Returns what it leaves, and the
/// number of turns that ended it at most.
///
/// # Errors
/// U1 if memory is refused, with what is left then, unless the run hadn't begun.
#[inline(never)]
pub fn run_alone<'p, R: Wait, G: Gate, W: Watch>(
    rt: &R,
    alloc: Global,
    program: &'p Program,
    bounds: Bounds,
    gate: &G,
    watch: &mut W,
) -> Result<(Left<'p>, u32), RunFault<'p>>
    ensures ok { IfOk result (λ ended. IsBoundedRun program.now.image bounds ended.1 ended.0) }
    ensures order { IfOk result (λ ended. GoesInOrder round_robin program.now.image ended.0) }
    ensures err { IfErr result (SaysWhy program.now.image) }
    ensures unbegun { IfErr result (λ fault. LeavesNothing fault → watch.new ≡ watch.old) }
    ensures memory { IfErr result IsOutOfMemory }
{
    let Ok(left) = open_left(alloc, program) else {
        return Err(RunFault::OutOfMemory(None));
    };
    play_opened(rt, left, bounds, gate, watch)
}

/// A run that has opened.
fn play_opened<'p, R: Wait, G: Gate, W: Watch>(
    rt: &R,
    mut left: Left<'p>,
    bounds: Bounds,
    gate: &G,
    watch: &mut W,
) -> Result<(Left<'p>, u32), RunFault<'p>>
    requires count { length left.regions.items ≡ 512 }
    requires version { left.core.state.rights.version ≡ Two }
    ensures ok { (p : Image) → IsOnWay p left.entry → IfOk result (λ ended. IsBoundedRun p bounds ended.1 ended.0) }
    ensures order { (p : Image) → ((n : ℕ) → ComesInOrder round_robin p n left.entry.core) → IfOk result (λ ended. GoesInOrder round_robin p ended.0) }
    ensures err { (p : Image) → IsOnWay p left.entry → IfErr result (SaysWhy p) }
    ensures left { IfErr result TellsLeft }
    ensures memory { IfErr result IsOutOfMemory }
{
    let Ok((turns, _)) = play_all(rt, &mut left, Stretch::Over, bounds, gate, watch) else {
        return Err(RunFault::OutOfMemory(Some(left)));
    };
    Ok((left, turns))
}

/// What is there before the first turn.
pub fn open_left<'p>(alloc: Global, program: &'p Program) -> Result<Left<'p>, AllocError>
    ensures on { IfOk result (IsOnWay program.now.image) }
    ensures order { IfOk result (λ left. (n : ℕ) → ComesInOrder round_robin program.now.image n left.core) }
{
    let regions = open_regions(alloc, program)?;
    let core = open_core(alloc, program, Version::Two)?;
    Ok(Left {
        regions,
        core,
        lines: Vec::new(alloc),
        version: Version::Two,
    })
}

/// A region for each handler that there may be.
fn open_regions<'p>(alloc: Global, program: &'p Program) -> Result<Vec<Region<'p>>, AllocError>
    ensures count { IfOk result (λ regions. vec_len regions ≡ 512) }
    ensures new { IfOk result (λ regions. AreNew program.now.image regions.items) }
{
    let mut regions = Vec::with_capacity(alloc, MAX_HANDLERS as usize)?;
    for handler in 0..MAX_HANDLERS {
        regions.push_reserved(Region::new(alloc, program, handler));
    }
    Ok(regions)
}

/// How far one thread plays.
#[derive(Clone, Copy)]
pub enum Stretch {
    /// Until the run is over.
    Over,
    /// Until that, or until several workers would play it faster.
    CoarseGrained,
}

/// Plays the handlers, and lets the watch look after each task. Returns whether the run is over, and the number of
/// turns that end it at most. Err if memory is refused.
pub fn play_all<R: Wait, G: Gate, W: Watch>(
    rt: &R,
    left: &mut Left<'_>,
    stretch: Stretch,
    bounds: Bounds,
    gate: &G,
    watch: &mut W,
) -> Result<(u32, bool), AllocError>
    requires count { length left.old.regions.items ≡ 512 }
    requires version { left.old.core.state.rights.version ≡ Two }
    ensures on { OnOk result ((p : Image) → IsOnWay p left.old → IsOnWay p left.new) }
    ensures order { OnOk result ((p : Image) → ((n : ℕ) → ComesInOrder round_robin p n left.old.core) → GoesInOrder round_robin p left.new) }
    ensures over { IfOk result (λ over. over.1 ≡ true → IsOver over.0 (center_of left.new.core) left.new.lines.items) }
    ensures ends { IfOk result (λ over. over.1 ≡ true → EndsBehind bounds over.0 left.new.regions.items) }
    ensures whole { stretch ≡ Over → IfOk result (λ over. over.1 ≡ true) }
    ensures err { OnErr result ((p : Image) → IsOnWay p left.old → IsStopped p left.new) }
{
    let mut asked = Want::Continue;
    let mut turns = turns_left(left.lines.as_slice(), bounds.turns);
    let mut tally = Tally::of(left);
    let mut granularity = Granularity::new();
    for _ in rt.forever() {
        let made = play_next(left, turns.min(MOST_TURNS), &mut asked, gate)?;
        turns = turns.saturating_sub(made);
        if let Some(end) = end_behind(left, made, bounds, &mut tally, watch) {
            return Ok((end, true));
        }
        if made > 0 && gives_way(stretch, &mut granularity, left.lines.as_slice()) {
            return Ok((bounds.turns, false));
        }
    }
    unreachable!()
}

/// Whether one thread is to end after its last task, since several workers would play such tasks faster.
fn gives_way(stretch: Stretch, granularity: &mut Granularity, lines: &[RecordLine]) -> bool
    ensures { stretch ≡ Over → result ≡ false }
{
    matches!(stretch, Stretch::CoarseGrained) && is_coarse(granularity, lines)
}

/// Counts the last task: whether several workers would play such tasks faster.
fn is_coarse(granularity: &mut Granularity, lines: &[RecordLine]) -> bool {
    if let Some(line) = lines.last() {
        granularity.note(*line);
    }
    granularity.is_coarse()
}

/// Whether the run is over.
fn is_over(left: &mut Left<'_>, limit: u32) -> bool
    ensures over { OnTrue result (IsOver limit (center_of left.new.core) left.new.lines.items) }
    ensures count { length left.new.regions.items ≡ length left.old.regions.items }
    ensures version { left.new.core.state.rights.version ≡ left.old.core.state.rights.version }
    ensures regions { left.new.regions ≡ left.old.regions }
    ensures on { (p : Image) → IsOnWay p left.old → IsOnWay p left.new }
    ensures order { (p : Image) (n : ℕ) → ComesInOrder round_robin p n left.old.core → ComesInOrder round_robin p n left.new.core }
{
    let Left { core, lines, .. } = left;
    is_idle_or_full(core, lines.as_slice(), limit)
}

/// The number of turns that ends the run here, if it ends: its limit, or those that were made, if the handlers have
/// printed more than they may.
pub fn ended(left: &mut Left<'_>, bounds: Bounds) -> Option<u32>
    ensures over { IfSome result (λ turns. IsOver turns (center_of left.new.core) left.new.lines.items) }
    ensures ends { IfSome result (λ turns. EndsBehind bounds turns left.new.regions.items) }
    ensures count { length left.new.regions.items ≡ length left.old.regions.items }
    ensures version { left.new.core.state.rights.version ≡ left.old.core.state.rights.version }
    ensures on { (p : Image) → IsOnWay p left.old → IsOnWay p left.new }
    ensures order { (p : Image) (n : ℕ) → ComesInOrder round_robin p n left.old.core → ComesInOrder round_robin p n left.new.core }
{
    if is_over(left, bounds.turns) {
        return Some(bounds.turns);
    }
    cut_short(left, bounds)
}

/// This number of turns, if the run is over after them.
fn over_at(left: &mut Left<'_>, turns: u32) -> Option<u32>
    ensures over { IfSome result (λ made. IsOver made (center_of left.new.core) left.new.lines.items) }
    ensures same { IfSome result (λ made. made ≡ turns) }
    ensures count { length left.new.regions.items ≡ length left.old.regions.items }
    ensures version { left.new.core.state.rights.version ≡ left.old.core.state.rights.version }
    ensures regions { left.new.regions ≡ left.old.regions }
    ensures on { (p : Image) → IsOnWay p left.old → IsOnWay p left.new }
    ensures order { (p : Image) (n : ℕ) → ComesInOrder round_robin p n left.old.core → ComesInOrder round_robin p n left.new.core }
{
    if is_over(left, turns) {
        return Some(turns);
    }
    None
}

/// The number of turns that ends the run after a task of this number of turns, if it ends. Lets the watch look if
/// there were any.
fn end_behind<W: Watch>(
    left: &mut Left<'_>,
    made: u32,
    bounds: Bounds,
    tally: &mut Tally,
    watch: &mut W,
) -> Option<u32>
    ensures over { IfSome result (λ turns. IsOver turns (center_of left.new.core) left.new.lines.items) }
    ensures ends { IfSome result (λ turns. EndsBehind bounds turns left.new.regions.items) }
    ensures count { length left.new.regions.items ≡ length left.old.regions.items }
    ensures version { left.new.core.state.rights.version ≡ left.old.core.state.rights.version }
    ensures on { (p : Image) → IsOnWay p left.old → IsOnWay p left.new }
    ensures order { (p : Image) (n : ℕ) → ComesInOrder round_robin p n left.old.core → ComesInOrder round_robin p n left.new.core }
{
    if made == 0 {
        return over_at(left, bounds.turns);
    }
    watch.sees(left);
    cut_behind(left, bounds, tally)
}

/// The number of turns that ends the run after a task, if the handlers have printed more than they may.
fn cut_behind(left: &mut Left<'_>, bounds: Bounds, tally: &mut Tally) -> Option<u32>
    ensures over { IfSome result (λ turns. IsOver turns (center_of left.new.core) left.new.lines.items) }
    ensures ends { IfSome result (λ turns. EndsBehind bounds turns left.new.regions.items) }
    ensures count { length left.new.regions.items ≡ length left.old.regions.items }
    ensures version { left.new.core.state.rights.version ≡ left.old.core.state.rights.version }
    ensures on { (p : Image) → IsOnWay p left.old → IsOnWay p left.new }
    ensures order { (p : Image) (n : ℕ) → ComesInOrder round_robin p n left.old.core → ComesInOrder round_robin p n left.new.core }
{
    if !tally.is_past(left, bounds.output) {
        return None;
    }
    cut_short(left, bounds)
}

/// The turns that were made, where the handlers have printed more than they may.
fn cut_short(left: &mut Left<'_>, bounds: Bounds) -> Option<u32>
    ensures over { IfSome result (λ turns. IsOver turns (center_of left.new.core) left.new.lines.items) }
    ensures ends { IfSome result (λ turns. EndsBehind bounds turns left.new.regions.items) }
    ensures count { length left.new.regions.items ≡ length left.old.regions.items }
    ensures version { left.new.core.state.rights.version ≡ left.old.core.state.rights.version }
    ensures on { (p : Image) → IsOnWay p left.old → IsOnWay p left.new }
    ensures order { (p : Image) (n : ℕ) → ComesInOrder round_robin p n left.old.core → ComesInOrder round_robin p n left.new.core }
{
    let Some(made) = turns_in(left.lines.as_slice()) else {
        return None;
    };
    let limit = bounds.turns;
    if made > limit {
        return None;
    }
    if are_past(left, bounds.output) {
        return over_at(left, made);
    }
    None
}

/// Lets the next handler with a job play at most this number of its turns, which are settled and recorded. Returns
/// how many it made: none if no handler has a job, if none may be made, or if the record is full.
///
/// # Errors
/// Memory is refused, perhaps after turns that are made and settled.
fn play_next<G: Gate>(
    left: &mut Left<'_>,
    limit: u32,
    asked: &mut Want,
    gate: &G,
) -> Result<u32, AllocError>
    requires few { limit ≤ 256 }
    requires count { length left.old.regions.items ≡ 512 }
    requires version { left.old.core.state.rights.version ≡ Two }
    ensures on { OnOk result ((p : Image) → IsOnWay p left.old → IsOnWay p left.new) }
    ensures order { IfOk result (λ made. (p : Image) (n m : ℕ) → limit ≤ n → (limit < n → limit ≡ 256) → m ≤ n - made
        → ComesInOrder round_robin p n left.old.core → ComesInOrder round_robin p m left.new.core) }
    ensures err { OnErr result ((p : Image) → IsOnWay p left.old → IsStopped p left.new) }
    ensures count { length left.new.regions.items ≡ 512 }
    ensures version { left.new.core.state.rights.version ≡ Two }
{
    let Left {
        regions,
        core,
        lines,
        ..
    } = left;
    if limit == 0 || lines.len() >= MOST_LINES {
        return Ok(0);
    }
    let Some(handler) = pick_with_room(core, lines)? else {
        return Ok(0);
    };
    let region = &mut regions[handler as usize];
    play_picked(core, region, lines, handler, limit, asked, gate)
}

/// Picks the next handler with a job, with room to settle and to record it. None if no handler has a job.
///
/// # Errors
/// Memory ran out. Then no handler goes out.
fn pick_with_room(
    core: &mut Core,
    lines: &mut Vec<RecordLine>,
) -> Result<Option<HandlerNumber>, AllocError>
    ensures handler { IfOk result (λ picked. picked ≡ option_map (λ p. p.0) (next (center_of core.old))) }
    ensures below { IfOk result (λ picked. IfSome picked (λ handler. handler < 512)) }
    ensures center { OnOk result (center_of core.new ≡ picks (next (center_of core.old)) (center_of core.old)) }
    ensures err { OnErr result (center_of core.new ≡ center_of core.old) }
    ensures log { log_of core.new ≡ log_of core.old }
    ensures room { OnOk result (HasRoomFor 0 core.new) }
    ensures place { OnOk result (vec_len lines.new < vec_capacity lines.new) }
    ensures lines { lines.new.items ≡ lines.old.items }
    ensures version { core.new.state.rights.version ≡ core.old.state.rights.version }
{
    core.make_room()?;
    lines.reserve(1)?;
    Ok(core.pick())
}

/// Plays at most this number of turns of the job of a handler that is out, with calls of the gate before and after.
/// They are settled and recorded. Returns how many it made.
///
/// # Errors
/// Memory is refused: to the first turn, and the handler is put back; or after turns that are settled and
/// recorded.
fn play_picked<G: Gate>(
    core: &mut Core,
    region: &mut Region<'_>,
    lines: &mut Vec<RecordLine>,
    handler: HandlerNumber,
    limit: u32,
    asked: &mut Want,
    gate: &G,
) -> Result<u32, AllocError>
    requires limit { 1 ≤ limit }
    requires out { is_some ((center_of core.old).out handler) ≡ true }
    requires room { HasRoomFor 0 core.old }
    requires version { core.old.state.rights.version ≡ Two }
    requires place { vec_len lines.old < vec_capacity lines.old }
    ensures ok { IfOk result (λ turns. IsRecorded limit handler turns asked.new core.old core.new region.old region.new lines.old.items lines.new.items) }
    ensures whole { IfOk result (λ turns. (turns < limit) × (asked.new ≡ want.Continue) → ⊥) }
    ensures err { OnErr result (IsCutOff limit handler asked.new core.old core.new region.old region.new lines.old.items lines.new.items) }
    ensures version { core.new.state.rights.version ≡ Two }
{
    clear_want(asked);
    gate.began(handler);
    let played = play_out(core, region, handler, limit, asked);
    gate.ended(handler);
    let Ok(turns) = played else {
        return Err(AllocError);
    };
    lines.push_reserved(RecordLine { handler, turns });
    if is_cut_short(limit, turns, asked) {
        return Err(AllocError);
    }
    Ok(turns)
}

/// Plays at most this number of turns of the job of a handler that is out, and settles them. Returns how many. Err if
/// memory is refused to the first: the handler is put back.
fn play_out(
    core: &mut Core,
    region: &mut Region<'_>,
    handler: HandlerNumber,
    limit: u32,
    asked: &mut Want,
) -> Result<u32, AllocError>
    requires limit { 1 ≤ limit }
    requires asked { asked.old ≡ want.Continue }
    requires out { is_some ((center_of core.old).out handler) ≡ true }
    requires room { HasRoomFor 0 core.old }
    requires version { core.old.state.rights.version ≡ Two }
    ensures ok { IfOk result (λ turns. (job : Job) → (center_of core.old).out handler ≡ Some job
        → IsPlayed limit handler job turns asked.new core.old core.new region.old region.new) }
    ensures err { OnErr result (IsBack handler core.old core.new region.old region.new) }
    ensures version { core.new.state.rights.version ≡ Two }
{
    let Some(job) = core.job_out(handler) else {
        unreachable!();
    };
    let Ok(turns) = region.play_asking(job, limit, asked) else {
        core.put_back(handler);
        return Err(AllocError);
    };
    settle_out(core, handler, turns, asked);
    Ok(turns)
}

/// Whether turns were cut short: the last asks nothing, and there might be more.
fn is_cut_short(limit: u32, turns: u32, asked: &Want) -> bool
    ensures { IsTrue result ↔ ((turns < limit) × (asked.now ≡ want.Continue)) }
{
    turns < limit && matches!(asked, Want::Continue)
}
