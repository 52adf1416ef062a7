//! Whether a run is over.
ghost use Rattle.std.specs.Prelude.{◌≡◌, ℕ, IfSome, IsTrue, None};
ghost use Rattle.std.specs.Bool.{OnTrue};
ghost use Rattle.sc_request.specs.Cores.{center_of, log_of};
ghost use Rattle.sc_recording.specs.Ending.{IsOver, turns_in};

use crate::of_program::OfProgram;
use crate::recorded_core::RecordedCore;
use sc_audit::RecordLine;
use sc_request::Core;

/// The most lines of a record.
pub const MOST_LINES: usize = 1_000_000;

/// Why the workers end before there is nothing to do.
#[derive(Clone, Copy)]
pub enum Stop {
    /// There was no memory. What was played is settled, and who was refused is put back.
    OutOfMemory,
    /// There was no thread.
    ThreadRefused,
    /// One worker plays such short tasks faster.
    FineGrained,
}

/// Whether the workers have no more to do: they were stopped and no handler is out, or the run is over.
pub fn has_ended<P: OfProgram>(
    recorded: &mut RecordedCore<P>,
    stop: Option<Stop>,
    limit: u32,
) -> bool
    ensures over { IsTrue result → stop ≡ None → IsOver limit (center_of recorded.new.core) recorded.new.lines.items }
    ensures home { IsTrue result → (h : ℕ) → (center_of recorded.new.core).out h ≡ None }
{
    if is_stopped(stop, &recorded.core) {
        return true;
    }
    is_over(recorded, limit)
}

/// Whether the workers were stopped, and no handler is out.
fn is_stopped(stop: Option<Stop>, core: &Core) -> bool
    ensures stop { IsTrue result → stop ≡ None → ⊥ }
    ensures home { IsTrue result → (h : ℕ) → (center_of core.now).out h ≡ None }
{
    stop.is_some() && core.out_count() == 0
}

/// Whether no handler is out, and nothing can be picked, or no more may be. Not where more turns were made than may be, or
/// there are more lines than may be.
fn is_over<P: OfProgram>(recorded: &mut RecordedCore<P>, limit: u32) -> bool
    ensures over { OnTrue result (IsOver limit (center_of recorded.new.core) recorded.new.lines.items) }
    ensures lines { recorded.new.lines ≡ recorded.old.lines }
{
    let RecordedCore { core, lines, .. } = recorded;
    is_idle_or_full(core, lines.as_slice(), limit)
}

/// Whether a run of a core and its record is over: no handler has a job, or the record is full.
pub fn is_idle_or_full(core: &mut Core, lines: &[RecordLine], limit: u32) -> bool
    ensures over { OnTrue result (IsOver limit (center_of core.new) lines.now) }
    ensures center { center_of core.new ≡ center_of core.old }
    ensures log { log_of core.new ≡ log_of core.old }
    ensures version { core.new.state.rights.version ≡ core.old.state.rights.version }
{
    let is_idle = core.comes_again(0);
    if core.out_count() > 0 {
        return false;
    }
    let Some(turns) = turns_in(lines) else {
        return false;
    };
    if turns > limit {
        return false;
    }
    if lines.len() > MOST_LINES {
        return false;
    }
    if is_idle {
        return true;
    }
    if lines.len() == MOST_LINES {
        return true;
    }
    if turns == limit {
        return true;
    }
    false
}

/// How many turns may still be made after the lines of a record.
pub fn turns_left(lines: &[RecordLine], limit: u32) -> u32 {
    limit.saturating_sub(turns_in(lines).unwrap_or(limit))
}

/// How many turns there are in the lines of a record, where that is below 2^32.
pub fn turns_in(lines: &[RecordLine]) -> Option<u32>
    ensures { IfSome result (λ n. n ≡ turns_in lines.now) }
{
    let mut turns = 0u32;
    for line in lines {
        turns = turns.checked_add(line.turns)?;
    }
    Some(turns)
}
