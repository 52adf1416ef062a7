//! The search over all turns.
//!
//! A turn that asks nothing of other handlers, releases what is its handler's own, asks a free handler, or takes a request where none can
//! be posted may be joined with the one before it: it does the same before and after the turns of others. Only the state that joined turns
//! lead to is kept.
ghost use Rattle.std.specs.Prelude.{◌≡◌, ◌≤◌, ◌<◌, IfNone, IfOk, IfSome, length};
ghost use Rattle.sc_world.specs.Views.{world_in};
ghost use Rattle.sc_world.specs.Worlds.{opened};
ghost use Rattle.sc_search.specs.Closed.{IsClosedFor};
ghost use Rattle.sc_search.specs.Memory.{bytes_of};
ghost use Rattle.sc_search.specs.Steps.{IsExplored, OpensAlone, Tries, TriesAll};
ghost use Rattle.sc_search.specs.Stops.{HasReached, StopsFor};
ghost use Rattle.sc_search.specs.Views.{met_of, nothing_met, states_of};

use crate::judging::{Kind, is_at};
use crate::limits::Limits;
use crate::progress::{Progress, Stop, Way};
use crate::replay::Subject;
use crate::verdict::Reason;
use crate::watch::Watch;
use sc_lockpass::HandlerNumber;
use sc_world::Turned;
use sc_world::laws::{
    kept_alike_read_alike, kept_alike_turn_alike, openings_are_of_their_program,
    runs_stay_of_their_program,
};
use std::alloc::AllocError;

/// Plays each turn of each state, as long as what is kept is within the limits. It is joined with further ones, at most
/// `joined` of them, as long as these may follow at once. Returns why it stopped before all was played.
///
/// # Errors
/// Memory ran out.
pub(crate) fn play_all<'p, W: Watch>(
    subject: Subject<'p>,
    progress: &mut Progress<'p>,
    joined: u32,
    limits: Limits,
    watch: &mut W,
) -> Result<Option<Stop>, AllocError>
    requires none { met_of progress.old ≡ nothing_met }
    requires opens { world_in progress.old.world ≡ opened subject.program.now.image subject.version }
    requires reached { HasReached subject.program.now.image subject.version subject.aim progress.old }
    ensures closed { IfOk result (λ stop. IfNone stop (IsClosedFor subject.entry (states_of progress.new))) }
    ensures explored { IfOk result (λ stop. IfNone stop (IsExplored subject.entry.program.now.image subject.entry.version joined (met_of progress.new))) }
    ensures reached { IfOk result (λ stop. IfNone stop (HasReached subject.entry.program.now.image subject.entry.version subject.entry.aim progress.new)) }
    ensures stops { IfOk result (λ stop. IfSome stop (StopsFor subject.entry.program.now.image subject.entry.version subject.entry.aim limits)) }
    ensures within { IfOk result (λ stop. IfNone stop (bytes_of progress.new ≤ limits.bytes)) }
{
    if let Some(stop) = keep_opening(subject, progress, limits)? {
        return Ok(Some(stop));
    }
    if let Some(stop) = progress.stop_past(subject, limits) {
        return Ok(Some(stop));
    }
    let mut number = 0;
    for _ in 0..limits.states {
        if number >= progress.store.len() {
            break;
        }
        if let Some(stop) = try_all(subject, progress, number, joined, limits)? {
            return Ok(Some(stop));
        }
        if let Some(stop) = progress.stop_past(subject, limits) {
            return Ok(Some(stop));
        }
        progress.show(number, watch);
        number += 1;
    }
    if number < progress.store.len() || number == u32::MAX {
        return Ok(Some(Stop::Cut(progress.give_up(Reason::States))));
    }
    Ok(None)
}

/// Keeps the state that the program opens in.
fn keep_opening<'p>(
    subject: Subject<'p>,
    progress: &mut Progress<'p>,
    limits: Limits,
) -> Result<Option<Stop>, AllocError>
    requires none { met_of progress.old ≡ nothing_met }
    requires opens { world_in progress.old.world ≡ opened subject.program.now.image subject.version }
    requires reached { HasReached subject.program.now.image subject.version subject.aim progress.old }
    ensures opens { IfOk result (λ stop. IfNone stop
        (OpensAlone subject.entry.program.now.image subject.entry.version subject.entry.aim (met_of progress.new))) }
    ensures reached { IfOk result (λ stop. IfNone stop (HasReached subject.entry.program.now.image subject.entry.version subject.entry.aim progress.new)) }
    ensures stops { IfOk result (λ stop. IfSome stop (StopsFor subject.entry.program.now.image subject.entry.version subject.entry.aim limits)) }
{
    let opening = Way {
        parent: None,
        turns: &[],
    };
    progress.keep(subject, opening, limits)
}

/// Tries the turn of each handler in a state.
fn try_all<'p>(
    subject: Subject<'p>,
    progress: &mut Progress<'p>,
    number: u32,
    joined: u32,
    limits: Limits,
) -> Result<Option<Stop>, AllocError>
    requires there { number < length (states_of progress.old) }
    requires reached { HasReached subject.program.now.image subject.version subject.aim progress.old }
    ensures tries { IfOk result (λ stop. IfNone stop
        (TriesAll subject.entry.program.now.image subject.entry.version subject.entry.aim joined (met_of progress.old) (met_of progress.new) number)) }
    ensures reached { IfOk result (λ stop. IfNone stop (HasReached subject.entry.program.now.image subject.entry.version subject.entry.aim progress.new)) }
    ensures stops { IfOk result (λ stop. IfSome stop (StopsFor subject.entry.program.now.image subject.entry.version subject.entry.aim limits)) }
{
    for handler in 0..progress.store.statuses(number).len() {
        if let Some(stop) = try_turn(
            subject,
            progress,
            number,
            handler as HandlerNumber,
            joined,
            limits,
        )? {
            return Ok(Some(stop));
        }
    }
    Ok(None)
}

/// Tries the turn of a handler in a state.
fn try_turn<'p>(
    subject: Subject<'p>,
    progress: &mut Progress<'p>,
    number: u32,
    handler: HandlerNumber,
    joined: u32,
    limits: Limits,
) -> Result<Option<Stop>, AllocError>
    requires there { number < length (states_of progress.old) }
    requires reached { HasReached subject.program.now.image subject.version subject.aim progress.old }
    ensures tries { IfOk result (λ stop. IfNone stop
        (Tries subject.entry.program.now.image subject.entry.version subject.entry.aim joined (met_of progress.old) (met_of progress.new) number handler)) }
    ensures reached { IfOk result (λ stop. IfNone stop (HasReached subject.entry.program.now.image subject.entry.version subject.entry.aim progress.new)) }
    ensures stops { IfOk result (λ stop. IfSome stop (StopsFor subject.entry.program.now.image subject.entry.version subject.entry.aim limits)) }
{
    if !is_at(
        Kind::IsBusy,
        progress.store.statuses(number),
        handler as usize,
    ) {
        return Ok(None);
    }
    move_on(subject, progress, number, handler, joined, limits)
}

/// Makes the turn of a handler in a state, joined with further ones, and keeps the state that they lead to.
fn move_on<'p>(
    subject: Subject<'p>,
    progress: &mut Progress<'p>,
    number: u32,
    handler: HandlerNumber,
    joined: u32,
    limits: Limits,
) -> Result<Option<Stop>, AllocError>
    requires there { number < length (states_of progress.old) }
    requires reached { HasReached subject.program.now.image subject.version subject.aim progress.old }
    ensures tries { IfOk result (λ stop. IfNone stop
        (Tries subject.entry.program.now.image subject.entry.version subject.entry.aim joined (met_of progress.old) (met_of progress.new) number handler)) }
    ensures reached { IfOk result (λ stop. IfNone stop (HasReached subject.entry.program.now.image subject.entry.version subject.entry.aim progress.new)) }
    ensures stops { IfOk result (λ stop. IfSome stop (StopsFor subject.entry.program.now.image subject.entry.version subject.entry.aim limits)) }
{
    kept_alike_read_alike();
    kept_alike_turn_alike();
    openings_are_of_their_program();
    runs_stay_of_their_program();
    progress.load(subject, number)?;
    if let Turned::Nothing = progress.turn(subject, handler)? {
        return Ok(None);
    }
    let mut turns = Vec::from_slice(subject.alloc, &[handler])?;
    progress.go_on(subject, number, handler, joined, &mut turns)?;
    let way = Way {
        parent: Some(number),
        turns: &turns,
    };
    progress.keep(subject, way, limits)
}
