//! The search over choices alone.
ghost use Rattle.std.specs.Prelude.{◌≡◌, ◌≤◌, ◌<◌, [], IfNone, IfOk, IfSome, length};
ghost use Rattle.sc_search.specs.Stops.{ChoiceStopsFor, HasReached};
ghost use Rattle.sc_search.specs.Stored.{IsFrom};
ghost use Rattle.sc_search.specs.Views.{states_of};

use crate::judging::{Kind, is_at};
use crate::limits::Limits;
use crate::movers::{Rest, play_movers};
use crate::progress::{Progress, Stop, Way};
use crate::replay::Subject;
use crate::watch::Watch;
use sc_lockpass::HandlerNumber;
use std::alloc::AllocError;

/// Plays choices in every order, and movers after each, as long as what is kept is within the limits. Returns why it
/// stopped before all was played.
///
/// # Errors
/// Memory ran out.
pub(crate) fn play_choices<'p, W: Watch>(
    subject: Subject<'p>,
    progress: &mut Progress<'p>,
    limits: Limits,
    watch: &mut W,
) -> Result<Option<Stop>, AllocError>
    requires none { states_of progress.old ≡ [] }
    requires reached { HasReached subject.program.now.image subject.version subject.aim progress.old }
    ensures reached { IfOk result (λ stop. IfNone stop (HasReached subject.entry.program.now.image subject.entry.version subject.entry.aim progress.new)) }
    ensures stops { IfOk result (λ stop. IfSome stop (ChoiceStopsFor subject.entry.program.now.image subject.entry.version subject.entry.aim limits)) }
{
    if let Some(stop) = follow(subject, progress, None, Vec::new(subject.alloc), limits)? {
        return Ok(Some(stop));
    }
    for number in 0..limits.states {
        if number >= progress.store.len() {
            break;
        }
        if let Some(stop) = choose(subject, progress, number, limits)? {
            return Ok(Some(stop));
        }
        if let Some(stop) = progress.stop_past(subject, limits) {
            return Ok(Some(stop));
        }
        progress.show(number, watch);
    }
    Ok(None)
}

/// Tries the choice of each handler in a state.
fn choose<'p>(
    subject: Subject<'p>,
    progress: &mut Progress<'p>,
    number: u32,
    limits: Limits,
) -> Result<Option<Stop>, AllocError>
    requires there { number < length (states_of progress.old) }
    requires reached { HasReached subject.program.now.image subject.version subject.aim progress.old }
    ensures reached { IfOk result (λ stop. IfNone stop (HasReached subject.entry.program.now.image subject.entry.version subject.entry.aim progress.new)) }
    ensures stops { IfOk result (λ stop. IfSome stop (ChoiceStopsFor subject.entry.program.now.image subject.entry.version subject.entry.aim limits)) }
    ensures more { IfOk result (λ stop. IfNone stop (length (states_of progress.old) ≤ length (states_of progress.new))) }
{
    for handler in 0..progress.store.statuses(number).len() {
        if !is_at(Kind::IsBusy, progress.store.statuses(number), handler) {
            continue;
        }
        let mut turns = Vec::new(subject.alloc);
        turns.push(handler as HandlerNumber)?;
        if let Some(stop) = follow(subject, progress, Some(number), turns, limits)? {
            return Ok(Some(stop));
        }
    }
    Ok(None)
}

/// Plays movers after turns from a state, or from the opening, and keeps the state that they lead to.
fn follow<'p>(
    subject: Subject<'p>,
    progress: &mut Progress<'p>,
    parent: Option<u32>,
    mut turns: Vec<HandlerNumber>,
    limits: Limits,
) -> Result<Option<Stop>, AllocError>
    requires from { IsFrom (states_of progress.old) parent }
    requires reached { HasReached subject.program.now.image subject.version subject.aim progress.old }
    ensures reached { IfOk result (λ stop. IfNone stop (HasReached subject.entry.program.now.image subject.entry.version subject.entry.aim progress.new)) }
    ensures stops { IfOk result (λ stop. IfSome stop (ChoiceStopsFor subject.entry.program.now.image subject.entry.version subject.entry.aim limits)) }
    ensures more { IfOk result (λ stop. IfNone stop (length (states_of progress.old) ≤ length (states_of progress.new))) }
{
    let rest = play_movers(subject, progress, parent, &mut turns)?;
    let way = Way {
        parent,
        turns: &turns,
    };
    match rest {
        Rest::Met => Ok(Some(Stop::Met(progress.order_of(way)?))),
        Rest::Endless => Ok(Some(Stop::Endless)),
        Rest::Reached => progress.keep(subject, way, limits),
    }
}
