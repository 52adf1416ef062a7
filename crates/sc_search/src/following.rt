//! Turns that follow one at once, of any handlers.
ghost use Rattle.std.specs.Prelude.{◌≡◌, ◌<◌, ℕ, IfOk, IfSome, OnOk, length, true};
ghost use Rattle.sc_code.specs.declared.program.Image.{Image};
ghost use Rattle.sc_world.specs.Kept.{IsOf};
ghost use Rattle.sc_world.specs.Views.{world_in};
ghost use Rattle.sc_search.specs.Joined.{FollowsAtOnce};
ghost use Rattle.sc_search.specs.Steps.{GoesOnBy};
ghost use Rattle.sc_search.specs.Views.{states_in};

use crate::joining::{follows_at_once, ready_job};
use crate::store::Store;
use sc_lockpass::HandlerNumber;
use sc_world::Configuration;
use sc_world::laws::runs_stay_of_their_program;
use std::alloc::{AllocError, Global};

/// Where turns began: in the state of this number.
#[derive(Clone, Copy)]
pub(crate) struct Start<'s, 'p> {
    pub(crate) store: &'s Store<'p>,
    pub(crate) number: u32,
}

/// Makes further turns after that of a handler, at most `most`, as long as some handler's may follow at once, and adds them. Where
/// several may, the handler of the last turn goes on.
///
/// # Errors
/// Memory ran out.
pub(crate) fn go_on(
    alloc: Global,
    world: &mut Configuration<'_>,
    start: Start<'_, '_>,
    handler: HandlerNumber,
    most: u32,
    turns: &mut Vec<HandlerNumber>,
) -> Result<(), AllocError>
    requires there { start.number < length (states_in start.store.now) }
    ensures goes { OnOk result (GoesOnBy most turns.old.items turns.new.items (world_in world.old) (world_in world.new)) }
    ensures of { OnOk result ((p : Image) (limit : ℕ) → IsOf p limit (world_in world.old) → IsOf p limit (world_in world.new)) }
{
    runs_stay_of_their_program();
    let mut last = handler;
    for _ in 0..most {
        let Some(next) = next_handler(alloc, world, start, last, turns)? else {
            return Ok(());
        };
        world.turn(next)?;
        turns.push(next)?;
        last = next;
    }
    Ok(())
}

/// A handler whose next turn follows at once, if there is one: that of the last turn, or else the first.
///
/// # Errors
/// Memory ran out.
fn next_handler(
    alloc: Global,
    world: &Configuration<'_>,
    start: Start<'_, '_>,
    last: HandlerNumber,
    turns: &[HandlerNumber],
) -> Result<Option<HandlerNumber>, AllocError>
    requires there { start.number < length (states_in start.store.now) }
    ensures { IfOk result (λ next. IfSome next (λ h. FollowsAtOnce h (world_in world.now))) }
{
    if comes_next(alloc, world, start, last, turns)? {
        return Ok(Some(last));
    }
    for handler in 0..world.handler_count() {
        let handler = handler as HandlerNumber;
        if comes_next(alloc, world, start, handler, turns)? {
            return Ok(Some(handler));
        }
    }
    Ok(None)
}

/// Whether the next turn of a handler may follow at once, and the handler doesn't go round after these turns: so one that does
/// for ever adds no states.
///
/// # Errors
/// Memory ran out.
fn comes_next(
    alloc: Global,
    world: &Configuration<'_>,
    start: Start<'_, '_>,
    handler: HandlerNumber,
    turns: &[HandlerNumber],
) -> Result<bool, AllocError>
    requires there { start.number < length (states_in start.store.now) }
    ensures { IfOk result (λ follows. follows ≡ true → FollowsAtOnce handler (world_in world.now)) }
{
    let Some(job) = ready_job(world.core(), handler) else {
        return Ok(false);
    };
    if has_come_round(world, start, handler, turns) {
        return Ok(false);
    }
    follows_at_once(alloc, world, handler, &job)
}

/// Whether a handler has made one of these turns, and its region holds again what it held where they began.
fn has_come_round(
    world: &Configuration<'_>,
    start: Start<'_, '_>,
    handler: HandlerNumber,
    turns: &[HandlerNumber],
) -> bool
    requires there { start.number < length (states_in start.store.now) }
{
    if !turns.iter().any(|turn| *turn == handler) {
        return false;
    }
    match (
        world.region(handler),
        start.store.region(start.number, handler),
    ) {
        (Some(region), Some(begun)) => region.is_alike(begun),
        _ => false,
    }
}
