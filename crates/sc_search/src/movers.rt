//! Turns that need no branching.
//!
//! A turn of a handler is a choice if it reserves handlers, creates one, or fails; if it posts with lock passing,
//! unless no other handler can be in its way; and if it takes a request while another handler may post to it. Any
//! other is a mover: it does the same before and after the turns of others, so that these needn't be tried before
//! it.
ghost use Rattle.std.specs.Prelude.{◌≡◌, ℕ, IfOk, OnOk};
ghost use Rattle.sc_code.specs.declared.program.Image.{Image};
ghost use Rattle.sc_world.specs.Views.{world_in};
ghost use Rattle.sc_world.specs.Kept.{IsOf};
ghost use Rattle.sc_search.specs.Stops.{HasReached, Moves, RestsAt};
ghost use Rattle.sc_search.specs.Stored.{IsFrom, order_after};
ghost use Rattle.sc_search.specs.Views.{orders_of, states_of};

use crate::judging::is_met;
use crate::progress::{Progress, Way};
use crate::replay::Subject;
use sc_lockpass::HandlerNumber;
use sc_model::Status;
use sc_region::{Job, Want};
use sc_request::Core;
use sc_world::Configuration;
use sc_world::laws::{
    kept_alike_read_alike, kept_alike_turn_alike, openings_are_of_their_program,
    runs_stay_of_their_program,
};
use std::alloc::AllocError;

/// How many handlers there may be in any version.
const MAX_HANDLERS: usize = 512;

/// The most movers that are played one after the other.
const MOST_MOVERS: u32 = 1_000_000;

/// What is known of the next turn of a handler.
#[derive(Clone, Copy)]
enum Peek {
    /// Nothing, or that it may be a mover.
    Unknown,
    /// It is a choice.
    Choice,
    /// It asks this handler, with lock passing.
    Passes(HandlerNumber),
}

/// Where movers led.
#[derive(Clone, Copy)]
pub(crate) enum Rest {
    /// On the way what is looked for was met.
    Met,
    /// No handler has a mover any more in the world.
    Reached,
    /// There were too many of them.
    Endless,
}

/// How movers in a world ended.
enum Moved {
    /// None is left.
    All,
    /// The last turn was a choice, which is not to be made yet.
    Chose,
    /// There were too many.
    TooMany,
}

/// Plays movers after turns from a state, or from the opening, until none is left, and adds their turns.
///
/// # Errors
/// Memory ran out.
pub(crate) fn play_movers<'p>(
    subject: Subject<'p>,
    progress: &mut Progress<'p>,
    parent: Option<u32>,
    turns: &mut Vec<HandlerNumber>,
) -> Result<Rest, AllocError>
    requires from { IsFrom (states_of progress.old) parent }
    requires reached { HasReached subject.program.now.image subject.version subject.aim progress.old }
    ensures store { progress.new.store ≡ progress.old.store }
    ensures edges { progress.new.edges ≡ progress.old.edges }
    ensures reached { OnOk result (HasReached subject.entry.program.now.image subject.entry.version subject.entry.aim progress.new) }
    ensures rests { IfOk result (RestsAt subject.entry.program.now.image subject.entry.version subject.entry.aim
        (order_after (orders_of progress.old) parent turns.new.items) (world_in progress.new.world)) }
{
    kept_alike_read_alike();
    kept_alike_turn_alike();
    openings_are_of_their_program();
    runs_stay_of_their_program();
    let mut peeks = vec![in subject.alloc; Peek::Unknown; MAX_HANDLERS]?;
    for _ in 0..MOST_MOVERS {
        progress.go(subject, Way { parent, turns })?;
        let statuses = progress.world.statuses()?;
        if is_met(subject.aim, &statuses, progress.world.core()) {
            return Ok(Rest::Met);
        }
        match move_on(&mut progress.world, turns, &mut peeks)? {
            Moved::All => return Ok(Rest::Reached),
            Moved::Chose => {}
            Moved::TooMany => return Ok(Rest::Endless),
        }
    }
    Ok(Rest::Endless)
}

/// Plays movers in the world, until none is left or one turns out to be a choice, and adds their turns.
fn move_on(
    world: &mut Configuration<'_>,
    turns: &mut Vec<HandlerNumber>,
    peeks: &mut Vec<Peek>,
) -> Result<Moved, AllocError>
    ensures moves { IfOk result (λ moved. moved ≡ Moved.All → Moves turns.old.items turns.new.items (world_in world.old) (world_in world.new)) }
    ensures of { OnOk result ((p : Image) (most : ℕ) → IsOf p most (world_in world.old) → IsOf p most (world_in world.new)) }
{
    runs_stay_of_their_program();
    for _ in 0..MOST_MOVERS {
        let Some(handler) = next_mover(world.core(), peeks) else {
            return Ok(Moved::All);
        };
        let was = peek_at(peeks, handler);
        world.turn(handler)?;
        let peek = peek_behind(world, handler, was);
        if let Some(place) = peeks.get_mut(handler as usize) {
            *place = peek;
        }
        if !matches!(peek, Peek::Unknown) {
            return Ok(Moved::Chose);
        }
        turns.push(handler)?;
    }
    Ok(Moved::TooMany)
}

/// What is known of the next turn of a handler.
fn peek_at(peeks: &[Peek], handler: HandlerNumber) -> Peek {
    peeks.get(handler as usize).copied().unwrap_or(Peek::Choice)
}

/// The first handler whose next turn may be a mover.
fn next_mover(core: &Core, peeks: &[Peek]) -> Option<HandlerNumber> {
    for handler in 0..core.handler_count() {
        let handler = handler as HandlerNumber;
        if may_move(core, handler, peek_at(peeks, handler)) {
            return Some(handler);
        }
    }
    None
}

/// Whether the next turn of a handler, with this known of it, may be a mover.
fn may_move(core: &Core, handler: HandlerNumber, peek: Peek) -> bool {
    let is_free = match core.pick_for(handler) {
        None => false,
        Some(Job::Granted(reserved)) => reserved.is_empty(),
        Some(Job::Take(_)) => core.awaits(handler).is_some() || !is_contested(core, handler),
        Some(_) => true,
    };
    is_free
        && match peek {
            Peek::Unknown => true,
            Peek::Choice => false,
            Peek::Passes(target) => {
                core.status(target) == Some(Status::Free) && !is_contested(core, handler)
            }
        }
}

/// Whether another handler may post to this one, and doesn't wait for it.
fn is_contested(core: &Core, handler: HandlerNumber) -> bool {
    match core.holder(handler) {
        Some(holder) => holder != handler && core.awaits(holder) != Some(handler),
        None => false,
    }
}

/// What the last turn of the world was: the handler made it, and this was known of it.
fn peek_behind(world: &Configuration<'_>, handler: HandlerNumber, was: Peek) -> Peek {
    match (world.status(handler), was) {
        (Some(Status::Failed(_)), _) => Peek::Choice,
        (_, Peek::Unknown) => last_peek(world),
        _ => Peek::Unknown,
    }
}

/// What the last turn of the world asked, where its handler hasn't failed.
fn last_peek(world: &Configuration<'_>) -> Peek {
    let log = world.log();
    let Some(settlement) = log.get(log.len().saturating_sub(1)) else {
        return Peek::Choice;
    };
    match settlement.want {
        Want::Create { .. } => Peek::Choice,
        Want::Ask {
            request,
            passes: true,
        } => Peek::Passes(request.target.handler),
        _ => Peek::Unknown,
    }
}
