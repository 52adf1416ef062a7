//! The turns of a run as a list has them, and counted.

use crate::failure::Played;
use crate::history::{Ended, turn_by};
use crate::naming::{Asked, asked_by};
use crate::places::part_of;
use crate::replay::Replay;
use crate::scene::Scene;
use sc_audit::RecordLine;
use sc_lockpass::HandlerNumber;
use sc_model::Status;
use sc_region::Job;
use sc_text::Span;
use sc_time_line::{Began, Made, Sent, Taken, Tally, Turn};
use sc_world::Turned;
use std::alloc::{AllocError, Global};

/// What each handler of a run did, in numbers, as far as that is found where the turns of its record are played once
/// more.
///
/// # Errors
/// Memory ran out.
pub fn tally_of(alloc: Global, played: Played<'_>) -> Result<Tally, AllocError> {
    let mut tally = match Tally::new(alloc) {
        Ok(tally) => tally,
        Err(error) => return Err(error),
    };
    match Replay::open(alloc, played.source, played.program, played.version) {
        Ok(mut replay) => {
            for line in played.lines {
                if let Err(error) = count_line(&mut tally, &mut replay, *line) {
                    return Err(error);
                }
            }
            end_tally(&mut tally, &replay.scene());
            Ok(tally)
        }
        Err(error) => Err(error),
    }
}

/// Plays a line of the record, and counts its turns.
fn count_line(
    tally: &mut Tally,
    replay: &mut Replay<'_>,
    line: RecordLine,
) -> Result<(), AllocError> {
    for _turn in 0..line.turns {
        let before = Before::of(replay, line.handler);
        match replay.world.turn(line.handler) {
            Ok(Turned::Moved) => {}
            Ok(Turned::Nothing) => break,
            Err(error) => return Err(error),
        }
        add_turn(tally, replay, line.handler, before)
    }
    Ok(())
}

/// Counts the turn of a handler that was just made.
fn add_turn(tally: &mut Tally, replay: &Replay<'_>, handler: HandlerNumber, before: Before) {
    if let Some(turn) = turn_made(&replay.scene(), handler, before) {
        tally.add(turn)
    }
}

/// Notes the class of each handler, and how many objects it has made.
fn end_tally(tally: &mut Tally, scene: &Scene<'_>) {
    for handler in 0..scene.handlers {
        let objects = match scene.store(handler) {
            Some(store) => store.object_count(),
            None => 0,
        };
        tally.end(class_name(scene, handler), objects)
    }
}

/// The name of the class of a handler's root object, if it has one.
pub fn class_name(scene: &Scene<'_>, handler: HandlerNumber) -> Option<Span> {
    if let Some(class) = scene.root_class(handler)
        && let Some(class) = scene.listing.program.classes().get(class as usize)
    {
        Some(class.text.name)
    } else {
        None
    }
}

/// What there was before a turn of a handler.
#[derive(Clone, Copy)]
pub struct Before {
    /// How many handlers there were.
    handlers: HandlerNumber,
    /// How many bytes it had printed.
    printed: usize,
    has_failed: bool,
}

impl Before {
    pub fn of(replay: &Replay<'_>, handler: HandlerNumber) -> Before {
        let scene = replay.scene();
        Before {
            handlers: scene.handlers,
            printed: printed_by(&scene, handler),
            has_failed: has_failed(&scene, handler),
        }
    }
}

fn printed_by(scene: &Scene<'_>, handler: HandlerNumber) -> usize {
    match scene.store(handler) {
        Some(store) => store.output().len(),
        None => 0,
    }
}

fn has_failed(scene: &Scene<'_>, handler: HandlerNumber) -> bool {
    matches!(scene.core.status(handler), Some(Status::Failed(_)))
}

/// The turn of a handler that was just made.
pub fn turn_made(scene: &Scene<'_>, handler: HandlerNumber, before: Before) -> Option<Turn> {
    let place = scene.log.len().saturating_sub(1);
    let Some(settlement) = scene.log.get(place) else {
        return None;
    };
    let ended = turn_by(&settlement, place).ended;
    let made = match made_by(scene, handler, ended, before) {
        _ if has_failed(scene, handler) && !before.has_failed => Made::Fails,
        made => made,
    };
    Some(Turn {
        handler,
        began: began_by(&settlement.job),
        made,
        sent: sent_by(scene, handler, ended, before),
        feature: feature_of(scene, ended, &settlement.job),
        has_printed: printed_by(scene, handler) > before.printed,
        is_waiting: matches!(scene.core.status(handler), Some(Status::Waiting)),
    })
}

/// With what a turn began by this job.
fn began_by(job: &Job) -> Began {
    match job {
        Job::Take(request) => Began::Takes(Taken {
            by: request.poster,
            is_waited: request.is_waited,
        }),
        Job::Granted(handlers) if !handlers.is_empty() => Began::Reserves,
        Job::Go | Job::Granted(_) => Began::GoesOn,
        _ => Began::Answered,
    }
}

/// What a turn of a handler came to.
fn made_by(scene: &Scene<'_>, handler: HandlerNumber, ended: Ended, before: Before) -> Made {
    match ended {
        Ended::Asks(_) => Made::Sends,
        Ended::Creates(_) if before.handlers < scene.handlers => Made::Creates,
        Ended::Reserves => Made::Reserves,
        Ended::Waits => Made::Waits(part_of(scene.standing_of(handler))),
        Ended::Done => Made::Ends,
        Ended::Refuses => Made::Refuses,
        _ => Made::Other,
    }
}

/// What a handler has sent to another one by a turn that came to this.
fn sent_by(
    scene: &Scene<'_>,
    handler: HandlerNumber,
    ended: Ended,
    before: Before,
) -> Option<Sent> {
    let (to, is_waited) = match ended {
        Ended::Asks(sent) => (sent.target.handler, sent.is_waited),
        Ended::Creates(_) if before.handlers < scene.handlers => {
            (before.handlers, scene.core.awaits(handler).is_some())
        }
        _ => return None,
    };
    Some(Sent {
        to,
        is_waited,
        queue: scene.core.queue_len(to),
    })
}

/// The feature that was sent by a turn that came to this, or taken by its job.
fn feature_of(scene: &Scene<'_>, ended: Ended, job: &Job) -> Option<Span> {
    let asked = match (ended, job) {
        (Ended::Asks(sent), _) => Asked {
            poster: None,
            class: sent.target.class as usize,
            errand: sent.errand,
        },
        (_, Job::Take(request)) => asked_by(request),
        _ => return None,
    };
    scene.listing.asked_feature(asked)
}
