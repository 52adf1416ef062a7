//! The moments before a turn of a run, whose state is lost after it.

use crate::breakdown::push_failure;
use crate::evaluation::{Goal, Start, push_evaluated};
use crate::failure::Played;
use crate::history::{Ended, last_turn, refused_before, served_before, turn_of};
use crate::replay::Replay;
use crate::scene::Scene;
use crate::supplier::supplier_of;
use crate::waits::count_of;
use sc_explain_text::Lines;
use sc_handler::Log;
use sc_lockpass::HandlerNumber;
use sc_model::{Cause, Status};
use sc_request::Core;

/// The most turns before which the world is described.
const MOST_MOMENTS: usize = 32;

/// The result of a turn.
#[derive(Clone, Copy)]
enum Kind {
    /// The handler has failed, by this cause.
    Failure(Cause),
    /// It has refused a request for which no handler waits, or whose waiting handler failed by that.
    Refusal,
}

/// A turn of a run, and what is said of it.
#[derive(Drop)]
struct Moment {
    handler: HandlerNumber,
    kind: Kind,
    /// Its place in the log.
    place: usize,
    /// Whether there is room to describe the world before it.
    has_room: bool,
    is_told: bool,
    lines: Lines,
}

/// Adds what is said of each failure of a run with this end, and then of each refusal for which no handler waited or by
/// which one has failed.
pub fn push_moments(ended: &Scene<'_>, lines: &mut Lines, played: Played<'_>) {
    let mut moments = Vec::new(lines.alloc());
    add_moments(&mut moments, lines, ended.core, ended.log);
    if !moments.is_empty() {
        tell_each(ended, lines, played, &mut moments);
        push_all(lines, &moments, false);
        push_all(lines, &moments, true)
    }
}

/// Says what there is to say of each moment as the run is played once more, the earliest first.
fn tell_each(ended: &Scene<'_>, lines: &mut Lines, played: Played<'_>, moments: &mut [Moment]) {
    match Replay::open(lines.alloc(), played.source, played.program, played.version) {
        Ok(mut replay) => {
            for _moment in 0..moments.len() {
                if let Some(moment) = earliest(moments) {
                    tell(ended, lines, played, &mut replay, moment)
                }
            }
        }
        Err(_) => lines.lack(),
    }
}

/// Adds what is said of each refusal, or of each failure.
fn push_all(lines: &mut Lines, moments: &[Moment], are_refusals: bool) {
    for moment in moments {
        if matches!(moment.kind, Kind::Refusal) == are_refusals {
            lines.push_lines(&moment.lines)
        }
    }
}

/// Adds the moments of each handler, of which nothing is said yet.
fn add_moments(moments: &mut Vec<Moment>, lines: &mut Lines, core: &Core, log: &Log) {
    for handler in 0..count_of(core) {
        if let Some(Status::Failed(cause)) = core.status(handler)
            && let Some(turn) = last_turn(log, handler)
        {
            add(moments, lines, handler, Kind::Failure(cause), turn.place);
            if let Cause::Precondition = cause
                && turn.is_behind
                && let Some(supplier) = supplier_of(core, log, handler)
                && let Some(refused) = refused_before(log, supplier, turn.place)
            {
                add(moments, lines, supplier, Kind::Refusal, refused)
            }
        }
        if let Some(1..) = core.refused(handler) {
            add_refusals(moments, lines, log, handler)
        }
    }
}

/// Adds each refusal of a handler for which no handler waits.
fn add_refusals(moments: &mut Vec<Moment>, lines: &mut Lines, log: &Log, handler: HandlerNumber) {
    for place in 0..log.len() {
        if let Some(turn) = turn_of(log, handler, place)
            && let Ended::Refuses = turn.ended
            && let Some(served) = served_before(log, handler, place)
            && !served.is_waited
        {
            add(moments, lines, handler, Kind::Refusal, place)
        }
    }
}

/// Adds a moment of which nothing is said yet. Without room, a refusal is left out.
fn add(
    moments: &mut Vec<Moment>,
    lines: &mut Lines,
    handler: HandlerNumber,
    kind: Kind,
    place: usize,
) {
    let has_room = moments.len() < MOST_MOMENTS;
    if let Kind::Refusal = kind
        && !has_room
    {
        return;
    }
    let moment = Moment {
        handler,
        kind,
        place,
        has_room,
        is_told: false,
        lines: Lines::new(lines.alloc()),
    };
    if let Err(_) = moments.push(moment) {
        lines.lack()
    }
}

/// The earliest moment of which nothing is said yet.
fn earliest(moments: &mut [Moment]) -> Option<&mut Moment> {
    let mut found = None;
    let mut least = usize::MAX;
    for moment in moments {
        if !moment.is_told && moment.place < least {
            least = moment.place;
            found = Some(moment);
        }
    }
    found
}

/// Says what there is to say of a moment, up to which the run is played once more. Without room, less is said of a
/// failure.
fn tell(
    ended: &Scene<'_>,
    lines: &mut Lines,
    played: Played<'_>,
    replay: &mut Replay<'_>,
    moment: &mut Moment,
) {
    moment.is_told = true;
    if moment.has_room
        && let Err(_) = replay.advance(played.lines, moment.place)
    {
        return lines.lack();
    }
    let before = replay.scene();
    let handler = moment.handler;
    match moment.kind {
        Kind::Failure(cause) => {
            let before = if moment.has_room { Some(&before) } else { None };
            push_failure(ended, before, &mut moment.lines, handler, cause)
        }
        Kind::Refusal => push_refusal(ended.log, &before, &mut moment.lines, handler, moment.place),
    }
}

/// Adds which request a handler refused by the turn at a place, and by which clause.
fn push_refusal(
    log: &Log,
    before: &Scene<'_>,
    lines: &mut Lines,
    handler: HandlerNumber,
    place: usize,
) {
    if let Some(served) = served_before(log, handler, place) {
        before.named(handler).push(lines, "handler ~");
        lines.push(" refused ");
        before.push_request(lines, served.asked);
        lines.push(if served.is_waited {
            ", which waited for it\n"
        } else {
            ", and nobody waited for it\n"
        });
        push_evaluated(before, lines, handler, Start::Place(0), Goal::RefusedClause)
    }
}
