//! The turns of a run that concern one handler.

use crate::naming::{Asked, asked_by};
use sc_code::ClassNumber;
use sc_handler::{Log, Settlement};
use sc_lockpass::HandlerNumber;
use sc_region::{Errand, Job, Reference, Value, Want};

/// A turn of a handler: what it had to do, and what that came to.
#[derive(Clone, Copy)]
pub struct Turn {
    /// Its place in the log.
    pub place: usize,
    pub begun: Begun,
    pub ended: Ended,
    /// Whether the handler was after an operation, and failed by its result in another handler, if it failed.
    pub is_behind: bool,
}

/// What a handler had to do.
#[derive(Clone, Copy)]
pub enum Begun {
    /// It took a request.
    Takes(Served),
    /// It went on, with an answer if one had come.
    GoesOn(Option<Value>),
    /// It went on with the handler that was created for it, or what it had asked for has failed or was refused.
    Other,
}

/// A request that a handler serves.
#[derive(Clone, Copy)]
pub struct Served {
    pub asked: Asked,
    /// Whether its poster waits for the answer.
    pub is_waited: bool,
    /// The place of the turn by which it was taken.
    pub place: usize,
}

/// What a handler asks another one for.
#[derive(Clone, Copy)]
pub struct Sent {
    /// The object that it asks, or that is to be made.
    pub target: Reference,
    pub errand: Errand,
    /// Whether it waits for the answer.
    pub is_waited: bool,
}

/// What a turn came to.
#[derive(Clone, Copy)]
pub enum Ended {
    /// It asked another handler for something.
    Asks(Sent),
    /// A handler was to be created, for an object of this class.
    Creates(ClassNumber),
    /// Handlers were to be reserved.
    Reserves,
    /// A wait condition was false.
    Waits,
    /// The request ended.
    Done,
    /// It was refused.
    Refuses,
    /// Nothing of these.
    Other,
}

/// The turn at a place of a log in which each is settled by itself, if it is one of this handler.
pub fn turn_of(log: &Log, handler: HandlerNumber, place: usize) -> Option<Turn> {
    if let Some(other) = log.handler_at(place)
        && other == handler
        && let Some(settlement) = log.get(place)
    {
        Some(turn_by(&settlement, place))
    } else {
        None
    }
}

/// The turn at a place that came to this.
pub fn turn_by(settlement: &Settlement, place: usize) -> Turn {
    Turn {
        place,
        begun: begun_by(&settlement.job, place),
        ended: ended_by(&settlement.want),
        is_behind: is_behind(settlement),
    }
}

/// What a handler had to do by this job, at the turn at a place.
fn begun_by(job: &Job, place: usize) -> Begun {
    match job {
        Job::Take(request) => Begun::Takes(Served {
            asked: asked_by(request),
            is_waited: request.is_waited,
            place,
        }),
        Job::Reply(answer) => Begun::GoesOn(*answer),
        Job::Go | Job::Granted(_) => Begun::GoesOn(None),
        _ => Begun::Other,
    }
}

/// The result of a turn that asked for this.
fn ended_by(want: &Want) -> Ended {
    match want {
        Want::Post(request) | Want::Ask { request, .. } => Ended::Asks(Sent {
            target: request.target,
            errand: request.errand,
            is_waited: request.is_waited,
        }),
        Want::Create { class, .. } => Ended::Creates(*class),
        Want::Reserve(handlers) if !handlers.is_empty() => Ended::Reserves,
        Want::Wait(_) => Ended::Waits,
        Want::Done { refused: true, .. } => Ended::Refuses,
        Want::Done { .. } => Ended::Done,
        _ => Ended::Other,
    }
}

/// Whether a handler that failed by this turn was after an operation, and failed by its result in another handler.
fn is_behind(settlement: &Settlement) -> bool {
    match (&settlement.job, &settlement.want) {
        (Job::Failed | Job::Refused, _) => true,
        (_, Want::Fail(_)) => false,
        _ => true,
    }
}

/// The last turn of a handler.
pub fn last_turn(log: &Log, handler: HandlerNumber) -> Option<Turn> {
    for place in (0..log.len()).rev() {
        if let Some(turn) = turn_of(log, handler, place) {
            return Some(turn);
        }
    }
    None
}

/// The place of the last turn of a handler in front of a place by which it has refused a request that is waited for.
pub fn refused_before(log: &Log, handler: HandlerNumber, end: usize) -> Option<usize> {
    for place in (0..end).rev() {
        if let Some(turn) = turn_of(log, handler, place)
            && let Ended::Refuses = turn.ended
        {
            return match served_before(log, handler, place) {
                Some(served) if served.is_waited => Some(place),
                _ => None,
            };
        }
    }
    None
}

/// The request that the handler has taken last in front of a place among those that haven't ended.
pub fn served_before(log: &Log, handler: HandlerNumber, end: usize) -> Option<Served> {
    let mut ended = 0_usize;
    for place in (0..end).rev() {
        if let Some(turn) = turn_of(log, handler, place) {
            if let Ended::Done | Ended::Refuses = turn.ended {
                ended = ended.saturating_add(1);
            }
            match turn.begun {
                Begun::Takes(served) if ended == 0 => return Some(served),
                Begun::Takes(_) => ended -= 1,
                _ => {}
            }
        }
    }
    None
}

/// The handler that was last created for this one, and has begun.
pub fn created_last(log: &Log, creator: HandlerNumber) -> Option<HandlerNumber> {
    for place in (0..log.len()).rev() {
        if let Some(handler) = log.handler_at(place)
            && let Some(turn) = turn_of(log, handler, place)
            && let Begun::Takes(served) = turn.begun
            && let (Some(poster), Errand::Makes(_)) = (served.asked.poster, served.asked.errand)
            && poster == creator
        {
            return Some(handler);
        }
    }
    None
}
