//! What ends the runs.
ghost use Rattle.std.specs.Prelude.{◌≡◌};
ghost use Rattle.std.specs.Option.{option_map};
ghost use Rattle.sc_chance.specs.Sought as spec;

use crate::playing::ChanceRun;
use sc_model::Status;

/// What is looked for among runs.
#[derive(Clone, Copy)]
pub enum Sought {
    /// A run of any kind: the first one.
    Any,
    /// One in which a handler fails.
    Fails,
    /// One after which no handler has a turn, and one waits.
    Stuck,
    /// One in which a handler refuses a request for which no handler waits.
    Refused,
    /// One that has another report than the first.
    Differs,
    /// Nothing: all are played.
    Nothing,
}

/// A kind of status of a handler.
#[derive(Clone, Copy)]
enum Kind {
    HasFailed,
    IsBusy,
    IsWaiting,
}

/// Whether a run shows what is looked for, if the first one had this report.
pub fn shows(sought: Sought, run: &ChanceRun, first: Option<&[u8]>) -> bool
    ensures { result ≡ spec.shows sought run.now (option_map (λ report. report.now) first.entry) }
{
    match sought {
        Sought::Any => true,
        Sought::Fails => some_is(Kind::HasFailed, &run.statuses),
        Sought::Stuck => {
            !some_is(Kind::IsBusy, &run.statuses) && some_is(Kind::IsWaiting, &run.statuses)
        }
        Sought::Refused => run.has_refused,
        Sought::Differs => differs(first, &run.report),
        Sought::Nothing => false,
    }
}

/// Whether a report is another one than the first, if there is one.
fn differs(first: Option<&[u8]>, report: &[u8]) -> bool
    ensures { result ≡ spec.differs (option_map (λ report. report.now) first.entry) report.now }
{
    match first {
        Some(first) => first != report,
        None => false,
    }
}

/// Whether one of the statuses is of this kind.
fn some_is(kind: Kind, statuses: &[Status]) -> bool
    ensures { result ≡ spec.some_is kind statuses.now }
{
    for status in statuses {
        if is_of(kind, *status) {
            return true;
        }
    }
    false
}

/// Whether a status is of this kind.
fn is_of(kind: Kind, status: Status) -> bool
    ensures { result ≡ spec.is_of kind status }
{
    match kind {
        Kind::HasFailed => matches!(status, Status::Failed(_)),
        Kind::IsBusy => matches!(status, Status::Busy),
        Kind::IsWaiting => matches!(status, Status::Waiting),
    }
}
