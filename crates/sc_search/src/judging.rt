//! Whether a world shows what is looked for.
ghost use Rattle.std.specs.Prelude.{◌≡◌, ◌↔◌, IfOk, IsTrue, get_or};
ghost use Rattle.sc_request.specs.Cores.{state_of};
ghost use Rattle.sc_world.specs.Reports.{statuses};
ghost use Rattle.sc_world.specs.Views.{world_of};
ghost use Rattle.sc_model.specs.declared.status.Status.TheVariants.{Free};
ghost use Rattle.sc_search.specs.Aims.{AreStuck, HasFailed, HasRefused, IsMetBy, TellsRefusal, is_of, some_is, tells_failure};
ghost use Rattle.sc_search.specs.Waiting.{seeks_stuck};

use crate::aims::Aim;
use sc_lockpass::HandlerNumber;
use sc_model::Status;
use sc_request::Core;
use sc_world::World;
use std::alloc::AllocError;

/// A kind of status of a handler.
#[derive(Clone, Copy)]
pub(crate) enum Kind {
    HasFailed,
    IsBusy,
    IsWaiting,
}

/// Whether stuck handlers are looked for.
pub(crate) fn seeks_stuck(aim: Aim) -> bool
    ensures { result ≡ seeks_stuck aim }
{
    match aim {
        Aim::Stuck | Aim::Any => true,
        Aim::Fails | Aim::Refused => false,
    }
}

/// Whether a world with these statuses and this core shows what is looked for. The statuses show that handlers are
/// stuck if none has a turn.
pub(crate) fn is_met(aim: Aim, statuses: &[Status], core: &Core) -> bool
    ensures { IsTrue result ↔ IsMetBy aim statuses.now (state_of core.now) }
{
    match aim {
        Aim::Stuck => are_stuck(statuses),
        Aim::Fails => has_failed(statuses),
        Aim::Refused => has_refused(core),
        Aim::Any => are_stuck(statuses) || has_failed(statuses) || has_refused(core),
    }
}

/// Whether none of the handlers has anything to do, and one waits.
pub(crate) fn are_stuck(statuses: &[Status]) -> bool
    ensures { IsTrue result ↔ AreStuck statuses.now }
{
    !some_is(Kind::IsBusy, statuses) && some_is(Kind::IsWaiting, statuses)
}

/// Whether one of the handlers has failed.
pub(crate) fn has_failed(statuses: &[Status]) -> bool
    ensures { IsTrue result ↔ HasFailed statuses.now }
{
    some_is(Kind::HasFailed, statuses)
}

/// Whether one of the handlers has refused a request for which no handler waited.
pub(crate) fn has_refused(core: &Core) -> bool
    ensures { IsTrue result ↔ HasRefused (state_of core.now) }
{
    for handler in 0..core.handler_count() {
        if core.refused(handler as HandlerNumber).unwrap_or(0) > 0 {
            return true;
        }
    }
    false
}

/// Whether a failure is reported if what is looked for is met.
pub(crate) fn tells_failure(aim: Aim, statuses: &[Status]) -> bool
    ensures { result ≡ tells_failure aim statuses.now }
{
    match aim {
        Aim::Stuck | Aim::Refused => false,
        Aim::Fails | Aim::Any => has_failed(statuses),
    }
}

/// Whether a refusal is reported if what is looked for is met and no failure is reported; else handlers are stuck.
pub(crate) fn tells_refusal(aim: Aim, core: &Core) -> bool
    ensures { IsTrue result ↔ TellsRefusal aim (state_of core.now) }
{
    match aim {
        Aim::Stuck | Aim::Fails => false,
        Aim::Refused | Aim::Any => has_refused(core),
    }
}

/// Whether one of the handlers of the world has a status of this kind.
///
/// # Errors
/// Memory ran out.
pub(crate) fn some_is_in(kind: Kind, world: &World<'_>) -> Result<bool, AllocError>
    ensures { IfOk result (λ some. some ≡ some_is kind (statuses (world_of world.now))) }
{
    Ok(some_is(kind, &world.statuses()?))
}

/// Whether the status of a handler is of this kind. It isn't if there is no such handler.
pub(crate) fn is_at(kind: Kind, statuses: &[Status], handler: usize) -> bool
    ensures { result ≡ is_of kind (get_or statuses.now handler Free) }
{
    let status = match statuses.get(handler) {
        Some(status) => *status,
        None => Status::Free,
    };
    is_of(kind, status)
}

/// Whether one of the statuses is of this kind.
pub(crate) fn some_is(kind: Kind, statuses: &[Status]) -> bool
    ensures { result ≡ some_is kind statuses.now }
{
    for status in statuses {
        if is_of(kind, *status) {
            return true;
        }
    }
    false
}

/// Whether a status is of this kind.
fn is_of(kind: Kind, status: Status) -> bool
    ensures { result ≡ is_of kind status }
{
    match kind {
        Kind::HasFailed => matches!(status, Status::Failed(_)),
        Kind::IsBusy => matches!(status, Status::Busy),
        Kind::IsWaiting => matches!(status, Status::Waiting),
    }
}
