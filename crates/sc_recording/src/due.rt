//! The core's calls as the workers make them: no handler goes out with a granted step, and what is settled is what
//! is due.
ghost use Rattle.std.specs.Prelude.{◌≡◌, OnErr, OnOk, Some, is_some, true};
ghost use Rattle.sc_lockpass.specs.declared.version.Version.TheVariants.{Two};
ghost use Rattle.sc_request.specs.Candidates.{is_granting};
ghost use Rattle.sc_request.specs.Cores.{center_of};
ghost use Rattle.sc_request.specs.Rooms.{HasRoomFor};
ghost use Rattle.sc_recording.specs.Due.{GrantsNone, IsSettled, Settled, Stays};

use sc_handler::write_job;
use sc_lockpass::HandlerNumber;
use sc_region::{Job, Want};
use sc_request::Core;
use std::alloc::AllocError;

/// Why turns of a handler aren't settled.
#[derive(Clone, Copy)]
pub enum Undue {
    /// It has nothing to do.
    Idle,
    /// There is no memory.
    OutOfMemory,
}

/// Settles this number of turns of a handler, the last of which wants this, under the job that it has now: the one
/// that it was out with, if they were played for that. The handler isn't out any more.
pub fn settle_due(
    core: &mut Core,
    handler: HandlerNumber,
    turns: u32,
    want: &Want,
) -> Result<(), Undue>
    requires none { GrantsNone (center_of core.old) }
    requires version { core.old.state.rights.version ≡ Two }
    ensures settled { OnOk result (Settled handler turns want.now core.old core.new) }
    ensures stays { OnErr result (Stays core.old core.new) }
    ensures none { GrantsNone (center_of core.new) }
    ensures version { core.new.state.rights.version ≡ Two }
{
    core.put_back(handler);
    if core.make_room().is_err() {
        return Err(Undue::OutOfMemory);
    }
    if core.pick_at(handler) {
        settle_out(core, handler, turns, want);
        Ok(())
    } else {
        Err(Undue::Idle)
    }
}

/// A handler that is out is settled.
pub fn settle_out(core: &mut Core, handler: HandlerNumber, turns: u32, want: &Want)
    requires out { is_some ((center_of core.old).out handler) ≡ true }
    requires room { HasRoomFor 0 core.old }
    requires version { core.old.state.rights.version ≡ Two }
    ensures settled { (job : Job) → (center_of core.old).out handler ≡ Some job → IsSettled handler job turns want.now core.old core.new }
    ensures version { core.new.state.rights.version ≡ Two }
{
    if core.settle(handler, turns, want).is_err() {
        unreachable!();
    }
}

/// Picks the next handler with a job, and writes the job into a place. If a reserve step was granted, the handler
/// isn't out, and must be played and settled before another one is picked. None if no handler has a job.
///
/// There is room then to settle it, beside all that are out.
///
/// # Errors
/// Memory ran out. Then no handler goes out.
pub fn pick_due(core: &mut Core, place: &mut Job) -> Result<Option<HandlerNumber>, AllocError>
    requires none { GrantsNone (center_of core.old) }
    requires version { core.old.state.rights.version ≡ Two }
    ensures stays { Stays core.old core.new }
    ensures none { GrantsNone (center_of core.new) }
    ensures version { core.new.state.rights.version ≡ Two }
{
    core.make_room()?;
    let Some(handler) = core.pick() else {
        return Ok(None);
    };
    let Some(job) = core.job_out(handler) else {
        unreachable!();
    };
    write_job(place, job);
    if is_granting(place) {
        core.put_back(handler);
        return Ok(Some(handler));
    }
    Ok(Some(handler))
}

/// Whether the job is what a reserve step was granted.
pub fn is_granting(job: &Job) -> bool
    ensures { result ≡ is_granting job.now }
{
    matches!(job, Job::Granted(_))
}
