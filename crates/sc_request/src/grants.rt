//! What a reserve step is granted is reserved from its pick on.
ghost use Rattle.std.specs.Prelude.{◌≡◌, ◌<◌, ◌&&◌, ◌||◌};
ghost use Rattle.std.specs.List.{All};
ghost use Rattle.sc_lockpass.specs.Versions.{most_handlers};
ghost use Rattle.sc_lockpass.specs.Tables.{rights_of};
ghost use Rattle.sc_request.specs.Candidates.{AddsIf, granted_items, is_granting};
ghost use Rattle.sc_request.specs.Logs.{granted, ungranted};

use crate::handler_set::HandlerSet;
use crate::sessions::{release_each, reserve_each};
use sc_lockpass::{HandlerNumber, Rights};
use sc_region::Job;

/// Reserves what the job was granted, if it is a grant. Then those that wait to reserve are candidates.
pub(crate) fn reserve_granted(
    rights: &mut Rights,
    candidates: &mut HandlerSet,
    reserving: &HandlerSet,
    handler: HandlerNumber,
    job: &Job,
)
    requires { All (λ k. k < most_handlers rights.old.version) (granted_items job.now) }
    ensures rights { rights_of rights.new ≡ granted handler job.now (rights_of rights.old) }
    ensures version { rights.new.version ≡ rights.old.version }
    ensures candidates { AddsIf (is_granting job.now) reserving.now.words candidates.old.words candidates.new.words }
{
    if let Job::Granted(handlers) = job {
        reserve_each(rights, handler, handlers.as_slice());
        candidates.add(reserving);
    }
}

/// Releases what the job was granted, if it is a grant. Then those that wait to reserve are candidates.
pub(crate) fn release_granted(
    rights: &mut Rights,
    candidates: &mut HandlerSet,
    reserving: &HandlerSet,
    job: &Job,
)
    ensures rights { rights_of rights.new ≡ ungranted job.now (rights_of rights.old) }
    ensures version { rights.new.version ≡ rights.old.version }
    ensures candidates { AddsIf (is_granting job.now) reserving.now.words candidates.old.words candidates.new.words }
{
    if let Job::Granted(handlers) = job {
        release_each(rights, handlers.as_slice());
        candidates.add(reserving);
    }
}
