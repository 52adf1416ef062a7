//! What a settlement looks at of a job.
ghost use Rattle.std.specs.Prelude.{◌≡◌};
ghost use Rattle.sc_handler.specs.Kinds.{kind_of};

use crate::copy::copy_handlers;
use arrayvec::ArrayVec;
use sc_lockpass::HandlerNumber;
use sc_region::Job;

/// What a job is, but for its values: all that its settlement looks at.
///
/// The job itself lies in the place of its handler, which the settlement changes.
#[derive(Drop)]
pub enum JobKind {
    Take,
    Reply,
    Failed,
    Refused,
    Granted(ArrayVec<HandlerNumber, 16>),
    Made,
    Go,
}

/// What a job is, but for its values.
pub fn kind_of(job: &Job) -> JobKind
    ensures { result ≡ kind_of job.now }
{
    match job {
        Job::Take(_) => JobKind::Take,
        Job::Reply(_) => JobKind::Reply,
        Job::Failed => JobKind::Failed,
        Job::Refused => JobKind::Refused,
        Job::Granted(handlers) => JobKind::Granted(copy_handlers(handlers)),
        Job::Made(_) => JobKind::Made,
        Job::Go => JobKind::Go,
    }
}
