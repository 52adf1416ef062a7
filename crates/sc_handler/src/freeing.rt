//! What a settlement may free.
ghost use Rattle.std.specs.Prelude.{◌≡◌};
ghost use Rattle.sc_handler.specs.Freeing.{frees, frees_by, frees_under};

use sc_region::{Job, Want};

/// Whether the settlement under this job, of a turn that asks this, may free what another handler waits to reserve,
/// unless it fails its handler.
pub fn frees(job: &Job, want: &Want) -> bool
    ensures { result ≡ frees job.now want.now }
{
    frees_under(job) || frees_by(want)
}

/// Whether the job itself may free that.
pub fn frees_under(job: &Job) -> bool
    ensures { result ≡ frees_under job.now }
{
    match job {
        Job::Granted(_) | Job::Made(_) => true,
        Job::Take(_) | Job::Reply(_) | Job::Failed | Job::Refused | Job::Go => false,
    }
}

/// Whether what is asked may free that.
fn frees_by(want: &Want) -> bool
    ensures { result ≡ frees_by want.now }
{
    match want {
        Want::Continue | Want::Reserve(_) | Want::Post(_) | Want::Fail(_) => false,
        Want::Ask { request: _, passes } => *passes,
        _ => true,
    }
}
