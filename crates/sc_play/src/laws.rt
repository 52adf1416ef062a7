//! The result of a job that memory was refused to, each law the contract of a function that does nothing.
ghost use Rattle.sc_play.specs.Regions.{RefusedJobsGoOn, RefusedTwiceIsRefused};

/// A job that memory was refused to goes on when it is played again, and ends as it would have from the region as it
/// was first.
pub fn refused_jobs_go_on()
    ensures { RefusedJobsGoOn }
{}

/// Where memory is refused to it again, it is as if that was once.
pub fn refused_twice_is_refused()
    ensures { RefusedTwiceIsRefused }
{}
