//! One whole turn of a handler: it does to a store what the definition of a turn does to the half that the store
//! represents, and has an equal want. Each law is the contract of a function that does nothing.
ghost use Rattle.sc_refines_world.specs.regions.Playing.{TurnsArePlayed};
ghost use Rattle.sc_refines_world.specs.regions.Turns.{FirstTurnsAreMade, JobsAreTaken, TurnsAreMade};
ghost use Rattle.sc_refines_world.specs.regions.Versions.{JobsKeepVersions, TurnsKeepVersions};

use crate::regions::half_laws::programs_serve;

/// A turn leaves what the definition makes of the half, and has an equal want, if the store is well placed for its
/// visible operation, that operation may be executed there, and a routine that finds a clause false is in its
/// contract.
pub fn turns_are_made()
    ensures { TurnsAreMade }
{
    programs_serve();
}

/// So does the first turn under a job, in a store in which the job has begun.
pub fn jobs_are_taken()
    ensures { JobsAreTaken }
{
    programs_serve();
}

/// So does the first turn under a job that hasn't begun.
pub fn first_turns_are_made()
    ensures { FirstTurnsAreMade }
{
    programs_serve();
}

/// So do the turns under a job that hasn't begun, where each of them may be made. None of those before the last asks anything.
pub fn turns_are_played()
    ensures { TurnsArePlayed }
{
    programs_serve();
}

/// Where each routine that runs is what a name is in a class, so it is after a turn.
pub fn turns_keep_versions()
    ensures { TurnsKeepVersions }
{}

/// So it is after the first turn under a job.
pub fn jobs_keep_versions()
    ensures { JobsKeepVersions }
{}
