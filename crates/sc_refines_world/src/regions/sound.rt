//! What holds of each store that turns leave, and what turns do to such stores that represent halves that fit, each
//! a law that is the contract of a function that does nothing.
ghost use Rattle.sc_refines_world.specs.regions.Placed.{SoundJobsAreTaken, SoundTurnsAreMade, SoundTurnsArePlayed, TurnsJoin};
ghost use Rattle.sc_refines_world.specs.regions.Sound.{JobsKeepSound, NewStoresAreSound, PlaysKeepSound, TurnsKeepSound};

use crate::regions::half_laws::programs_serve;

/// A new store is sound.
pub fn new_stores_are_sound()
    ensures { NewStoresAreSound }
{}

/// A turn leaves a sound store sound.
pub fn turns_keep_sound()
    ensures { TurnsKeepSound }
{}

/// So do the beginning of a job and the first turn under it.
pub fn jobs_keep_sound()
    ensures { JobsKeepSound }
{}

/// So do the turns under a job.
pub fn plays_keep_sound()
    ensures { PlaysKeepSound }
{}

/// A turn on a sound store that represents a half that fits leaves a sound store, which represents what the
/// definition makes of the half, and has an equal want.
pub fn sound_turns_are_made()
    ensures { SoundTurnsAreMade }
{
    programs_serve();
}

/// So does the first turn under a job that fits, whether the creator of a handler had its number before or not.
pub fn sound_jobs_are_taken()
    ensures { SoundJobsAreTaken }
{
    programs_serve();
}

/// So do the turns under a job, where the half fits before each of them. None of those before the last asks anything.
pub fn sound_turns_are_played()
    ensures { SoundTurnsArePlayed }
{
    programs_serve();
}

/// A turn from the place that silent operations of a routine have reached is its turn from where they began.
pub fn turns_join()
    ensures { TurnsJoin }
{}
