//! Laws of turns that have one outcome, each the contract of a function that does nothing.
ghost use Rattle.sc_refines_world.specs.Functional.{FirstTurnsAreFunctional, FirstTurnsKeepExact, RunsAreFunctional};

use crate::regions::asks::creators_are_told;
use crate::regions::half_laws::programs_serve;
use crate::regions::laws::{
    created_are_new, openings_are_in_order, others_keep_halves, regions_ask, regions_follow,
    turns_keep_order,
};
use crate::regions::sound::{new_stores_are_sound, sound_jobs_are_taken};
use crate::regions::turn_laws::distinct_names_have_numbers;
use sc_machine_laws::invariant_laws::settled_objects_meet;
use sc_machine_laws::settlements::laws::{
    core_settles_as_half_where_reached, entries_are_remembered,
};
use sc_request::laws::core_picks_where_the_machine_turns;

/// The first turn under a job leaves one store and has one want, on a sound store whose objects have as many
/// attributes as their classes, and which represents a half that fits the job.
pub fn first_turns_are_functional()
    ensures { FirstTurnsAreFunctional }
{
    programs_serve();
    distinct_names_have_numbers();
    creators_are_told();
    sound_jobs_are_taken();
}

/// Each object of the store that it leaves has as many attributes as its class.
pub fn first_turns_keep_exact()
    ensures { FirstTurnsKeepExact }
{
    programs_serve();
    distinct_names_have_numbers();
    creators_are_told();
    sound_jobs_are_taken();
}

/// So from the opening of an accepted system's program on, the turns of any handlers, one after the other, lead to one world.
pub fn runs_are_functional()
    ensures { RunsAreFunctional }
{
    first_turns_are_functional();
    first_turns_keep_exact();
    core_picks_where_the_machine_turns();
    core_settles_as_half_where_reached();
    entries_are_remembered();
    settled_objects_meet();
    regions_follow();
    regions_ask();
    others_keep_halves();
    created_are_new();
    openings_are_in_order();
    turns_keep_order();
    new_stores_are_sound();
    sound_jobs_are_taken();
}
