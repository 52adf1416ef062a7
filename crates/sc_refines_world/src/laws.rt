//! Laws of the world that runs beside the machine, each the contract of a function that does nothing.
ghost use Rattle.sc_refines_world.specs.Anew.{AnewRunsAsMachine};
ghost use Rattle.sc_refines_world.specs.Refining.{IdleWorldIsIdle, MachineHasHeadline, RefusedTurnStaysNear, StandingWorldIsNear};
ghost use Rattle.sc_refines_world.specs.Refining.{AttemptsHaveHeadline, AttemptsRunAsMachine, RestRunsAsMachine, TurnsStandExactly};
ghost use Rattle.sc_refines_world.specs.Refining.{StoppedWorldStaysNear, WorldHasHeadline, WorldReportsAsMachine, WorldRunsAsMachine};

use crate::regions::laws::{
    created_are_new, openings_are_in_order, others_keep_halves, regions_ask, regions_follow,
    turns_keep_order,
};
use crate::regions::sound::{new_stores_are_sound, sound_jobs_are_taken};
use sc_machine_laws::invariant_laws::settled_objects_meet;
use sc_machine_laws::settlements::laws::{
    core_settles_as_half_where_reached, entries_are_remembered,
};
use sc_request::laws::core_picks_where_the_machine_turns;
use sc_world::laws::{
    kept_alike_turn_alike, openings_are_of_their_program, runs_stay_of_their_program,
};

/// The turns of any handlers lead the world of an accepted system's program to one that represents the state to which
/// they lead the machine.
pub fn world_runs_as_machine()
    ensures { WorldRunsAsMachine }
{
    core_picks_where_the_machine_turns();
    core_settles_as_half_where_reached();
    entries_are_remembered();
    settled_objects_meet();
    regions_follow();
    regions_ask();
    others_keep_halves();
    created_are_new();
    openings_are_in_order();
    turns_keep_order();
    new_stores_are_sound();
    sound_jobs_are_taken();
}

/// Turns that are each made in a world that is played anew, of which the same is kept as of what the turn before left,
/// lead to a world of which the same is kept as of that one.
pub fn anew_runs_as_machine()
    ensures { AnewRunsAsMachine }
{
    world_runs_as_machine();
    kept_alike_turn_alike();
    openings_are_of_their_program();
    runs_stay_of_their_program();
}

/// If memory was refused to a turn after these, the world is near the state to which these lead the machine.
pub fn stopped_world_stays_near()
    ensures { StoppedWorldStaysNear }
{
    world_runs_as_machine();
}

/// The headline holds of each state that the machine on an accepted system reaches.
pub fn machine_has_headline()
    ensures { MachineHasHeadline }
{
    settled_objects_meet();
}

/// So each world that turns lead to represents a state that the machine reaches, and the headline holds of that
/// state.
pub fn world_has_headline()
    ensures { WorldHasHeadline }
{
    world_runs_as_machine();
    machine_has_headline();
}

/// A world that represents a state is near it.
pub fn standing_world_is_near()
    ensures { StandingWorldIsNear }
{}

/// So is one in which memory was refused to the turn of a handler of a world that represents it: the core is what it
/// was, and at most silent operations of that handler's region are executed.
pub fn refused_turn_stays_near()
    ensures { RefusedTurnStaysNear }
{}

/// A world near a state reports what the machine reports of it, and each handler has the status that it has there.
pub fn world_reports_as_machine()
    ensures { WorldReportsAsMachine }
{
    core_picks_where_the_machine_turns();
}

/// If no handler of a world has a job, none has a turn in the state of the machine that it represents.
pub fn idle_world_is_idle()
    ensures { IdleWorldIsIdle }
{
    core_picks_where_the_machine_turns();
}

/// Any turns, some made and others refused memory, lead a program's world near the state to which those that were
/// made lead the machine.
pub fn attempts_run_as_machine()
    ensures { AttemptsRunAsMachine }
{
    world_runs_as_machine();
}

/// So each world that they lead to is near a state that the machine reaches, and the headline holds of that state.
pub fn attempts_have_headline()
    ensures { AttemptsHaveHeadline }
{
    attempts_run_as_machine();
    machine_has_headline();
}

/// After a handler makes a turn, its part of the world represents the state exactly again.
pub fn turns_stand_exactly()
    ensures { TurnsStandExactly }
{
    world_runs_as_machine();
}

/// If memory was refused after some turns of a list, the rest of the list leads near the state to which the whole
/// list leads the machine.
pub fn rest_runs_as_machine()
    ensures { RestRunsAsMachine }
{
    world_runs_as_machine();
}
