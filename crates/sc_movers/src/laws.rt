//! Laws of movers, each the contract of a function that does nothing.
ghost use Rattle.sc_movers.specs.Movers.{TurnsAreMovers};
ghost use Rattle.sc_movers.specs.Returned.{AllReturnOwn, AllUnlentWait, NoIdleIsPushed};

use sc_machine_laws::invariant_laws::settled_objects_meet;
use sc_machine_laws::request_laws::{beyond_is_unused, ends_the_one, idle_has_no_top, no_callback};
use sc_machine_laws::settlements::laws::{
    core_settles_as_half_where_reached, entries_are_remembered,
};
use sc_refines_world::once::{
    first_turns_are_functional, first_turns_keep_exact, runs_are_functional,
};
use sc_refines_world::regions::laws::{
    created_are_new, openings_are_in_order, others_keep_halves, regions_ask, regions_follow,
    turns_keep_order,
};
use sc_refines_world::regions::sound::{new_stores_are_sound, sound_jobs_are_taken};
use sc_request::laws::core_picks_where_the_machine_turns;
use sc_world::laws::{
    kept_alike_turn_alike, openings_are_of_their_program, runs_stay_of_their_program,
};

/// In the program of an accepted system, a handler may post to each handler that its turn gives back: as a request ends, to
/// each that was passed with it, and once a handler was made for it, to that one. If the poster of that request waits for one
/// with which it passed nothing, and has no answer yet, it waits for one of this handler.
pub fn what_returns_is_own()
    ensures { AllReturnOwn }
{
    ends_the_one();
    first_turns_are_functional();
    first_turns_keep_exact();
    core_picks_where_the_machine_turns();
    core_settles_as_half_where_reached();
    entries_are_remembered();
    settled_objects_meet();
    regions_follow();
    regions_ask();
    others_keep_halves();
    created_are_new();
    openings_are_in_order();
    turns_keep_order();
    new_stores_are_sound();
    sound_jobs_are_taken();
}

/// In the program of an accepted system, nobody may push on the waiting stack of a handler that has no frames and hasn't failed.
pub fn no_idle_handler_is_pushed()
    ensures { NoIdleIsPushed }
{
    idle_has_no_top();
    first_turns_are_functional();
    first_turns_keep_exact();
    core_picks_where_the_machine_turns();
    core_settles_as_half_where_reached();
    entries_are_remembered();
    settled_objects_meet();
    regions_follow();
    regions_ask();
    others_keep_halves();
    created_are_new();
    openings_are_in_order();
    turns_keep_order();
    new_stores_are_sound();
    sound_jobs_are_taken();
}

/// In the program of an accepted system, a handler that waits for a request with which it passed nothing is there. If it hasn't
/// failed, it awaits that answer, and has heard nothing but perhaps that a supplier has failed.
pub fn who_waits_unlent_hears_nothing()
    ensures { AllUnlentWait }
{
    no_callback();
    beyond_is_unused();
    first_turns_are_functional();
    first_turns_keep_exact();
    core_picks_where_the_machine_turns();
    core_settles_as_half_where_reached();
    entries_are_remembered();
    settled_objects_meet();
    regions_follow();
    regions_ask();
    others_keep_halves();
    created_are_new();
    openings_are_in_order();
    turns_keep_order();
    new_stores_are_sound();
    sound_jobs_are_taken();
}

/// In the program of an accepted system these turns are movers, which may be played at once, before any turn of others: those
/// that ask nothing of other handlers, that release what is their handler's own, or that ask a free handler; the ends of
/// requests with which nothing was passed; and those that take a request, if no other handler may post to theirs before.
pub fn turns_are_movers()
    ensures { TurnsAreMovers }
{
    kept_alike_turn_alike();
    openings_are_of_their_program();
    runs_stay_of_their_program();
    runs_are_functional();
    what_returns_is_own();
    no_idle_handler_is_pushed();
    who_waits_unlent_hears_nothing();
}
