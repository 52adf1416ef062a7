//! What holds in each world that turns lead to, each the contract of a function that does nothing.
ghost use Rattle.sc_world.specs.Free.{FreeObjectsMeet, OpeningsAreLinked, RunsStayLinked, StoppedRunsStayLinked};
ghost use Rattle.sc_world.specs.Kept.{AttemptsStayOf, KeptAlikeReadAlike, KeptAlikeTurnAlike, OpeningsAreOf, RunsStayOf};
ghost use Rattle.sc_world.specs.Loading.{WorldsAreKeptByNumbers};
ghost use Rattle.sc_world.specs.Views.{world_of};

use crate::world::World;
use sc_counts::laws::{
    alike_are_read_alike, alike_settle_alike, openings_are_counted, picks_stay_counted,
    put_backs_stay_counted, settlements_stay_counted, settlements_stay_few,
};
use sc_lockpass::HandlerNumber;

/// At the opening each handler serves in the core what its region serves.
pub fn openings_are_linked()
    ensures { OpeningsAreLinked }
{}

/// So it is after the turns of any handlers, one after the other.
pub fn runs_stay_linked()
    ensures { RunsStayLinked }
{}

/// So it is where memory was refused to one of them.
pub fn stopped_runs_stay_linked()
    ensures { StoppedRunsStayLinked }
{}

/// In every world, each object of a handler that is free, and so hasn't failed, meets its class invariant.
///
/// The type of a store keeps this fact, so the region is looked up and nothing is tested.
pub fn free_objects_meet(world: &World<'_>, handler: HandlerNumber)
    ensures { FreeObjectsMeet handler (world_of world.now) }
{
    if let Some(region) = world.configuration.regions.get(handler as usize) {
        region.settled_objects_meet();
    }
}

/// Where all from a number on are new, the parts and the regions below it are all that is kept of a world.
pub fn worlds_are_kept_by_numbers()
    ensures { WorldsAreKeptByNumbers }
{}

/// At the opening of a program all regions belong to it, and no handler is out.
pub fn openings_are_of_their_program()
    ensures { OpeningsAreOf }
{
    openings_are_counted();
}

/// and it stays so after the turns of any handlers.
pub fn runs_stay_of_their_program()
    ensures { RunsStayOf }
{
    settlements_stay_counted();
    settlements_stay_few();
}

/// So it does where memory is refused to some of them.
pub fn attempts_stay_of_their_program()
    ensures { AttemptsStayOf }
{
    picks_stay_counted();
    put_backs_stay_counted();
    settlements_stay_counted();
    settlements_stay_few();
}

/// In worlds of one program that are kept alike the handlers have the same jobs and statuses, and the reports are the
/// same.
pub fn kept_alike_read_alike()
    ensures { KeptAlikeReadAlike }
{
    alike_are_read_alike();
}

/// From worlds of one program that are kept alike the turns of a handler lead to worlds that are kept alike.
pub fn kept_alike_turn_alike()
    ensures { KeptAlikeTurnAlike }
{
    alike_are_read_alike();
    alike_settle_alike();
}
