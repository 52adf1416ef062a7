//! What turns and settlements leave of the requests that handlers serve, and what follows of handlers that are free.
//! Each law is the contract of a function that does nothing.
ghost use Rattle.sc_world.specs.Requests.Links.{FreeRegionsRest, LinkedObjectsMeet, OpeningsAreLinked, RefusedTurnsStayLinked, TurnsStayLinked};
ghost use Rattle.sc_world.specs.Requests.Settlements.{OthersServe, SettlementsServe};
ghost use Rattle.sc_world.specs.Requests.Turns.{FirstTurnsServe, FurtherTurnsServe, RefusedRegionsServe, RegionsServe};

/// The first turn under a job begins to serve a request if it takes one, and ends one if it wants to; no other frame
/// of a request comes or goes, unless the turn wants a failure.
pub fn first_turns_serve()
    ensures { FirstTurnsServe }
{}

/// A further turn serves what the turn before served, but for a request that it ends.
pub fn further_turns_serve()
    ensures { FurtherTurnsServe }
{}

/// What a region plays under a job begins to serve a request where that is taken, and ends one where the last turn asks
/// so.
pub fn regions_serve()
    ensures { RegionsServe }
{}

/// Where memory was refused to a turn the region serves what it did.
pub fn refused_regions_serve()
    ensures { RefusedRegionsServe }
{}

/// In a settlement the handler serves one request more if it took one, and one less if one is done, unless it fails.
pub fn settlements_serve()
    ensures { SettlementsServe }
{}

/// In the settlement of a handler all others serve what they did.
pub fn others_serve()
    ensures { OthersServe }
{}

/// At the opening each handler serves in the core what its region serves.
pub fn openings_are_linked()
    ensures { OpeningsAreLinked }
{}

/// So it is after each turn.
pub fn turns_stay_linked()
    ensures { TurnsStayLinked }
{}

/// So it is where a turn was refused memory and its handler is put back.
pub fn refused_turns_stay_linked()
    ensures { RefusedTurnsStayLinked }
{}

/// Then the region of a handler that is free has no frames, and hasn't failed.
pub fn free_regions_rest()
    ensures { FreeRegionsRest }
{}

/// Then each object of a handler that is free meets its class invariant.
pub fn linked_objects_meet()
    ensures { LinkedObjectsMeet }
{}
