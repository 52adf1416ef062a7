//! Laws of the regions beside the machine, each the contract of a function that does nothing.
ghost use Rattle.sc_refines_world.specs.regions.RegionSteps.{RegionsAsk};
ghost use Rattle.sc_refines_world.specs.regions.Further.{FirstTurnsGoOn, FurtherTurnsSettle};
ghost use Rattle.sc_refines_world.specs.regions.Joined.{CreatedAreNew, OpensAsHalves, OpensAsNew, OthersKeepHalves, RegionsFollow, TurnsKeepHalves};
ghost use Rattle.sc_refines_world.specs.regions.Order.{OpensInOrder, TurnsKeepOrder};

/// A handler's turn under its job changes its region's half as the machine's turn does, beside what the core's
/// settlement leaves, if its frames are in order, its requests have names with numbers, and settled objects meet
/// their invariants after the turn.
pub fn regions_follow()
    ensures { RegionsFollow }
{}

/// What the region asks in that turn is what the machine's turn asks.
pub fn regions_ask()
    ensures { RegionsAsk }
{}

/// In a turn of a handler the half of any other one's region stays that.
pub fn others_keep_halves()
    ensures { OthersKeepHalves }
{}

/// The half of a handler that is created in a turn is new.
pub fn created_are_new()
    ensures { CreatedAreNew }
{}

/// At the opening the half of each handler is new.
pub fn openings_are_new()
    ensures { OpensAsNew }
{}

/// At the opening the frames of all handlers are in order.
pub fn openings_are_in_order()
    ensures { OpensInOrder }
{}

/// So they do after each turn.
pub fn turns_keep_order()
    ensures { TurnsKeepOrder }
{}

/// At the opening the halves of all handlers are new.
pub fn openings_are_halves()
    ensures { OpensAsHalves }
{}

/// After each turn they are the regions' of the state that the machine steps to, beside what the core's settlement
/// leaves.
pub fn turns_keep_halves()
    ensures { TurnsKeepHalves }
{}

/// Where the first turn under a job asks nothing its handler goes on, if a further turn may come under it.
pub fn first_turns_go_on()
    ensures { FirstTurnsGoOn }
{}

/// The settlement of more turns under a job is that of the first, which asks nothing, and of those that are left.
pub fn further_turns_settle()
    ensures { FurtherTurnsSettle }
{}
