//! Laws of entries, each the contract of a function that does nothing.
ghost use Rattle.sc_lockpass.specs.wait_conditions.Laws.{NeedsUnheld, NeedsOnce, EntryHolds, NothingWaitedFor, StartsWhereAllHold, FirstFalseDecides, WaitsAtFirst, IsTriedAgain, ReservesUnreserved, ReservesIdle, EitherReservesOrFails};

/// What is needed is the handlers of the values that aren't held, and no other.
pub fn needs_what_is_unheld()
    ensures { NeedsUnheld }
{}

/// None is listed twice.
pub fn needs_each_once()
    ensures { NeedsOnce }
{}

/// An entry that has reserved what it needs holds the handlers of all values.
pub fn entry_holds_all()
    ensures { EntryHolds }
{}

/// Where an entry has newly reserved nothing, no clause is waited for.
pub fn nothing_is_waited_for()
    ensures { NothingWaitedFor }
{}

/// A body starts exactly where every clause is true.
pub fn starts_where_all_hold()
    ensures { StartsWhereAllHold }
{}

/// The first false clause decides, whatever follows it.
pub fn first_false_decides()
    ensures { FirstFalseDecides }
{}

/// An entry that has begun to wait isn't tried again as long as no session of its handlers ends.
pub fn entry_waits_at_first()
    ensures { WaitsAtFirst }
{}

/// It may be tried once a session of one of them has ended.
pub fn entry_is_tried_again()
    ensures { IsTriedAgain }
{}

/// What may be reserved is free.
pub fn reserves_what_is_unreserved()
    ensures { ReservesUnreserved }
{}

/// What may be reserved is idle with an empty queue.
pub fn reserves_what_is_idle()
    ensures { ReservesIdle }
{}

/// A reserve step either reserves or fails.
pub fn reserves_or_fails()
    ensures { EitherReservesOrFails }
{}
