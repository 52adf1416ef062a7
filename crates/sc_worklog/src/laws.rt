//! What it means that a log replays to a region, each law the contract of a function that does nothing.
ghost use Rattle.sc_worklog.specs.Laws.{EntriesAreTheHandlers, TurnsReplay, UnrefusedReplaysAreTurns};

/// If no memory was refused, the turns of the entries, one after the other, lead from a new region to this one: each
/// entry's under its job, as many as it says, and the last wants what it says.
pub fn unrefused_replays_are_turns()
    ensures { UnrefusedReplaysAreTurns }
{}

/// If they lead there, the entries replay to it, and no memory was refused.
pub fn turns_replay()
    ensures { TurnsReplay }
{}

/// What replays to a region of a handler's program are entries of that handler, each of one turn or more; also where memory
/// was refused.
pub fn entries_are_the_handlers()
    ensures { EntriesAreTheHandlers }
{}
