//! Laws of the core beside the machine, each the contract of a function that does nothing.
ghost use Rattle.sc_machine_laws.specs.settlements.Calm.{EachPureIsCalm, PureBeginPure, PureCallPure};
ghost use Rattle.sc_machine_laws.specs.settlements.Clauses.{ClausesCallPure, ClausesComeFirst, EachStandsInClauses};
ghost use Rattle.sc_machine_laws.specs.settlements.Entries.{EntriesStay, StartedStay};
ghost use Rattle.sc_machine_laws.specs.settlements.Pure.{PureReserveNothing};
ghost use Rattle.sc_machine_laws.specs.settlements.Reached.{EntriesAreRemembered, HalvesWhereReached, RunsAsHalf};
ghost use Rattle.sc_machine_laws.specs.settlements.Started.{ReserversOnStarted};

/// In each state that an accepted system reaches, the settlement of a turn leaves the half of the state that the machine steps to, where an entry
/// that waits is the one that its handler reserved for last.
pub fn core_settles_as_half_where_reached()
    ensures { HalvesWhereReached }
{}

/// At the turns of any list of handlers, from the opening of an accepted system on, each entry that waits is the one
/// that its handler reserved for last.
pub fn entries_are_remembered()
    ensures { EntriesAreRemembered }
{}

/// After the turns of any list of handlers, from the opening of an accepted system on, the core is the half of the
/// machine.
pub fn core_runs_as_half()
    ensures { RunsAsHalf }
{}

/// In each settlement the entry that a handler reserved for last stays, until the handler reserves again or has no
/// frames; and what a handler is about to reserve is that entry.
pub fn entries_stay()
    ensures { EntriesStay }
{}

/// If no clause of a routine's precondition is left, none is left after its next turn, in which none is found false.
pub fn started_routines_stay_started()
    ensures { StartedStay }
{}

/// A function that contracts may call reserves nothing as it is entered.
pub fn pure_functions_reserve_nothing()
    ensures { PureReserveNothing }
{}

/// If a routine is in its own precondition, its next turn calls a function that contracts may call, or wants
/// something of another handler and lends nothing, or the routine starts, is refused or fails.
pub fn clauses_call_pure()
    ensures { ClausesCallPure }
{}

/// A routine with a precondition begins in it.
pub fn clauses_come_first()
    ensures { ClausesComeFirst }
{}

/// In each state that an accepted system reaches, a routine that has not started is in its own precondition.
pub fn unstarted_routines_stand_in_clauses()
    ensures { EachStandsInClauses }
{}

/// A function that contracts may call begins in its contract, and all that is left to do of it calls what contracts may
/// call.
pub fn pure_functions_begin_pure()
    ensures { PureBeginPure }
{}

/// Its next turn calls what contracts may call, or tests, starts, is refused, ends or fails, and it goes on so.
pub fn pure_functions_call_pure()
    ensures { PureCallPure }
{}

/// In each state that an accepted system reaches, the next turn of a function that contracts may call calls such a
/// function, or tests, starts, is refused, ends or fails.
pub fn pure_functions_stay_calm()
    ensures { EachPureIsCalm }
{}

/// In each state that an accepted system reaches, the routines below one that reserves have started: none was called
/// for a clause of a precondition.
pub fn reservers_stand_on_started()
    ensures { ReserversOnStarted }
{}
