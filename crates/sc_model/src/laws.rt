//! Laws of the machine, each the contract of a function that does nothing.
ghost use Rattle.sc_model.specs.Laws.{DefaultsAreNeutral, FailedHandlersStay, FewerAreEnough, IdleTurnsChangeNothing, InvariantsHaveFormulas, OutputGrows, RunsJoin, SilentStepsFall, TurnsAreVisible};

/// A silent step makes what is left to do smaller.
pub fn silent_steps_fall()
    ensures { SilentStepsFall }
{}

/// The silent steps of a turn end in a visible one.
pub fn turns_are_visible()
    ensures { TurnsAreVisible }
{}

/// A handler that has no turn changes nothing.
pub fn idle_turns_change_nothing()
    ensures { IdleTurnsChangeNothing }
{}

/// A run of two lists is the run of the second from where the first ends.
pub fn runs_join()
    ensures { RunsJoin }
{}

/// A run that uses fewer handlers is the same with a lower limit on handlers.
pub fn fewer_handlers_are_enough()
    ensures { FewerAreEnough }
{}

/// A turn only adds to outputs.
pub fn output_grows()
    ensures { OutputGrows }
{}

/// A handler that has failed stays as it is, but that its sessions may end.
pub fn failed_handlers_stay()
    ensures { FailedHandlersStay }
{}

/// In an accepted system the joined invariant of each class is a list of formulas over its attributes.
pub fn invariants_have_formulas()
    ensures { InvariantsHaveFormulas }
{}

/// What an entity holds at first says nothing yet.
pub fn defaults_are_neutral()
    ensures { DefaultsAreNeutral }
{}
