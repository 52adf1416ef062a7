//! What follows from the invariant on values, and in which states it holds.

ghost use Rattle.sc_machine_laws.specs.states.Passing.{FitWhereConforming, FitWhereGiven, FitWherePassed};
ghost use Rattle.sc_machine_laws.specs.states.Values.{ActsKeepIt, AnswersKeepIt, CallbacksKeepIt, EachEndIsAwaited, EachStandsAlone, EntriesFit, ExitsKeepIt, FailuresKeepIt, FitWhereWorldFits, FromTurns, MovesFit, NextKeepIt, NoMoveIsExcluded, NonSeparateIsOwn, NoneIsExcluded, OpeningFits, OwnWhereWorldFits, ReleasesKeepIt, RequestsAreMatched, ReservationsKeepIt, RightsKeepIt, RunningFramesMove, StepsFit, TurnsFromEnds, TurnsKeepIt, TurnsKeepWhereAwaited, ValuesFit, is_entry, is_new_handler, is_own_act, is_refusal, is_request};

/// If the invariant on values holds of a state, each value fits its type wherever it is; an attribute, a local or a
/// Result may still be unset.
pub fn values_fit()
    ensures { FitWhereWorldFits }
{}

/// If it holds, an object that is typed non-separate belongs to the handler from which it is seen.
pub fn non_separate_is_own()
    ensures { OwnWhereWorldFits }
{}

/// It holds of the opening of each system without a fault of its classes.
pub fn opening_fits()
    ensures { OpeningFits }
{}

/// If each turn keeps it, each value fits in every state that an accepted system reaches.
pub fn values_fit_from_turns()
    ensures { FromTurns }
{}

/// What fits a type fits each that it conforms to.
pub fn fit_where_conforming()
    ensures { FitWhereConforming }
{}

/// A result that fits its declared type on the target's handler fits the combined type, seen by the caller.
pub fn fit_where_given()
    ensures { FitWhereGiven }
{}

/// Values that the rules let pass as actuals fit the formals on the target's handler.
pub fn fit_where_passed()
    ensures { FitWherePassed }
{}

/// Where what is left to do in a routine of an accepted system is typed and its values fit, its next step fits: what a silent
/// step leaves is typed and fits again, what a visible step enters, requests or creates is given actuals that fit, and no step
/// fails for a foreign object, a Void target or a missing case; and whom a visible step asks a name of the routine names.
pub fn steps_fit()
    ensures { StepsFit }
{}

/// So does its next turn: the silent steps up to a visible one, and that one.
pub fn moves_fit()
    ensures { MovesFit }
{}

/// A routine of an accepted system that is entered with actuals that fit its formals begins typed, with values that
/// fit, also if it keeps the contract of a routine that it redefines.
pub fn entries_fit()
    ensures { EntriesFit }
{}

/// Where the invariant on values holds of a state, the topmost frame of each handler makes a move that fits, if it runs.
pub fn running_frames_move()
    ensures { RunningFramesMove }
{}

/// Each value fits, whichever handler holds which.
pub fn rights_keep_it()
    ensures { RightsKeepIt }
{}

/// The release of handlers keeps the invariant on values.
pub fn releases_keep_it()
    ensures { ReleasesKeepIt }
{}

/// So does the failure of a handler that has an object.
pub fn failures_keep_it()
    ensures { FailuresKeepIt }
{}

/// A turn in which the topmost frame reserves handlers keeps the invariant on values.
pub fn reservations_keep_it()
    ensures { ReservationsKeepIt }
{}

/// No such move fails for a foreign object, a Void target or a missing case.
pub fn no_move_is_excluded()
    ensures { NoMoveIsExcluded }
{}

/// A turn in which a routine does what concerns its own handler alone keeps the invariant: it prints, ends a round of a
/// loop, creates an object of its handler without a call, starts, opens or ends a separate block, or fails.
pub fn own_acts_keep_it()
    ensures { ActsKeepIt is_own_act }
{}

/// So does one in which it calls a routine of its own handler.
pub fn entries_keep_it()
    ensures { ActsKeepIt is_entry }
{}

/// So does one in which its precondition is false: the entry waits, its request is refused, or its handler fails.
pub fn refusals_keep_it()
    ensures { ActsKeepIt is_refusal }
{}

/// So does one in which a routine exits, where whoever waits for the request that began it takes its result.
pub fn exits_keep_it()
    ensures { ExitsKeepIt }
{}

/// A turn in which the topmost frame takes the answer that it waits for keeps the invariant on values.
pub fn answers_keep_it()
    ensures { AnswersKeepIt }
{}

/// So does one in which it asks another handler, with lock passing or without.
pub fn requests_keep_it()
    ensures { ActsKeepIt is_request }
{}

/// So does one in which it creates a handler.
pub fn creations_keep_it()
    ensures { ActsKeepIt is_new_handler }
{}

/// So does one in which a handler without frames takes the first request of its queue, where whoever waits for it takes what
/// it asks for.
pub fn next_keep_it()
    ensures { NextKeepIt }
{}

/// A turn in which a callback is taken, with no reply there, keeps it, too.
pub fn callbacks_keep_it()
    ensures { CallbacksKeepIt }
{}

/// Each turn keeps the invariant on values, if no handler has both a callback and a reply, and each handler that
/// waits for a request that may end in the next turn of its handler takes what the request asks for.
pub fn turns_keep_where_awaited()
    ensures { TurnsKeepWhereAwaited }
{}

/// If whoever waits for what may end takes what it asks for, in every state that an accepted system reaches, each turn keeps
/// the invariant there.
pub fn turns_from_ends()
    ensures { TurnsFromEnds }
{}

/// No handler has both a callback and a reply in any state that is reached.
pub fn callbacks_stand_alone()
    ensures { EachStandsAlone }
{}

/// Where the invariant on values holds, what a request asks for fits what its poster takes, and a creation of a handler gives
/// nothing.
pub fn requests_are_matched()
    ensures { RequestsAreMatched }
{}

/// In each state that an accepted system reaches, each handler that waits for a request that may end in the next turn
/// of its handler takes what the request asks for.
pub fn ends_are_awaited()
    ensures { EachEndIsAwaited }
{}

/// So each turn of an accepted system keeps the invariant on values.
pub fn turns_keep_it()
    ensures { TurnsKeepIt }
{}

/// In each state that an accepted system reaches, each value fits its type wherever it is; an attribute, a local or a
/// Result may still be unset.
pub fn each_value_fits()
    ensures { ValuesFit }
{}

/// In each such state, an object that is typed non-separate belongs to the handler from which it is seen.
pub fn each_non_separate_is_own()
    ensures { NonSeparateIsOwn }
{}

/// In each such state, no handler has failed for asking one that it doesn't hold, for a foreign object, a Void target or a missing
/// case.
pub fn none_is_excluded()
    ensures { NoneIsExcluded }
{}
