//! Laws of bodies that start, each the contract of a function that does nothing.
ghost use Rattle.sc_machine_laws.specs.Points.{PureMoves};
ghost use Rattle.sc_machine_laws.specs.Starting.{BodiesStartWhereTheyHold};
ghost use Rattle.sc_machine_laws.specs.Turns.{OthersFollow, OwnFollows};

/// In each state that an accepted system reaches, right after a turn in which a body starts, each clause of its precondition
/// holds, wait condition or not.
pub fn bodies_start_where_clauses_hold()
    ensures { BodiesStartWhereTheyHold }
{}

/// After a handler's own turn each of its frames follows again: a pure function, or a routine in its precondition,
/// runs beside the evaluation of a clause by its parts.
pub fn frames_follow_after_own_turns()
    ensures { OwnFollows }
{}

/// After the turn of another handler they do too.
pub fn frames_follow_after_turns_of_others()
    ensures { OthersFollow }
{}

/// A turn of a frame that runs a pure function goes on beside the evaluation, calls a pure function, or ends with an
/// equal Result.
pub fn pure_functions_move()
    ensures { PureMoves }
{}
