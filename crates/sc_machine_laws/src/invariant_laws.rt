//! Laws of settled objects, each the contract of a function that does nothing.
ghost use Rattle.sc_machine_laws.specs.SettledObjects.{FreeMeetWhereReached, SettledMeetAfterTurns, SettledMeetWhereReached};

/// In each state that an accepted system reaches, each settled object meets its class invariant: each object of a
/// handler that has not failed, which no frame has as Current.
pub fn settled_objects_meet()
    ensures { SettledMeetWhereReached }
{}

/// So it does after each further turn.
pub fn settled_objects_meet_after_turns()
    ensures { SettledMeetAfterTurns }
{}

/// In each state that an accepted system reaches, each object of a handler that has not failed and runs nothing meets
/// its class invariant.
pub fn free_objects_meet()
    ensures { FreeMeetWhereReached }
{}
