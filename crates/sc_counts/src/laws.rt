//! Laws of states that are read alike, each the contract of a function that does nothing.
ghost use Rattle.sc_counts.specs.Laws.{AlikeAreReadAlike, AlikeSettleAlike, OpeningsAreCounted, PicksStayCounted, PutBacksStayCounted, ReadStatesAreCounted, ReadStatesStay, SettlementsStayCounted, SettlementsStayFew};

/// A core opens with a state that names only handlers that there are, and counts that were reached.
pub fn openings_are_counted()
    ensures { OpeningsAreCounted }
{}

/// So does the state once a handler is picked with its job,
pub fn picks_stay_counted()
    ensures { PicksStayCounted }
{}

/// once a pick is undone,
pub fn put_backs_stay_counted()
    ensures { PutBacksStayCounted }
{}

/// and once turns are settled, whatever they want.
pub fn settlements_stay_counted()
    ensures { SettlementsStayCounted }
{}

/// So does what is read of a state.
pub fn read_states_are_counted()
    ensures { ReadStatesAreCounted }
{}

/// What is read of a state is read as it is.
pub fn read_states_stay()
    ensures { ReadStatesStay }
{}

/// There are no more handlers after a settlement than there may be.
pub fn settlements_stay_few()
    ensures { SettlementsStayFew }
{}

/// In states that are read alike each handler has the same job and the same status.
pub fn alike_are_read_alike()
    ensures { AlikeAreReadAlike }
{}

/// States that are read alike are so after a settlement, too.
pub fn alike_settle_alike()
    ensures { AlikeSettleAlike }
{}
