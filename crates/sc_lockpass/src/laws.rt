//! Laws of rights and of passing, each the contract of a function that does nothing.
ghost use Rattle.sc_lockpass.specs.Laws.{Restores, HoldsAgain, TopReturns, SupplierHolds, ClientHolds, OthersHold, NothingKept, OthersKeep, ReserverHolds, TakesNothing, ReleaseRestores};

/// Giving back what was just passed restores all rights.
pub fn passing_is_undone()
    ensures { Restores }
{}

/// A client that is given back what it passed holds all that it held, whatever became of the rights since.
pub fn client_holds_again()
    ensures { HoldsAgain }
{}

/// After it the client's waiting stack is whose it was.
pub fn top_returns()
    ensures { TopReturns }
{}

/// A supplier to which rights are passed holds what it held and what its client held.
pub fn supplier_holds_both()
    ensures { SupplierHolds }
{}

/// A client that has passed its rights holds itself alone.
pub fn client_keeps_nothing()
    ensures { ClientHolds }
{}

/// Passing takes nothing from others, but the client.
pub fn others_hold_on()
    ensures { OthersHold }
{}

/// A handler that has released all its rights holds itself alone.
pub fn nothing_is_kept()
    ensures { NothingKept }
{}

/// Nothing is taken from others by that.
pub fn others_keep_theirs()
    ensures { OthersKeep }
{}

/// A handler that reserves others holds them, and what it held.
pub fn reserver_holds()
    ensures { ReserverHolds }
{}

/// Reserving handlers that are free takes nothing from any handler.
pub fn reserving_takes_nothing()
    ensures { TakesNothing }
{}

/// Releasing what was just reserved restores all rights.
pub fn reserving_is_undone()
    ensures { ReleaseRestores }
{}
