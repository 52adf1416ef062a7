//! What holds of silent operations and of visible ones, each the contract of a function that does nothing.
ghost use Rattle.sc_interp.specs.Laws.{SilentOperationsFall, VisibleOperationsPass};

/// A silent operation goes ahead in the code, so silent operations end.
pub fn silent_operations_fall()
    ensures { SilentOperationsFall }
{}

/// After a visible operation that takes operands, a routine is where flat code is, if a number can say that place.
pub fn visible_operations_pass()
    ensures { VisibleOperationsPass }
{}
