//! What the list of warnings says, each law the contract of a function that does nothing.

ghost use Rattle.sc_warnings.specs.Laws.{UnreadLocalsAreListed};

/// A local is warned of exactly if it is never read.
pub fn unread_locals_are_listed()
    ensures { UnreadLocalsAreListed }
{}
