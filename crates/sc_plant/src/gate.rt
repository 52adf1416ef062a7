//! Which value hears of a run on its way.

use sc_lockpass::HandlerNumber;

/// Is called as a worker begins to play a handler's turns, and after it has played them. The worker holds the region
/// of the handler then, and nothing else. If several workers play, it isn't called for a turn that a reserve step was
/// granted: a worker plays that while it holds the core, too. If one plays, it is called for each task.
pub trait Gate: Sync {
    /// The region of the handler was locked.
    fn began(&self, handler: HandlerNumber);

    /// The region of the handler is let go next.
    fn ended(&self, handler: HandlerNumber);
}
