//! Which value looks at a run between its tasks.

use crate::left::Left;

/// Looks at the run so far, on the thread that called for it.
pub trait Watch {
    /// A task was played and settled by one thread, or several workers have ended. No handler is out.
    fn sees(&mut self, left: &Left<'_>);

    /// Whether several workers are to end now and then, so that it sees the run so far.
    fn interrupts(&self) -> bool;
}

/// A watch that does nothing.
#[derive(Drop)]
pub struct Unwatched;

impl Watch for Unwatched {
    fn sees(&mut self, _left: &Left<'_>) {}

    fn interrupts(&self) -> bool {
        false
    }
}
