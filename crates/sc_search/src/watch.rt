//! Which value sees a search on its way.

use crate::verdict::Pass;

/// How far a search is.
#[derive(Clone, Copy)]
pub struct Stage {
    pub pass: Pass,
    /// How many states the pass has kept.
    pub states: u32,
    /// How many bytes what it keeps takes.
    pub bytes: u64,
    /// How many turns lead to the state whose turns were tried last.
    pub depth: u32,
}

/// Sees a search on its way.
pub trait Watch {
    /// Whether it sees the search now that this number of states are kept. It is asked each time that the turns of
    /// another state were tried.
    fn is_due(&self, states: u32) -> bool;

    /// Sees how far the search has come.
    fn sees(&mut self, stage: Stage);
}

/// A watch that does nothing.
impl Watch for () {
    fn is_due(&self, _states: u32) -> bool {
        false
    }

    fn sees(&mut self, _stage: Stage) {}
}
