//! How far a search may go.

/// How much each pass of a search may keep.
#[derive(Clone, Copy)]
pub struct Limits {
    /// The most states.
    pub states: u32,
    /// The most bytes that what is kept of states may take.
    pub bytes: u64,
}
