//! Where a run ends in any case.

/// Where a run ends in any case.
#[derive(Clone, Copy)]
pub struct Bounds {
    /// After this number of turns.
    pub turns: u32,
    /// Where the handlers are seen to have printed more bytes together than this, if there is such a bound.
    pub output: Option<u64>,
}
