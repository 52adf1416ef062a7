//! The status of a handler.

use crate::cause::Cause;

/// The status of a handler: the first of these that is true of it.
#[derive(Clone, Copy, PartialEq, Eq)]
pub enum Status {
    Failed(Cause),
    /// It has something to do.
    Busy,
    /// It has frames, and nothing that it can do.
    Waiting,
    Free,
}
