//! A line of a record.

use sc_lockpass::HandlerNumber;

/// A handler, and how many turns it takes.
#[derive(Clone, Copy, PartialEq, Eq)]
pub struct RecordLine {
    /// The number of the handler.
    pub handler: HandlerNumber,
    /// How many turns it takes.
    pub turns: u32,
}
