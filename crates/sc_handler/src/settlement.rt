//! Settlements.

use sc_lockpass::HandlerNumber;
use sc_region::{Job, Want};

/// What a handler's turns under a job came to. It takes 640 bytes, and no memory beside.
#[derive(Drop)]
pub struct Settlement {
    /// The handler whose turns they were.
    pub handler: HandlerNumber,
    /// What it had to do.
    pub job: Job,
    /// How many turns were made.
    pub turns: u32,
    /// What the last of them asked.
    pub want: Want,
}
