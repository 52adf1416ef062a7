//! What a worker is to play, and what that came to.
use sc_lockpass::HandlerNumber;
use sc_region::{Job, Want};

/// Turns of a handler that a worker is to play. Each worker has one task, which is written over, so that no large value is
/// moved.
#[derive(Drop)]
pub struct Task {
    pub handler: HandlerNumber,
    pub job: Job,
    /// How many turns of the job may be played.
    pub turns: u32,
    /// What the last turn of the job asked, once it is played.
    pub asked: Want,
}

impl Task {
    /// One before the first.
    pub fn new() -> Task {
        Task {
            handler: 0,
            job: Job::Go,
            turns: 0,
            asked: Want::Continue,
        }
    }
}

/// What a task came to.
#[derive(Clone, Copy)]
pub enum Played {
    /// No task was played.
    Nothing,
    /// This number of turns of its job were made.
    Made(u32),
    /// This number of turns of its job were made, and memory was refused to the next.
    CutShort(u32),
    /// Memory was refused to the first turn of the job.
    Refused,
}
