//! Clauses of preconditions.

/// What a false clause means for its entry.
#[derive(Clone, Copy)]
pub enum ClauseKind {
    /// It waits: the clause speaks of a handler that this entry newly reserved, so others may make it true.
    WaitCondition,
    /// It is refused.
    CorrectnessCondition,
}

/// A clause that was evaluated.
#[derive(Clone, Copy)]
pub struct ClauseResult {
    /// What the entry does if the clause is false.
    pub kind: ClauseKind,
    /// Whether it is true.
    pub holds: bool,
}

/// What the clauses of a precondition decide.
#[derive(Clone, Copy)]
pub enum EntryVerdict {
    /// The body starts.
    Start,
    /// What was newly reserved is released, and the entry waits.
    Wait,
    /// A request is refused, and a routine that its own handler called fails.
    Refuse,
}
