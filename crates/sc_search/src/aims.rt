//! What is looked for.

/// What ends a search.
#[derive(Clone, Copy)]
pub enum Aim {
    /// A handler is stuck: it waits, and no order gives it a turn any more, whatever others do.
    Stuck,
    /// Some handler has failed.
    Fails,
    /// Some handler has refused a request for which no handler waited.
    Refused,
    /// One of them.
    Any,
}
