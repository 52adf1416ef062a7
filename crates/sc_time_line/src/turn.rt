//! What one turn of a run did.

use sc_lockpass::HandlerNumber;
use sc_text::Span;

/// What one turn of a handler did.
#[derive(Clone, Copy)]
pub struct Turn {
    pub handler: HandlerNumber,
    pub began: Began,
    pub made: Made,
    /// What the handler has sent to another one, if it has.
    pub sent: Option<Sent>,
    /// The name of the feature that is sent or taken, as a part of the text; None for a creation without a procedure.
    pub feature: Option<Span>,
    pub has_printed: bool,
    /// Whether the handler waits after it.
    pub is_waiting: bool,
}

/// With what a turn began.
#[derive(Clone, Copy)]
pub enum Began {
    /// A request is taken.
    Takes(Taken),
    /// What was asked for is answered, was refused, or its handler has failed or was made.
    Answered,
    /// Handlers are reserved.
    Reserves,
    /// Nothing of these.
    GoesOn,
}

/// A request that is taken.
#[derive(Clone, Copy)]
pub struct Taken {
    /// The handler that has sent it, but for the creation of the root object.
    pub by: Option<HandlerNumber>,
    /// Whether its sender waits for the answer.
    pub is_waited: bool,
}

/// What a turn came to.
#[derive(Clone, Copy)]
pub enum Made {
    /// It sent a request to another handler.
    Sends,
    /// It made a handler, to which it sent the creation of its root object.
    Creates,
    /// Handlers are to be reserved.
    Reserves,
    /// A wait condition was false, of the routine whose name is this part of the text, if there is one.
    Waits(Option<Span>),
    /// The request that it had taken ended.
    Ends,
    /// It refused the request that it had taken.
    Refuses,
    /// The handler has failed.
    Fails,
    /// Nothing of these.
    Other,
}

/// What a handler sends to another one.
#[derive(Clone, Copy)]
pub struct Sent {
    /// The handler that it is sent to.
    pub to: HandlerNumber,
    /// Whether its sender waits for the answer.
    pub is_waited: bool,
    /// How many requests that handler has in its queue then.
    pub queue: usize,
}
