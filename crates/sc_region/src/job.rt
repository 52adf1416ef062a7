//! What handlers ask of each other, and the results of a handler's turns.

use crate::value::{Reference, Value};
use arrayvec::ArrayVec;
use sc_code::{ClassNumber, NameNumber};
use sc_lockpass::HandlerNumber;
use sc_model::Cause;

/// What a request is for.
#[derive(Clone, Copy)]
pub enum Errand {
    /// The feature of the number is called.
    Calls(NameNumber),
    /// An object of the target's class is made, by the creation procedure of the number or without one.
    Makes(Option<NameNumber>),
}

/// What a handler is asked for. It takes 304 bytes, and no memory beside.
#[derive(Drop)]
pub struct Request {
    /// The handler that asks, but for the creation of the root object.
    pub poster: Option<HandlerNumber>,
    /// The object that the feature is called on, or that is to be made.
    pub target: Reference,
    pub errand: Errand,
    pub actuals: ArrayVec<Value, 16>,
    /// Whether the poster waits for the answer.
    pub is_waited: bool,
}

/// What a handler does next.
#[derive(Drop)]
pub enum Job {
    /// It takes a request: the next of its queue, or a callback.
    Take(Request),
    /// It takes the answer to a request that it waits for: the value of a query, or none.
    Reply(Option<Value>),
    /// The handler that it waits for has failed.
    Failed,
    /// The request that it waits for was refused.
    Refused,
    /// Its reserve step has newly reserved these handlers.
    Granted(ArrayVec<HandlerNumber, 16>),
    /// The handler of the number was made for it.
    Made(HandlerNumber),
    /// It goes on.
    Go,
}

/// What a turn wants of the other handlers, and what its next step is.
#[derive(Drop)]
pub enum Want {
    /// Nothing. The next step is always enabled.
    Continue,
    /// Nothing. The next step reserves these handlers, none if all are held already.
    Reserve(ArrayVec<HandlerNumber, 16>),
    /// The request goes to its target's handler, and isn't waited for.
    Post(Request),
    /// The request goes to its target's handler with all rights where the call passes locks, and is waited for.
    Ask {
        request: Request,
        passes: bool,
    },
    /// A new handler is made, with this creation of an object of the class as its first request.
    Create {
        class: ClassNumber,
        procedure: Option<NameNumber>,
        actuals: ArrayVec<Value, 16>,
        passes: bool,
    },
    /// These handlers are released.
    Release(ArrayVec<HandlerNumber, 16>),
    /// A wait condition is false: these handlers are released and marked, and the same reserve step comes next.
    Wait(ArrayVec<HandlerNumber, 16>),
    /// The request ends, with a value or none, or refused, and these handlers are released.
    Done {
        reply: Option<Value>,
        released: ArrayVec<HandlerNumber, 16>,
        refused: bool,
    },
    /// The handler has failed.
    Fail(Cause),
}

/// The result of a handler's turns.
#[derive(Drop)]
pub struct Outcome {
    pub handler: HandlerNumber,
    /// How many turns were made.
    pub turns: u32,
    /// What the last of them asks.
    pub want: Want,
}
