//! Numbers of handlers.

/// The number of a handler. Handlers are numbered from 0 on in the order in which they are made.
pub type HandlerNumber = u16;
