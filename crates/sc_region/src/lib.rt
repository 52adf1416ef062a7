//! The store of a handler: its objects, its frames and its output.
//!
//! [`Store`] keeps that each settled object meets its class invariant: where the end of a routine or the making of an
//! object would leave one that doesn't, the store fails. What a handler is asked for and what it asks for are
//! [`Request`], [`Job`], [`Want`] and [`Outcome`].
#![tactic(auto)]

mod breakdown;
mod equality;
mod frame;
mod job;
mod object;
mod operands;
mod program;
mod stack;
mod state;
mod store;
mod value;

pub use breakdown::{Breakdown, BrokenInvariant, Point};
pub use frame::{Activation, Origin, OwnCall, Stage};
pub use job::{Errand, Job, Outcome, Request, Want};
pub use operands::{Olds, Operands};
pub use sc_code::{ClassNumber, NameNumber};
pub use stack::Stack;
pub use state::MAX_FRAMES;
pub use store::Store;
pub use value::{ObjectNumber, Reference, Value};
