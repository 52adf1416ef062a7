//! Orders of turns: which handlers an order may still give a turn, whatever worlds and turns are.
//!
//! A search knows states and the edges between them. [`may_move`] goes back over the edges, from the states in which a
//! handler has a turn. `specs/Orders` says what it means that a handler never moves.
//!
//! `specs/Movers` says which turns may be played at once, before any turn of others, and that a search which plays them so
//! loses no answer.
#![tactic(auto)]

mod edges;
mod length;

pub use edges::{Edge, may_move};
pub use length::{Length, length_of};
