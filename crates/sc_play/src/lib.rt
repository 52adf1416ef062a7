//! Turns of one handler.
//!
//! A [`Region`] is the store of a handler, with its number. It plays the turns of a [`Job`](sc_region::Job).
#![tactic(auto)]

mod hashing;
mod jobs;
pub mod laws;
mod region;
mod turn;

pub use region::Region;
