//! The states of a search as tuples of numbers, and the turns that led to each.
//!
//! [`States`] has each tuple once, by number. A state names the state before it and the turns between them, so that
//! [`States::order`] returns all turns from the opening on. [`Rows`] are lists of any values by number, in one memory.
#![tactic(auto)]

mod hashing;
mod rows;
mod states;

pub use rows::Rows;
pub use states::States;
