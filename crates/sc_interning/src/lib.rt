//! Values that are kept once, and known by their numbers.
//!
//! A [`Table`] gives each value that is pushed the next number, from 0 on. [`Table::find`] looks for a number by a hash, and
//! asks a [`Probe`] whether it is the one that is looked for: the hash is never the answer.
#![tactic(auto)]

mod index;
mod probe;
mod table;

pub use index::Index;
pub use probe::Probe;
pub use table::Table;
