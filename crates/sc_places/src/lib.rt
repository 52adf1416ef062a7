//! The places of a source text, looked up in the table of its lines.
//!
//! [`sc_source::source::Source::place_of`] walks to the place of a byte. Who asks for many places makes [`Places`] of the
//! text first, in one walk, and each is found by a binary search then.
#![tactic(auto)]

mod lines;
mod places;

pub use places::Places;
