//! The headline: what holds of each world that turns lead to, from the bytes of a source text on.
#![tactic(auto)]

pub mod laws;
