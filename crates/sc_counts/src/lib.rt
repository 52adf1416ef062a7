//! States that are compared without their counts of sessions.
#![tactic(auto)]

pub mod laws;
