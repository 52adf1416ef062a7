//! The world that runs refines the machine on trees: each world that turns lead to represents the state of the
//! machine that these turns lead to.
#![tactic(auto)]

pub mod laws;
pub mod once;
pub mod regions;
