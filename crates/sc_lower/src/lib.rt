//! Lowering: the flat code of a checked system.
//!
//! [`lower`] makes a [`Program`](sc_code::Program) of a checked system, or hands the system back with a [`Lowering`].
//!
//! `sc_routines` makes a routine's code with the names that it uses. Here it is linked to the tables of the program, which
//! give them numbers.
#![tactic(auto)]

mod image;
mod link;
mod link_names;
mod link_pools;
mod link_sites;
mod link_tables;
mod program;
mod refusal;
mod sums;

pub use program::lowering::{Lowering, lower, lower_within};
