//! The core beside the machine: in each state that is reached, its settlements are its half of the machine's steps.

pub mod laws;
