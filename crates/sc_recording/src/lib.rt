//! The core of a run with the record of its settlements, as it is kept under a lock.
//!
//! A [`RecordedCore`] settles what is due and nothing else, and notes each settlement as a line of the record: its
//! type keeps that the settlements lead from the opening of the program to the core's state, and that the lines are
//! these settlements. This crate also decides whether a run is over, whether the logs of the regions are those of
//! the settlements, and at which handler one thread's world differs from what is left.
#![tactic(auto)]

mod bare;
mod compare;
mod due;
mod ending;
mod of_program;
mod recorded_core;
mod same;

pub use bare::bare_regions;
pub use compare::first_difference;
pub use due::{Undue, is_granting, settle_out};
pub use ending::{MOST_LINES, Stop, has_ended, is_idle_or_full, turns_in, turns_left};
pub use of_program::OfProgram;
pub use recorded_core::RecordedCore;
pub use same::first_that_differs;
