//! What is done with a program, from its opening to the state of a run, and the audit of a run.
//!
//! [`run_program`] runs a program by several workers, and [`replay`] plays a record with it. Their result is a
//! [`RunReport`]. [`audit`] plays the record of what a run left with one thread, and compares the end of that with
//! what was left. `specs/Audits` says what an audit answers.
#![tactic(auto)]

mod auditing;
mod execution;
pub mod laws;
mod lines;
mod playing;
mod running;

pub use auditing::{AuditFault, audit};
pub use execution::{RunReport, empty_replay_leaves_opening, lines_may_be_split, replay};
pub use running::{Ended, run_program};
