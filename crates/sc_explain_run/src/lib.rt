//! The explanation of a run beside its report, for which its turns are made once more as its record goes on.
//! [`run_note`] says what each failure is, its place and the request that its handler ran, and why the others wait
//! or are busy: for which handler, for which condition, and which requests no handler takes. [`Tracer`] describes
//! turn by turn what is printed, and what a handler sends to others, reserves, waits for, refuses or fails by.
//!
//! The sentences are for people: nothing of the answer, which is the report, depends on them.
#![tactic(auto)]

mod before;
mod breakdown;
mod chains;
mod chronicle;
mod clause;
mod evaluation;
mod failure;
mod handler_line;
mod held;
mod history;
mod limit;
mod listing;
mod made_turn;
mod moments;
mod naming;
mod operators;
mod places;
mod printed;
mod replay;
mod scene;
mod steps;
mod supplier;
mod tallying;
mod telling;
mod tracer;
mod values;
mod waiting;
mod waits;
mod words;

pub use chronicle::history_of;
pub use failure::{Played, order_note, run_note};
pub use limit::Limit;
pub use tallying::tally_of;
pub use tracer::{Told, Tracer};
