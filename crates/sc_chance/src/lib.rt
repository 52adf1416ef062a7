//! Runs in which chance says who is next.
//!
//! [`play_until`] plays runs by one seed after the other, until one shows what is looked for. Each turn is that of a handler
//! picked at random among those that have one. `specs/Found` says what comes of runs.
#![tactic(auto)]

mod judging;
mod outcomes;
mod picking;
mod playing;
mod running;
mod stage;

pub use judging::Sought;
pub use outcomes::{Outcome, Outcomes};
pub use playing::ChanceRun;
pub use running::{Found, Seeds, play_until};
