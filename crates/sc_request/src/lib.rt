//! The core: what moves requests and rights between handlers.
//!
//! A handler's next job is picked, its turns are played elsewhere, and their result is settled. What is kept of one
//! handler, and which job it has by that, is in `sc_handler`. `specs/Settling` says what a settlement does, and
//! `specs/Halves` which state of the machine a state of the core is the half of.
#![tactic(auto)]

mod begun;
mod center;
mod crowds;
mod ending;
mod failing;
mod fits;
mod grants;
mod handler_set;
mod hashing;
mod jobs;
mod kept_core;
pub mod laws;
mod loading;
mod making;
mod parts;
mod picking;
mod places;
mod rooms;
mod same;
mod sending;
mod sessions;
mod settle;
mod settlement;
mod state;
mod steps;
mod touching;
mod waiting;

pub use center::Core;
pub use kept_core::KeptCore;
pub use parts::Part;
pub use settlement::SettleFault;
pub use touching::past_target;
