//! Visible operations: what makes a turn.
//!
//! An [`Act`] is executed on the topmost routine of a store, and returns what its turn wants of the core. At the end
//! of a separate block ([`leave`]) what it newly reserved is released, and its routine goes on. The end of a routine
//! ([`exit`]) and a call on an object of another handler ([`request`]) can be executed without an [`Act`], if they
//! are known to come next.
#![tactic(auto)]

mod act;
mod acting;
mod beginning;
mod blocks;
mod caller;
mod creating;
mod creating_handlers;
mod entering;
mod exiting;
mod going_on;
mod leaving;
mod operands;
mod printing;
mod refusing;
mod requesting;
mod stages;
mod steps;
mod versions;

pub use act::{Act, Calling, RemoteCall, RemoteCreation};
pub use acting::act_on;
pub use beginning::ask_beginning;
pub use exiting::{copy_handlers, exit, hand_over, hand_to, is_unset, meets};
pub use going_on::{go_past, misfit};
pub use leaving::leave;
pub use requesting::request;
pub use steps::{end_round_on, unless_failed};
pub use versions::{routine_of, version_in};
