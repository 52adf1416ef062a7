//! The search of all orders in which the handlers of a program may make their turns.
//!
//! [`search`] looks for an order that leaves handlers stuck, or in which one fails or refuses a request. `specs/Found` says what
//! a found order is, and `specs/Closed` why there is none where every order was played.
#![tactic(auto)]

mod aims;
mod choices;
mod closing;
mod ends;
mod following;
mod joining;
mod judging;
mod limits;
mod lines;
mod memory;
mod movers;
mod progress;
mod replay;
mod searching;
mod store;
mod verdict;
mod waiting;
mod watch;

pub use aims::Aim;
pub use limits::Limits;
pub use searching::search;
pub use verdict::{End, Finding, GivenUp, Length, Order, Pass, Reason, Verdict};
pub use watch::{Stage, Watch};
