//! What flat code does to the store of a handler.
//!
//! An operation is executed in place, on the routine that has reached it. A silent one is executed; a visible one is
//! returned as an [`Act`](sc_acts::Act). The end of the routine, or a call on an object of another handler, is
//! recognised at once if it comes next ([`next_coming`]).
#![tactic(auto)]

mod attributes;
mod blocks;
mod calling;
mod dispatch;
mod evaluation;
mod features;
mod hopping;
mod hops;
pub mod laws;
mod passing;
mod reading;
mod running;
mod silent;
mod testing;
mod visible;

pub use features::{FoundFeature, call_feature};
pub use hopping::moves;
pub use hops::Hop;
pub use running::{Coming, next_coming, run_current};
