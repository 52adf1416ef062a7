//! Which handler holds which, and how these rights are passed with a request and return with its answer.
//!
//! `specs/Rights` and `specs/Passing` are the definitions, on maps from handlers to their holders. `specs/Posting`
//! says where a request goes.
//!
//! What an entry needs reserved, and when one that waits is tried again, is in [`wait_conditions`].
#![tactic(auto)]

mod handler_number;
mod handler_set;
mod holders;
pub mod laws;
mod passed;
mod posting;
mod rights;
mod same;
mod version;
pub mod wait_conditions;

pub use handler_number::HandlerNumber;
pub use passed::Passed;
pub use posting::post;
pub use rights::Rights;
pub use version::Version;
