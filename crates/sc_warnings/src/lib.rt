//! Warnings of a system: what is allowed in its text, and is hardly meant.
//!
//! [`warnings_of`] lists them in the order of the text. `specs/Warnings` says what is warned of.
#![tactic(auto)]

mod conditions;
mod instructions;
mod laws;
mod listing;
mod routines;
mod sites;
mod waiting;
mod warning;

pub use laws::unread_locals_are_listed;
pub use listing::warnings_of;
pub use warning::{Warning, WarningKind};
