//! Entries into routines with attached separate formals, and into separate blocks: what they need reserved, which
//! clauses of a precondition are waited for, and when an entry that waits is tried again.
//!
//! `specs/Entries`, `specs/Conditions` and `specs/Reservations` are the definitions.

mod condition;
mod entry;
pub mod laws;
mod mark;
mod session;

pub use condition::{ClauseKind, ClauseResult, EntryVerdict};
pub use entry::Entry;
pub use mark::{Mark, Marked};
pub use session::Release;
