//! The layout of a source text, with its comments and notes.
//!
//! [`format_text`] writes the text again with the same tokens and the same comments, each line at its depth. What
//! white space comes before a token is in `specs/Layout`.
#![tactic(auto)]

mod format;
mod gap;
mod laws;
mod layout;
mod role;

pub use format::format_text;
pub use laws::one_list_of_elements;
