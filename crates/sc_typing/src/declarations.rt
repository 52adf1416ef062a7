//! What is declared: types, the names that are known, and what can be assigned.

pub mod assignee;
pub mod names;
pub mod types;
