//! The names of a text: what each means, and where that is declared.
//!
//! [`names_in`] lists them. [`symbol_at`] finds the one at an offset, and [`uses_of`] all places of its symbol.
//! [`rename`] says whether the symbol may have another name.
//! `specs/Mentions` says what a name means, by the definitions of the checker.
#![tactic(auto)]

mod classes;
mod expressions;
mod instructions;
mod meanings;
mod names;
mod reading;
mod renaming;
mod scope;
mod symbol;
mod uses;

pub use reading::names_in;
pub use renaming::{RenameFault, rename};
pub use symbol::{Mention, Symbol};
pub use uses::{symbol_at, uses_of};
