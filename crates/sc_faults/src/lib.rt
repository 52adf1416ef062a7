//! All faults of a system of classes at once: a fault at each place at which a rule fails.
//!
//! [`all_faults`] returns them. `specs/FaultLists` says what the list says. `sc_typing` and `sc_check` judge the parts of
//! the text.
#![tactic(auto)]

mod calls;
mod classes;
mod conditions;
mod expressions;
mod features;
mod formulas;
mod found;
mod instructions;
mod passing;
mod scopes;
mod types;

pub use classes::all_faults;
