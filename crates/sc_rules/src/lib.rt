//! The rules of the language: which type an expression has, which functions are pure, and which rule fails where in
//! a system of classes.
//!
//! `specs/Typing` gives each expression its type, `specs/Sites` has the parts of a text and which names are in scope
//! in each, `specs/Purity` which functions contracts may call, and `specs/TextRules` and `specs/SystemRules` have
//! the premises of the rules, one constructor each, up to `WellFormed`. `specs/Judging` and its like say which fault
//! is answered if several rules fail. [`RefusalCode`] has all reasons for which a text is refused, also those that
//! are no rule.
//!
//! The types themselves, which of them conform to which, and what a caller sees of them are in [`entity_types`].
//!
//! What follows is in [`laws`] (types and declarations), [`scope_laws`] (names and tags), [`purity_laws`],
//! [`system_laws`] (calls and assignments), [`instruction_laws`], [`text_laws`] (contracts, conditions and separate
//! blocks) and [`heir_laws`].
#![tactic(auto)]

pub mod entity_types;
mod fault;
pub mod heir_laws;
pub mod instruction_laws;
pub mod laws;
mod position;
pub mod purity_laws;
mod refusal_code;
mod rule;
pub mod scope_laws;
pub mod system_laws;
pub mod text_laws;

pub use fault::Fault;
pub use position::{Context, Position, Role, Use};
pub use refusal_code::RefusalCode;
pub use rule::Rule;
