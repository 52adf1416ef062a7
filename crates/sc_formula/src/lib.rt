//! Class invariants as formulas over the attributes of one object, and the arithmetic of INTEGER
//! that they share with routines.
//!
//! A class invariant is a list of [`Formula`]s. An object meets it where each of them is true of the object's
//! [`Atom`]s: one for each attribute, by number.
#![tactic(auto)]

pub mod arithmetic;
mod atom;
mod comparison;
mod connective;
mod formula;
pub mod laws;
mod term;

pub use arithmetic::{ArithmeticFault, ArithmeticOperator};
pub use atom::{Atom, AtomKind};
pub use comparison::Comparison;
pub use connective::Connective;
pub use formula::{Formula, eval, meets};
pub use term::Term;
