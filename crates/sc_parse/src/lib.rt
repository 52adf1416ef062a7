//! From tokens to the tree of a system, by recursive descent.
//!
//! [`parse`] returns the one tree that the tokens spell, if none of them is nested deeper than [`MAX_NESTING`], and
//! [`parse_within`] does so for another nesting; a [`ParseFault`] says why there is none, and at which token that
//! shows first.
#![tactic(auto)]

mod assertion;
mod chain;
mod class;
mod cursor;
mod declaration;
mod expression;
mod fault;
mod feature;
mod instruction;
mod laws;
mod list;
mod look;
mod operator;
mod system;
mod types;

pub use fault::ParseFault;
pub use laws::one_placed_tree;
pub use system::{MAX_NESTING, let_go, parse, parse_within};
