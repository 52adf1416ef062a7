//! The tree of a system of classes: what a source text means, with the place of each part.
#![tactic(auto)]

mod declaration;
mod expression;
mod instruction;
mod laws;
mod print;
mod system;

pub use declaration::{Declaration, DeclaredType, HandlerTag};
pub use expression::{BinaryOperator, Call, Expr, Name, UnaryOperator};
pub use instruction::{Branch, Clause, CreationCall, Head, Instr, Variable};
pub use laws::{each_token_has_depth, nesting_is_depth, one_nesting, one_tree};
pub use print::{
    canonical_text_spells, canonical_text_stays, canonical_tokens_spell, print_system,
};
pub use system::{Class, ClassMark, Feature, FeatureKind, Parent, Routine, System};
