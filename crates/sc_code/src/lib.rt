//! Flat code: what a checked system is run from.
//!
//! A [`Program`] has a list of [`Operation`]s for each routine, and tables that the operations name by number. Nothing
//! of it refers to the trees. An operation pops its operands and pushes what it gives; a jump passes operations ahead, and
//! only the end of a loop goes back.
//!
//! `specs/Emitted` says what code a routine has, `specs/Machine` what an operation does, `specs/Programs` what the tables
//! of a system are, and [`laws`] that the code of each routine follows the model.
#![tactic(auto)]

pub mod laws;
mod numbers;
mod operation;
mod program;
mod site;
mod superinstruction;
mod text_site;

pub use numbers::{ClassNumber, NameNumber};
pub use operation::{DefaultValue, Operation};
pub use program::lookup::Program;
pub use program::{
    AttributeCode, ClassCode, ClassText, ClauseText, ConstantPool, FeatureCode, Image, RoutineCode,
    RoutineText,
};
pub use site::{CallSite, CreationSite, Heads, ObjectTest, Residence, TestedType};
pub use superinstruction::{
    IntegerPair, Load, Source, Superinstruction, Target, superinstructions_of,
};
pub use text_site::{Assertion, NameSpan, SiteKind, TextSite};
