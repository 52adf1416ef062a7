//! The explanation of one refusal beside its line: a sentence on this very fault with the part of the text at fault,
//! what helps, and the place that belongs to it. See [`diagnose`], and [`diagnose_all`] for many refusals of one text.
//!
//! If the classes of a system are at fault, that is the other declaration of a name (`declared`), a class that was
//! meant and what is written in place of what is left out (`class_helps`), a `redefine` that is missing and what a
//! redefinition lacks (`redefinition`), and which root fits (`root`).
//!
//! If a help says what to write and where, the diagnosis has it as an [`Edit`] (`edits`).
//!
//! The sentences are for people: nothing of the answer, which is the refusal's line, depends on them.
#![tactic(auto)]

mod class_heads;
mod class_helps;
mod declared;
mod declaring;
mod diagnosis;
mod edits;
mod enclosing;
mod fresh;
mod helps;
mod impurity;
mod near;
mod redefinition;
mod root;
mod sentences;
mod site;
mod spellings;
mod telling;
mod told;
mod types;
mod walk;
mod words;

pub use diagnosis::{Diagnosis, diagnose, diagnose_all};
pub use edits::Edit;
pub use sc_explain_text::Related;
