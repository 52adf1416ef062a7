//! The tables of a program: the code of routines, and what classes have.

pub mod attributes;
pub mod class_code;
mod class_text;
pub mod invariant;
pub mod lowering;
mod operators;
pub mod routine_code;
pub mod routines;
pub mod sources;
pub mod versions;
