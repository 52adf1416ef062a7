//! The classes of a system, after ECMA-367: by name and by number, with their parents, ancestors, features and
//! invariants; and what is refused of them.
//!
//! [`tables`] returns the [`Tables`] of a system that has no fault with a [`Root`], or one of its faults, a
//! [`ClassFault`]; [`class_faults`] lists all of them. A class is known by its [`ClassId`], and a feature by a
//! [`FeatureEntry`], which names the class that declares it.
//!
//! `specs/Faults` says what each fault is, `specs/Tables` and `specs/ClassNames` what the calls of `Tables` return,
//! and [`heir_laws`] what follows.
#![tactic(auto)]

mod built_in;
mod checking;
mod class_tables;
mod fault;
mod faults;
pub mod heir_laws;
mod identity;
mod listing;
mod names;
mod root;

pub use checking::tables;
pub use class_tables::Tables;
pub use class_tables::feature_entry::FeatureEntry;
pub use fault::{ClassFault, LeftOut};
pub use identity::ClassId;
pub use listing::class_faults;
pub use root::Root;
