//! The names of formals, locals, object tests and blocks that clash with another one of their scope.

mod expressions;
mod features;
mod instructions;
mod later;
mod names;
mod routine;

pub use expressions::in_clauses;
pub use features::{Features, Part};
pub use later::insert_if_later;
pub use names::declare_features;
pub use routine::in_feature;
