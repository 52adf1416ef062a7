//! What is at fault in the classes of a system.

pub mod class_clashes;
pub mod cycles;
pub mod features;
pub mod left_out;
pub mod limits;
pub mod parents;
pub mod places;
mod ranks;
pub mod redefinition;
pub mod root_procedure;
mod routine_limits;
pub mod scopes;
