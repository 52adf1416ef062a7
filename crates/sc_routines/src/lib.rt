//! The flat code of routines, before names have numbers.
//!
//! [`lower_routine`] makes a [`LoweredRoutine`] of a [`RoutineSource`]: its [`Code`], whose operations have names
//! and texts from the trees, and what it needs. `sc_lower` links the code of all routines to the tables of a
//! program.
#![tactic(auto)]

mod call_code;
mod calls;
mod code;
mod expressions;
mod instructions;
mod known_names;
mod leaves;
mod lowered;
mod olds;
mod operator_code;
mod own_feature;
mod routine;
mod setting;
mod sums;
mod text_sites;
mod unlinked;

pub use calls::known_type;
pub use code::{Code, SitedOperation};
pub use routine::source::RoutineSource;
pub use routine::{LoweredRoutine, lower_routine};
pub use unlinked::{UnlinkedCall, UnlinkedCreation, UnlinkedOperation};
