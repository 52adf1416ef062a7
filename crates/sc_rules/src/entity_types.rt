//! The types of entities and expressions: whether a value may be Void, the handler of its object, and its class; and
//! which type conforms to which.
//!
//! `specs/Conformance` is the definition, `specs/Handlers` says what a tag means, and [`laws`] has what follows.
//!
//! And what a caller sees of the types of the called routine: the type of the result, and the type that each actual
//! must conform to. `specs/Combiners` is the definition of both, and [`call_laws`] has what follows.

pub mod call_laws;
mod combiner;
mod conformance;
mod entity_type;
mod known;
pub mod laws;
mod tag;

pub use combiner::{combine_argument, combine_result};
pub use conformance::conforms;
pub use entity_type::EntityType;
pub use known::Known;
pub use tag::{Reserved, Tag};
