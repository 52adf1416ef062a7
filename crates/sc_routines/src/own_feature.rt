//! What a name of a class is to its own text.

use sc_rules::entity_types::EntityType;

/// What a name of a class is to its own text, with the type that it gives, if that is known.
#[derive(Clone, Copy)]
pub enum OwnFeature {
    /// No feature.
    Unknown,
    Attribute(Option<EntityType>),
    Routine(Option<EntityType>),
}
