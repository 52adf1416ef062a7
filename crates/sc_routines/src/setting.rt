//! Where code is emitted.

use sc_rules::entity_types::EntityType;
use sc_typing::RoutineContext;

/// Where a piece of code is emitted.
#[derive(Drop)]
pub struct Setting<'t, 's> {
    /// The text that it is emitted from.
    pub context: RoutineContext<'t, 's>,
    /// The type of the routine's Result, if it has one.
    pub result: Option<EntityType>,
    /// The types of the `old`s that are kept.
    pub olds: Vec<EntityType>,
}
