//! What is known of expressions after lowering them.

use sc_rules::entity_types::EntityType;

/// What is known of an expression after lowering it.
#[derive(Clone, Copy)]
pub struct Lowered {
    /// The type of its value, if that is known.
    pub value: Option<EntityType>,
    /// How many operands it needs at most.
    pub depth: usize,
    /// How many `old`s come before what follows it.
    pub olds: usize,
    /// How many slots there have to be for the names of its object tests.
    pub slots: usize,
}

/// What is known of actuals after lowering them.
#[derive(Drop)]
pub struct LoweredActuals {
    /// The types of those whose type is known.
    pub types: Vec<EntityType>,
    /// How many operands they need at most.
    pub depth: usize,
    /// How many `old`s come before what follows them.
    pub olds: usize,
}
