//! Symbols, and the places at which they are written.

use sc_rules::Role;
use sc_rules::entity_types::EntityType;
use sc_text::Span;

/// What a name means.
#[derive(Clone, Copy)]
pub enum Symbol {
    /// The class at this number of the text, from 0.
    Class(usize),
    /// The feature at this number of the class at that number: the version that the class of the target has.
    Feature(usize, usize),
    /// A formal, a local, or a name of an object test or of a separate block, with its type if it has one.
    Entity(Role, Option<EntityType>),
}

/// A name in a text, and what it means there.
#[derive(Clone, Copy)]
pub struct Mention {
    /// The place of the name.
    pub span: Span,
    pub symbol: Symbol,
    /// The place of the name in the declaration of the symbol.
    pub declaration: Span,
    /// The place of the name in the declaration that all versions of a feature have in common. It is that of the topmost
    /// ancestor that declares the feature. Of other symbols it is the declaration.
    pub origin: Span,
}
