//! Types of entities and expressions.

ghost use Rattle.std.specs.Prelude.{◌≡◌};
ghost use Rattle.sc_class.specs.Tables.Conformance.{is_expanded};
ghost use Rattle.sc_rules.specs.entity_types.Conformance.{void, integer, boolean, mark_conforms};

use crate::entity_types::tag::Tag;
use sc_class::ClassId;

/// The type of an entity or of an expression.
#[derive(Clone, Copy, PartialEq, Eq)]
pub struct EntityType {
    /// Whether a value is never Void.
    pub attached: bool,
    /// On which handler its object lies.
    pub tag: Tag,
    /// The class of its objects.
    pub class: ClassId,
}

impl EntityType {
    /// The type of Void.
    pub fn void() -> EntityType
        ensures { result ≡ void }
    {
        EntityType {
            attached: false,
            tag: Tag::None,
            class: ClassId::None,
        }
    }

    /// The type of integers.
    pub fn integer() -> EntityType
        ensures { result ≡ integer }
    {
        EntityType {
            attached: true,
            tag: Tag::Own,
            class: ClassId::Integer,
        }
    }

    /// The type of truth values.
    pub fn boolean() -> EntityType
        ensures { result ≡ boolean }
    {
        EntityType {
            attached: true,
            tag: Tag::Own,
            class: ClassId::Boolean,
        }
    }

    /// Whether the values are no references: those of INTEGER and BOOLEAN.
    pub fn is_expanded(self) -> bool
        ensures { result ≡ is_expanded self.class }
    {
        self.class.is_expanded()
    }

    /// Whether this type's mark conforms to another's: an attached one does to both, a detachable one to a
    /// detachable one.
    pub fn mark_conforms_to(self, other: EntityType) -> bool
        ensures { result ≡ mark_conforms self.attached other.attached }
    {
        self.attached || !other.attached
    }
}
