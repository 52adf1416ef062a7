//! Laws of conformance, each the contract of a function that does nothing.

ghost use Rattle.sc_rules.specs.entity_types.Laws.{AttachedOwn, ExpandedAlone, Reflexive, TagsAreHandlers, Transitive, VoidFits};

/// Each type conforms to itself.
pub fn conformance_is_reflexive()
    ensures { Reflexive }
{}

/// What conforms to a type conforms to all that this type conforms to.
pub fn conformance_is_transitive()
    ensures { Transitive }
{}

/// INTEGER and BOOLEAN conform to themselves alone, and nothing else conforms to them.
pub fn expanded_conform_alone()
    ensures { ExpandedAlone }
{}

/// What conforms to an attached type of the current handler is attached, and of the current handler or Void's tag.
pub fn attached_own_is_own()
    ensures { AttachedOwn }
{}

/// Void conforms to the detachable types of references alone.
pub fn void_is_detachable()
    ensures { VoidFits }
{}

/// A tag conforms to another exactly if every handler that it names is the other's.
pub fn tags_are_handlers()
    ensures { TagsAreHandlers }
{}
