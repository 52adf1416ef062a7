//! Laws of formals and names of separate blocks, each the contract of a function that does nothing.
ghost use Rattle.sc_rules.specs.ScopeLaws.{BlocksDiffer, EntitiesNameKnown, FormalsKnown, TagsNameKnown};

/// Names of separate blocks that are known at one place have different tags.
pub fn blocks_differ()
    ensures { BlocksDiffer }
{}

/// A formal is known all over its routine's text, by its place among the formals.
pub fn formals_are_known()
    ensures { FormalsKnown }
{}

/// In every system the tag of an expression names an attached separate formal, or a name of a separate block that is
/// in scope at the expression.
pub fn tags_name_what_is_known()
    ensures { TagsNameKnown }
{}

/// In every system the tag of an entity names an attached separate formal, or a name of a separate block that is known
/// where the entity is.
pub fn entities_name_what_is_known()
    ensures { EntitiesNameKnown }
{}
