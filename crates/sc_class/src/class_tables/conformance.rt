//! Conformance of classes, and of types as they are declared.

ghost use Rattle.std.specs.Prelude.{◌≡◌};
ghost use Rattle.sc_tree.specs.View.{handler_tag_of, type_of};
ghost use Rattle.sc_class.specs.ClassNames as class_names;
ghost use Rattle.sc_class.specs.Tables.Conformance as conformance;
ghost use Rattle.sc_class.specs.Internal.Systems.{in_hierarchy};

use crate::built_in::{is_any, is_none};
use crate::class_tables::hierarchy::Hierarchy;
use crate::identity::ClassId;
use crate::names::is_same_text;
use sc_tree::{DeclaredType, HandlerTag};

/// The class with this name. It looks once by hash.
pub fn class_named(hierarchy: &Hierarchy, name: &str) -> Option<ClassId>
    ensures { result ≡ class_names.class_named (in_hierarchy hierarchy.now) name.now }
{
    if is_any(name) {
        return Some(ClassId::Any);
    }
    if is_none(name) {
        return Some(ClassId::None);
    }
    if name == "integer" {
        return Some(ClassId::Integer);
    }
    if name == "boolean" {
        return Some(ClassId::Boolean);
    }
    match hierarchy.names.number(name) {
        None => None,
        Some(number) => Some(ClassId::Declared(number)),
    }
}

/// Whether the second class is an ancestor of the first. It goes up the ancestors.
pub fn is_ancestor(hierarchy: &Hierarchy, class: usize, ancestor: usize) -> bool
    ensures { result ≡ conformance.is_ancestor (in_hierarchy hierarchy.now) class ancestor }
{
    let count = hierarchy.classes().len();
    let mut next = Some(class);
    for _done in 0..count {
        let Some(above) = next else {
            return false;
        };
        if above == ancestor {
            return true;
        }
        next = hierarchy.parent(above);
    }
    false
}

/// Whether the first class conforms to the second. It goes up the first one's ancestors.
pub fn class_conforms(hierarchy: &Hierarchy, class: ClassId, other: ClassId) -> bool
    ensures { result ≡ conformance.class_conforms (in_hierarchy hierarchy.now) class other }
{
    match class {
        ClassId::Declared(number) => match other {
            ClassId::Declared(ancestor) => is_ancestor(hierarchy, number, ancestor),
            ClassId::Any => true,
            ClassId::None | ClassId::Integer | ClassId::Boolean => false,
        },
        ClassId::Any => matches!(&other, ClassId::Any),
        ClassId::None => !other.is_expanded(),
        ClassId::Integer => matches!(&other, ClassId::Integer),
        ClassId::Boolean => matches!(&other, ClassId::Boolean),
    }
}

/// The class of a type that is declared with this name. It looks once by hash.
pub fn type_class(hierarchy: &Hierarchy, name: &str) -> Option<ClassId>
    ensures { result ≡ conformance.type_class (in_hierarchy hierarchy.now) name.now }
{
    if is_none(name) {
        None
    } else {
        class_named(hierarchy, name)
    }
}

/// Whether two tags are equal.
fn is_same_tag(one: &HandlerTag, other: &HandlerTag) -> bool
    ensures { result ≡ conformance.is_same_tag (handler_tag_of one.now) (handler_tag_of other.now) }
{
    match one {
        HandlerTag::Own => matches!(other, HandlerTag::Own),
        HandlerTag::Separate => matches!(other, HandlerTag::Separate),
        HandlerTag::HandlerOf(name) => match other {
            HandlerTag::HandlerOf(other) => is_same_text(name.as_str(), other.as_str()),
            HandlerTag::Own | HandlerTag::Separate => false,
        },
    }
}

/// Whether the first tag conforms to the second: to `separate`, or to an equal one.
fn tag_conforms(one: &HandlerTag, other: &HandlerTag) -> bool
    ensures { result ≡ conformance.tag_conforms (handler_tag_of one.now) (handler_tag_of other.now) }
{
    match other {
        HandlerTag::Separate => true,
        HandlerTag::Own | HandlerTag::HandlerOf(_) => is_same_tag(one, other),
    }
}

/// Whether two types are equal.
pub fn is_same_type(one: &DeclaredType, other: &DeclaredType) -> bool
    ensures { result ≡ conformance.is_same_type (type_of one.now) (type_of other.now) }
{
    is_same_text(one.class.as_str(), other.class.as_str())
        && one.is_detachable == other.is_detachable
        && is_same_tag(&one.tag, &other.tag)
}

/// Whether the first class conforms to the second, where both are known.
fn known_conforms(hierarchy: &Hierarchy, one: Option<ClassId>, other: Option<ClassId>) -> bool
    ensures { result ≡ conformance.known_conforms (in_hierarchy hierarchy.now) one other }
{
    match one {
        None => false,
        Some(class) => match other {
            None => false,
            Some(other) => class_conforms(hierarchy, class, other),
        },
    }
}

/// Whether the first type conforms to the second.
pub fn type_conforms(hierarchy: &Hierarchy, one: &DeclaredType, other: &DeclaredType) -> bool
    ensures { result ≡ conformance.type_conforms (in_hierarchy hierarchy.now) (type_of one.now) (type_of other.now) }
{
    is_same_type(one, other)
        || (known_conforms(
            hierarchy,
            type_class(hierarchy, one.class.as_str()),
            type_class(hierarchy, other.class.as_str()),
        ) && (!one.is_detachable || other.is_detachable)
            && tag_conforms(&one.tag, &other.tag))
}
