//! The names of classes and of parents that are refused.

ghost use Rattle.std.specs.Prelude.{◌≡◌, ◌||◌, [], Some, None, Any, IfOk, OnOk, map, nat_eq, not, if◌then◌else◌};
ghost use Rattle.std.specs.Option.{option_eq};
ghost use Rattle.sc_tree.specs.View.{name_of, parent_of};
ghost use Rattle.sc_class.specs.ClassNames.{is_built_in, RepeatedAt};
ghost use Rattle.sc_class.specs.Names.{number_among};
ghost use Rattle.sc_class.specs.Tables.Ancestors.{UnknownParentAt};
ghost use Rattle.sc_class.specs.Internal.Found.{FindsFirstPlace, FindsOnly};
ghost use Rattle.sc_class.specs.Internal.NoFaults.{IsUnknownIn};
ghost use Rattle.sc_class.specs.Internal.Places.{Gains, Lists};
ghost use Rattle.sc_class.specs.Internal.Systems.{in_hierarchy};

use crate::built_in::{is_any, is_built_in};
use crate::class_tables::hierarchy::Hierarchy;
use crate::faults::places::Places;
use sc_text::Span;
use sc_tree::{Name, Parent};
use std::alloc::{AllocError, Global};

/// The first class in the text that has the name of one before it, or that of a class that every system has.
pub fn repeated_class(alloc: Global, hierarchy: &Hierarchy) -> Result<Option<Span>, AllocError>
    ensures { IfOk result (FindsFirstPlace (RepeatedAt [] (in_hierarchy hierarchy.now).classes)) }
{
    let repeated = repeated_classes(alloc, hierarchy)?;
    Ok(repeated.first())
}

/// The classes that have the name of one before them, or that of a class that every system has.
pub fn repeated_classes(alloc: Global, hierarchy: &Hierarchy) -> Result<Places, AllocError>
    ensures { IfOk result (Lists (RepeatedAt [] (in_hierarchy hierarchy.now).classes)) }
{
    let mut found = Places::new(alloc);
    find_repeated(hierarchy, &mut found)?;
    Ok(found)
}

/// Finds the classes that have the name of one before them, or that of a class that every system has.
fn find_repeated(hierarchy: &Hierarchy, found: &mut Places) -> Result<(), AllocError>
    ensures { OnOk result (Gains (RepeatedAt [] (in_hierarchy hierarchy.now).classes) found.old found.new) }
{
    let classes = hierarchy.classes();
    for (i, class) in classes.iter().enumerate() {
        found.insert_if_any(taken_name(hierarchy, i, &class.name))?;
    }
    Ok(())
}

/// The place of the class's name, if the class can't have that name.
fn taken_name(hierarchy: &Hierarchy, number: usize, name: &Name) -> Option<Span>
    ensures { let n = name_of name.now in let number_of_name = number_among n.text hierarchy.now.names in
        result ≡ (if is_built_in n.text || not (option_eq nat_eq number_of_name (Some number))
        then Some n.span else None) }
{
    let text = name.as_str();
    if is_built_in(text) || hierarchy.names.number(text) != Some(number) {
        Some(name.span)
    } else {
        None
    }
}

/// The first parent in the text that is no class.
pub fn unknown_parent(alloc: Global, hierarchy: &Hierarchy) -> Result<Option<Span>, AllocError>
    ensures { IfOk result (FindsFirstPlace (IsUnknownIn (in_hierarchy hierarchy.now))) }
{
    let unknown = unknown_parents(alloc, hierarchy)?;
    Ok(unknown.first())
}

/// The parents that are no class.
pub fn unknown_parents(alloc: Global, hierarchy: &Hierarchy) -> Result<Places, AllocError>
    ensures { IfOk result (Lists (IsUnknownIn (in_hierarchy hierarchy.now))) }
{
    let mut found = Places::new(alloc);
    find_unknown(hierarchy, &mut found)?;
    Ok(found)
}

/// Finds the parents that are no class.
fn find_unknown(hierarchy: &Hierarchy, found: &mut Places) -> Result<(), AllocError>
    ensures { OnOk result (Gains (IsUnknownIn (in_hierarchy hierarchy.now)) found.old found.new) }
{
    let classes = hierarchy.classes();
    for class in classes {
        find_unknown_among(hierarchy, &class.parents, found)?;
    }
    Ok(())
}

/// Finds those of these parents that are no class.
fn find_unknown_among(
    hierarchy: &Hierarchy,
    parents: &[Parent],
    found: &mut Places,
) -> Result<(), AllocError>
    ensures { OnOk result (Gains (λ p. Any (λ q. UnknownParentAt (in_hierarchy hierarchy.now) q p)
        (map parent_of parents.now)) found.old found.new) }
{
    for parent in parents {
        found.insert_if_any(unknown(hierarchy, parent))?;
    }
    Ok(())
}

/// The place of the parent's name, if it is no class.
fn unknown(hierarchy: &Hierarchy, parent: &Parent) -> Option<Span>
    ensures { FindsOnly (UnknownParentAt (in_hierarchy hierarchy.now) (parent_of parent.now)) result }
{
    let name = &parent.name;
    if is_any(name.as_str()) {
        return None;
    }
    match hierarchy.number(name.as_str()) {
        None => Some(name.span),
        Some(_) => None,
    }
}
