//! What the grammar has and this language leaves out.

ghost use Rattle.std.specs.Prelude.{◌≡◌, Any, IfOk, OnOk, Some, map};
ghost use Rattle.std.specs.Bool.{OnTrue};
ghost use Rattle.sc_tree.specs.View.{name_of, feature_of, class_of, mark_of};
ghost use Rattle.sc_class.specs.Internal.Found.{FindsFirstExclusion, FindsOnly, first_placed};
ghost use Rattle.sc_class.specs.Internal.NoFaults.{IsLeftOutIn};
ghost use Rattle.sc_class.specs.Internal.Places.{Gains, Has, Lists};
ghost use Rattle.sc_class.specs.Faults.LeftOut as left_out;
ghost use Rattle.sc_class.specs.Internal.Systems.{in_hierarchy};

use crate::built_in::{is_any, is_none};
use crate::class_tables::hierarchy::Hierarchy;
use crate::fault::LeftOut;
use sc_text::Span;
use sc_tree::{Class, ClassMark, Feature, Name};
use std::alloc::{AllocError, Global};

/// Something that the language leaves out, and its place.
#[derive(Clone, Copy)]
pub struct Exclusion {
    pub what: LeftOut,
    pub span: Span,
}

/// Of two, the first in the text.
fn first_exclusion(one: Option<Exclusion>, other: Option<Exclusion>) -> Option<Exclusion>
    ensures { result ≡ first_placed (λ x. x.span.start) one other }
{
    match (one, other) {
        (None, _) => other,
        (Some(_), None) => one,
        (Some(first), Some(second)) => {
            if second.span.start < first.span.start {
                other
            } else {
                one
            }
        }
    }
}

/// The first thing in the text that the language leaves out.
pub fn left_out(alloc: Global, hierarchy: &Hierarchy) -> Result<Option<Exclusion>, AllocError>
    ensures { IfOk result (FindsFirstExclusion (IsLeftOutIn (in_hierarchy hierarchy.now))) }
{
    let found = exclusions(alloc, hierarchy)?;
    Ok(first_of(&found))
}

/// What the language leaves out in the classes.
pub fn exclusions(alloc: Global, hierarchy: &Hierarchy) -> Result<Vec<Exclusion>, AllocError>
    ensures { IfOk result (λ found. Lists (IsLeftOutIn (in_hierarchy hierarchy.now)) found.items) }
{
    let mut found = Vec::new(alloc);
    find_left_out(hierarchy, &mut found)?;
    Ok(found)
}

/// The first of these in the text.
fn first_of(found: &[Exclusion]) -> Option<Exclusion>
    ensures { FindsFirstExclusion (Has found.now) result }
{
    let mut first = None;
    for exclusion in found {
        first = first_exclusion(first, Some(*exclusion));
    }
    first
}

/// Whether the two are one export list. Features that are declared together have one.
fn is_same_export_list(one: &Exclusion, other: &Exclusion) -> bool
    ensures { OnTrue result (one.now ≡ other.now) }
{
    match (one.what, other.what) {
        (LeftOut::ExportList, LeftOut::ExportList) => one.span == other.span,
        _ => false,
    }
}

/// Whether the export list was found last.
fn is_found_last(found: &[Exclusion], exclusion: &Exclusion) -> bool
    ensures { OnTrue result (Has found.now exclusion.now) }
{
    match found.last() {
        None => false,
        Some(last) => is_same_export_list(last, exclusion),
    }
}

/// Adds what was found, if it is something, and not the export list that was found last.
fn add_if_any(found: &mut Vec<Exclusion>, exclusion: Option<Exclusion>) -> Result<(), AllocError>
    ensures { OnOk result (Gains (λ x. exclusion ≡ Some x) found.old.items found.new.items) }
{
    let Some(exclusion) = exclusion else {
        return Ok(());
    };
    if is_found_last(found, &exclusion) {
        return Ok(());
    }
    found.push(exclusion)?;
    Ok(())
}

/// Finds what the language leaves out in the classes.
fn find_left_out(hierarchy: &Hierarchy, found: &mut Vec<Exclusion>) -> Result<(), AllocError>
    ensures { OnOk result (Gains (IsLeftOutIn (in_hierarchy hierarchy.now)) found.old.items found.new.items) }
{
    let classes = hierarchy.classes();
    for class in classes {
        find_in_class(class, found)?;
    }
    Ok(())
}

/// Finds what is left out of the language in a class.
fn find_in_class(class: &Class, found: &mut Vec<Exclusion>) -> Result<(), AllocError>
    ensures { OnOk result (Gains (left_out.ClassLeftOut (class_of class.now)) found.old.items found.new.items) }
{
    add_if_any(found, marked(class))?;
    add_if_any(found, second_parent(class))?;
    find_export_lists(&class.features, found)
}

/// The class, if it has a mark.
#[tactic(auto, unfolding(sc_tree::specs::View::class_of))]
fn marked(class: &Class) -> Option<Exclusion>
    ensures { FindsOnly (left_out.MarkLeftOut (class_of class.now)) result }
{
    let mark = class.mark.as_ref()?;
    Some(Exclusion {
        what: kind_of_mark(mark),
        span: class.name.span,
    })
}

/// What a mark is left out as.
fn kind_of_mark(mark: &ClassMark) -> LeftOut
    ensures { result ≡ left_out.left_out_mark (mark_of mark.now) }
{
    match mark {
        ClassMark::Deferred(_) => LeftOut::Deferred,
        ClassMark::Expanded(_) => LeftOut::Expanded,
        ClassMark::Frozen(_) => LeftOut::Frozen,
    }
}

/// The second parent of the class.
#[tactic(auto, unfolding(sc_tree::specs::View::class_of))]
fn second_parent(class: &Class) -> Option<Exclusion>
    ensures { FindsOnly (left_out.ParentLeftOut (class_of class.now)) result }
{
    let second = class.parents.get(1)?;
    Some(Exclusion {
        what: LeftOut::MultipleInheritance,
        span: second.name.span,
    })
}

/// Finds the export lists of the features that are left out.
fn find_export_lists(features: &[Feature], found: &mut Vec<Exclusion>) -> Result<(), AllocError>
    ensures { OnOk result (Gains (λ x. Any (λ f. left_out.ExportLeftOut f.exports x) (map feature_of features.now))
        found.old.items found.new.items) }
{
    for feature in features {
        add_if_any(found, exports_left_out(&feature.exports))?;
    }
    Ok(())
}

/// The first name of an export list, if it is left out.
fn exports_left_out(exports: &[Name]) -> Option<Exclusion>
    ensures { FindsOnly (left_out.ExportLeftOut (map name_of exports.now)) result }
{
    if is_plain_export(exports) {
        return None;
    }
    let first = exports.first()?;
    Some(Exclusion {
        what: LeftOut::ExportList,
        span: first.span,
    })
}

/// Whether the list exports to all classes, or to none.
fn is_plain_export(exports: &[Name]) -> bool
    ensures { result ≡ left_out.is_plain_export (map name_of exports.now) }
{
    match exports {
        [] => true,
        [only] => is_any(only.as_str()) || is_none(only.as_str()),
        [_, _, ..] => false,
    }
}
