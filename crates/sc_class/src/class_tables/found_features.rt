//! The features of each class, which are found from parents to heirs. This takes time in proportion to what classes declare,
//! redefine and inherit.

ghost use Rattle.std.specs.Prelude.{◌≡◌, ◌++◌, IfOk, OnOk, map};
ghost use Rattle.sc_class.specs.Tables.Features as class_features;
ghost use Rattle.sc_class.specs.View.{entry_of};
ghost use Rattle.sc_class.specs.Internal.FoundFeatures.{AreAbove, AreFound, AreItsIfAny, Keeps};
ghost use Rattle.sc_class.specs.Internal.Systems.{in_outline};

use crate::class_tables::ancestry::features_of;
use crate::class_tables::feature_entry::FeatureEntry;
use crate::class_tables::order::down_from_parents;
use crate::class_tables::outline::Outline;
use crate::names::NameIndex;
use std::alloc::{AllocError, Global};

/// How many features a class may have for those of its heirs to be found from them. A class that has more passes a limit, so
/// that nothing is looked for in its heirs.
const MOST_INHERITED: usize = 256;

/// The features of a class, and how many ancestors it has, itself among them.
#[derive(Drop)]
pub struct ClassFeatures<'s> {
    depth: usize,
    entries: Vec<FeatureEntry<'s>>,
}

/// Adds those of the features that the class at a number doesn't redefine.
fn add_inherited<'s>(
    outline: &Outline<'s>,
    features: &mut Vec<FeatureEntry<'s>>,
    number: usize,
    above: &[FeatureEntry<'s>],
) -> Result<(), AllocError>
    ensures { let redefined = class_features.redefined_names (in_outline outline.now) number in
        OnOk result (map entry_of features.new.items ≡ map entry_of features.old.items
        ++ class_features.not_redefined redefined (map entry_of above.now)) }
{
    for entry in above {
        if !outline.redefines(number, entry.feature.name.as_str()) {
            features.push(*entry)?;
        }
    }
    Ok(())
}

/// The features of the class at a number, if its parent has these: its own, then those that it doesn't redefine.
fn features_below<'s>(
    alloc: Global,
    outline: &Outline<'s>,
    number: usize,
    above: &[FeatureEntry<'s>],
) -> Result<Vec<FeatureEntry<'s>>, AllocError>
    ensures { let s = in_outline outline.now in
        IfOk result (λ features. map entry_of features.items ≡ class_features.declared_features s number
        ++ class_features.not_redefined (class_features.redefined_names s number) (map entry_of above.now)) }
{
    let mut features = Vec::new(alloc);
    let redefined = NameIndex::new(alloc);
    outline.add_declared(&mut features, &redefined, number)?;
    add_inherited(outline, &mut features, number, above)?;
    Ok(features)
}

/// The features of the class at a number, if its parent has these, and so many ancestors: none where there are more
/// ancestors than classes, or too many features.
fn features_under<'s>(
    alloc: Global,
    outline: &Outline<'s>,
    number: usize,
    depth: usize,
    above: &[FeatureEntry<'s>],
) -> Result<Option<ClassFeatures<'s>>, AllocError>
    requires { AreAbove (in_outline outline.now) number depth (map entry_of above.now) }
    ensures { IfOk result (AreItsIfAny (in_outline outline.now) number) }
{
    if depth >= outline.hierarchy.classes().len() || above.len() > MOST_INHERITED {
        return Ok(None);
    }
    let entries = features_below(alloc, outline, number, above)?;
    Ok(Some(ClassFeatures {
        depth: depth + 1,
        entries,
    }))
}

/// The features of the class at a number, where those of its parent are found, or it has no parent.
fn features_if_any<'s>(
    alloc: Global,
    outline: &Outline<'s>,
    found: &[Option<ClassFeatures<'s>>],
    number: usize,
) -> Result<Option<ClassFeatures<'s>>, AllocError>
    requires { AreFound (in_outline outline.now) found.now }
    ensures { IfOk result (AreItsIfAny (in_outline outline.now) number) }
{
    match outline.hierarchy.parent(number) {
        None => features_under(alloc, outline, number, 0, &[]),
        Some(parent) => match found.get(parent) {
            Some(Some(above)) => {
                features_under(alloc, outline, number, above.depth, &above.entries)
            }
            Some(None) | None => Ok(None),
        },
    }
}

/// Keeps what was found of the class at the number.
fn keep<'s>(
    found: &mut [Option<ClassFeatures<'s>>],
    number: usize,
    features: Option<ClassFeatures<'s>>,
)
    ensures { Keeps found.old number features.entry found.new }
{
    if number < found.len() {
        found[number] = features;
    }
}

/// Finds the features of the class at the number, where those of its parent are found.
fn find_features<'s>(
    alloc: Global,
    outline: &Outline<'s>,
    found: &mut [Option<ClassFeatures<'s>>],
    number: usize,
) -> Result<(), AllocError>
    requires { AreFound (in_outline outline.now) found.old }
    ensures { OnOk result (AreFound (in_outline outline.now) found.new) }
{
    let features = features_if_any(alloc, outline, &*found, number)?;
    keep(found, number, features);
    Ok(())
}

/// Nothing, for each class.
fn nothing_found<'s>(
    alloc: Global,
    outline: &Outline<'s>,
) -> Result<Vec<Option<ClassFeatures<'s>>>, AllocError>
    ensures { IfOk result (λ found. AreFound (in_outline outline.now) found.items) }
{
    let count = outline.hierarchy.classes().len();
    let mut found = Vec::new(alloc);
    for _class in 0..count {
        found.push(None)?;
    }
    Ok(found)
}

/// The features of each class, as far as they are found from parents to heirs.
pub fn found_features<'s>(
    alloc: Global,
    outline: &Outline<'s>,
) -> Result<Vec<Option<ClassFeatures<'s>>>, AllocError>
    ensures { IfOk result (λ found. AreFound (in_outline outline.now) found.items) }
{
    let mut found = nothing_found(alloc, outline)?;
    let order = down_from_parents(alloc, &outline.hierarchy)?;
    for number in &order {
        find_features(alloc, outline, &mut found, *number)?;
    }
    Ok(found)
}

/// The features of the class at a number: those that were found, or, where none were, by a way up its ancestors.
pub fn features_at<'s>(
    alloc: Global,
    outline: &Outline<'s>,
    found: &[Option<ClassFeatures<'s>>],
    number: usize,
) -> Result<Vec<FeatureEntry<'s>>, AllocError>
    requires { AreFound (in_outline outline.now) found.now }
    ensures { IfOk result (λ features. map entry_of features.items
        ≡ class_features.features (in_outline outline.now) number) }
{
    match found.get(number) {
        Some(Some(features)) => {
            let mut entries = Vec::new(alloc);
            entries.extend_from_slice(&features.entries)?;
            Ok(entries)
        }
        Some(None) | None => features_of(alloc, outline, number),
    }
}
