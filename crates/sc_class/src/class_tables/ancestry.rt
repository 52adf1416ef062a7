//! The ancestors of classes, and the features that they have along these.

ghost use Rattle.std.specs.Prelude.{◌≡◌, ◌<◌, ℕ, List, IfOk, drop, length, map};
ghost use Rattle.sc_tree.specs.View.{system_of};
ghost use Rattle.sc_class.specs.Tables.Ancestors.{ancestors};
ghost use Rattle.sc_class.specs.Tables.Features as class_features;
ghost use Rattle.sc_class.specs.View.{entry_of};
ghost use Rattle.sc_class.specs.Internal.AncestorLists.{ancestors_in};
ghost use Rattle.sc_class.specs.Internal.KnownFeatures.{declarer, declarer_known};

use crate::class_tables::feature_entry::FeatureEntry;
use crate::class_tables::found_features::found_features;
use crate::class_tables::hierarchy::Hierarchy;
use crate::class_tables::known_features::KnownFeatures;
use crate::class_tables::outline::Outline;
use crate::names::NameIndex;
use std::alloc::{AllocError, Global};

/// The ancestors of the class at a number, itself first.
pub fn ancestors_of(
    alloc: Global,
    hierarchy: &Hierarchy,
    number: usize,
) -> Result<Vec<usize>, AllocError>
    ensures { IfOk result (λ numbers. numbers.items ≡ ancestors (system_of hierarchy.now.system.now) number) }
{
    let count = hierarchy.classes().len();
    let mut ancestors = Vec::new(alloc);
    let mut next = Some(number);
    for _done in 0..count {
        let Some(class) = next else {
            return Ok(ancestors);
        };
        ancestors.push(class)?;
        next = hierarchy.parent(class);
    }
    Ok(ancestors)
}

/// The ancestors of each class.
pub fn ancestors_of_each(
    alloc: Global,
    hierarchy: &Hierarchy,
) -> Result<Vec<Vec<usize>>, AllocError>
    ensures many { IfOk result (λ lists. length lists.items ≡ length (system_of hierarchy.now.system.now).classes) }
    ensures lists { IfOk result (λ lists. (k : ℕ) → k < length lists.items → ancestors_in lists.items k
        ≡ ancestors (system_of hierarchy.now.system.now) k) }
{
    let count = hierarchy.classes().len();
    let mut lists = Vec::new(alloc);
    for number in 0..count {
        let ancestors = ancestors_of(alloc, hierarchy, number)?;
        lists.push(ancestors)?;
    }
    Ok(lists)
}

/// The features of the class at a number: its own, then its parent's that it doesn't redefine.
pub fn features_of<'s>(
    alloc: Global,
    outline: &Outline<'s>,
    number: usize,
) -> Result<Vec<FeatureEntry<'s>>, AllocError>
    ensures { IfOk result (λ features. map entry_of features.items
        ≡ class_features.features (system_of outline.now.hierarchy.system.now) number) }
{
    let ancestors = ancestors_of(alloc, &outline.hierarchy, number)?;
    let mut features = Vec::new(alloc);
    let mut redefined = NameIndex::new(alloc);
    outline.add_along(&mut features, &mut redefined, &ancestors)?;
    Ok(features)
}

/// The features that the class at a number inherits and doesn't redefine.
pub fn kept_features_of<'s>(
    alloc: Global,
    outline: &Outline<'s>,
    number: usize,
) -> Result<Vec<FeatureEntry<'s>>, AllocError>
    ensures { let s = system_of outline.now.hierarchy.system.now in
        IfOk result (λ features. map entry_of features.items ≡ class_features.not_redefined
        (class_features.redefined_names s number) (class_features.inherited_features s number)) }
{
    let ancestors = ancestors_of(alloc, &outline.hierarchy, number)?;
    let mut features = Vec::new(alloc);
    let mut redefined = NameIndex::new(alloc);
    outline.add_redefined(&mut redefined, number)?;
    outline.add_along(&mut features, &mut redefined, above_first(&ancestors))?;
    Ok(features)
}

/// All but the first of the classes.
fn above_first(ancestors: &[usize]) -> &[usize]
    ensures { result.now ≡ drop 1 ancestors.now }
{
    match ancestors {
        [] => &[],
        [_, above @ ..] => above,
    }
}

/// The features of the classes, by number.
pub fn known_features<'s>(
    alloc: Global,
    outline: &Outline<'s>,
) -> Result<Vec<KnownFeatures<'s>>, AllocError>
    ensures many { IfOk result (λ known. length known.items ≡ length (system_of outline.now.hierarchy.system.now).classes) }
    ensures declarers { IfOk result (λ known. (k : ℕ) → k < length known.items → (x : List ℕ) →
        declarer_known known.items k x ≡ declarer (system_of outline.now.hierarchy.system.now) k x) }
{
    let found = found_features(alloc, outline)?;
    let count = outline.hierarchy.classes().len();
    let mut known = Vec::new(alloc);
    for number in 0..count {
        known.push(KnownFeatures::of_found(alloc, outline, &found, number)?)?;
    }
    Ok(known)
}
