//! The features of a class, found by name.

ghost use Rattle.std.specs.Prelude.{◌≡◌, IfOk, map};
ghost use Rattle.std.specs.Option.{option_map};
ghost use Rattle.sc_tree.specs.View.{system_of};
ghost use Rattle.sc_class.specs.View.{entry_of};
ghost use Rattle.sc_class.specs.Tables.Features.{features, named_among};
ghost use Rattle.sc_class.specs.Faults.Scopes.{feature_names};
ghost use Rattle.sc_class.specs.Internal.FoundFeatures.{AreFound};

use crate::class_tables::ancestry::features_of;
use crate::class_tables::feature_entry::FeatureEntry;
use crate::class_tables::found_features::{ClassFeatures, features_at};
use crate::class_tables::outline::Outline;
use crate::names::NameIndex;
use std::alloc::{AllocError, Global};

/// The features of a class, inherited ones too. Each is found by hash.
#[derive(Drop)]
pub struct KnownFeatures<'s> {
    entries: Vec<FeatureEntry<'s>>,
    names: NameIndex<'s>,
    ghost named: { names ≡ feature_names (map entry_of entries.items) },
}

/// The names of the features.
#[tactic(auto, unfolding(sc_tree::specs::View::feature_of))]
fn names_of<'s>(alloc: Global, entries: &[FeatureEntry<'s>]) -> Result<NameIndex<'s>, AllocError>
    ensures { IfOk result (λ names. names ≡ feature_names (map entry_of entries.now)) }
{
    let mut names = NameIndex::new(alloc);
    for entry in entries {
        names.push(&entry.feature.name)?;
    }
    Ok(names)
}

impl<'s> KnownFeatures<'s> {
    /// The features of the class at a number. It goes up its ancestors.
    pub fn of(alloc: Global, outline: &Outline<'s>, number: usize) -> Result<Self, AllocError>
        ensures { IfOk result (λ known. map entry_of known.entries.items
            ≡ features (system_of outline.now.hierarchy.system.now) number) }
    {
        let entries = features_of(alloc, outline, number)?;
        let names = names_of(alloc, &entries)?;
        Ok(KnownFeatures { entries, names })
    }

    /// The features of the class at a number, where these were found of classes.
    pub fn of_found(
        alloc: Global,
        outline: &Outline<'s>,
        found: &[Option<ClassFeatures<'s>>],
        number: usize,
    ) -> Result<Self, AllocError>
        requires { AreFound (system_of outline.now.hierarchy.system.now) found.now }
        ensures { IfOk result (λ known. map entry_of known.entries.items
            ≡ features (system_of outline.now.hierarchy.system.now) number) }
    {
        let entries = features_at(alloc, outline, found, number)?;
        let names = names_of(alloc, &entries)?;
        Ok(KnownFeatures { entries, names })
    }

    /// The first of the features that has this name. It looks once by hash.
    pub fn named(&self, name: &str) -> Option<FeatureEntry<'s>>
        ensures { option_map entry_of result ≡ named_among name.now (map entry_of self.now.entries.items) }
    {
        match self.names.number(name) {
            None => None,
            Some(number) => self.entries.get(number).copied(),
        }
    }
}
