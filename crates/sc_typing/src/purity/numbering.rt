//! The features of a system by number, in the order of the text.

ghost use Rattle.std.specs.Prelude.{◌≡◌, ◌<◌, ◌++◌, ℕ, Some, IfOk, OnOk, map, length, slice_get};
ghost use Rattle.sc_tree.specs.View.{feature_of};
ghost use Rattle.sc_class.specs.View.{entry_of};
ghost use Rattle.sc_class.specs.Tables.Features.{declared_in};
ghost use Rattle.std.proofs.Props.{props};
ghost use Rattle.sc_rules.specs.Names.{routine_of};
ghost use Rattle.sc_typing.specs.FeatureNumbers.{all_features, start, feature_number};
ghost use Rattle.sc_class.specs.SystemIn.{system_in};

use sc_class::{FeatureEntry, Tables};
use sc_tree::Feature;
use std::alloc::{AllocError, Global};

/// The features that the classes of a system declare, each by its number in the text.
#[derive(Drop)]
pub struct Numbering<'t, 's> {
    pub tables: &'t Tables<'s>,
    /// By number, each feature with the class that declares it.
    pub features: Vec<FeatureEntry<'s>>,
    starts: Vec<usize>,
    ghost are_all: { map (λ e. routine_of (entry_of e)) features.items
        ≡ map routine_of (all_features (system_in tables.now)) } by { Prim.hlevel props },
    ghost as_many: { length starts.items ≡ length (system_in tables.now).classes },
    ghost are_starts: { (k : ℕ) → k < length starts.items →
        slice_get starts.items k ≡ Some (start (system_in tables.now).classes k) } by { Prim.hlevel props },
}

/// Adds the features of the class at the number.
fn add_features<'s>(
    features: &mut Vec<FeatureEntry<'s>>,
    class: usize,
    declared: &'s [Feature],
) -> Result<(), AllocError>
    ensures { OnOk result (map entry_of features.new.items ≡ map entry_of features.old.items
        ++ map (declared_in class) (map feature_of declared.now)) }
{
    for feature in declared {
        features.push(FeatureEntry { class, feature })?;
    }
    Ok(())
}

impl<'t, 's> Numbering<'t, 's> {
    /// The features of the classes of these tables.
    pub fn of(alloc: Global, tables: &'t Tables<'s>) -> Result<Self, AllocError>
        ensures { IfOk result (λ numbering. numbering.tables.now ≡ tables.now) }
    {
        let classes = tables.classes();
        let mut features = Vec::new(alloc);
        let mut starts = Vec::with_capacity(alloc, classes.len())?;
        for class in 0..classes.len() {
            starts.push(features.len())?;
            add_features(&mut features, class, &classes[class].features)?;
        }
        Ok(Numbering {
            tables,
            features,
            starts,
        })
    }

    /// The number of the feature of this name that the class at the number declares. It looks once by hash.
    pub fn number(&self, class: usize, name: &str) -> Option<usize>
        ensures { result ≡ feature_number (system_in self.now.tables.now) (record { class = class; name = name.now }) }
    {
        let Some(place) = self.tables.declared_number(class, name) else {
            return None;
        };
        let Some(start) = self.starts.get(class) else {
            return None;
        };
        Some(*start + place)
    }
}
