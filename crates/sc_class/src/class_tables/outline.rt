//! What each class declares itself, by name.

ghost use Rattle.std.specs.Prelude.{◌≡◌, ◌++◌, IfOk, OnOk, map, slice_get};
ghost use Rattle.std.specs.Option.{option_map, option_copied};
ghost use Rattle.sc_tree.specs.View.{name_of, feature_of, class_of, system_of};
ghost use Rattle.sc_class.specs.Names.{number_among, is_listed};
ghost use Rattle.sc_class.specs.Tables.Declared.{features_at, declared_feature_names_at};
ghost use Rattle.sc_class.specs.Internal.DeclaredNames.{names_of_class};
ghost use Rattle.sc_class.specs.Tables.Declared.{creators_of};
ghost use Rattle.sc_class.specs.Tables.Features.{redefined_names, declared_features, features_along, named_among, not_redefined};
ghost use Rattle.sc_class.specs.View.{entry_of};
ghost use Rattle.sc_class.specs.Internal.NameIndex.{place_among};
ghost use Rattle.sc_class.specs.Internal.Lines.{kept_below, with_own};

use crate::class_tables::declared_names::{DeclaredNames, declared_names_of, redefined_in};
use crate::class_tables::feature_entry::FeatureEntry;
use crate::class_tables::hierarchy::Hierarchy;
use crate::class_tables::line::NamedFeatures;
use crate::faults::places::first_place;
use crate::names::NameIndex;
use sc_text::Span;
use sc_tree::{Class, Feature, Name};
use std::alloc::{AllocError, Global};

/// The classes of a system, with the names of what each declares itself.
#[derive(Drop)]
pub struct Outline<'s> {
    pub hierarchy: Hierarchy<'s>,
    names: Vec<DeclaredNames<'s>>,
    ghost have_names: { names.items ≡ map names_of_class (system_of hierarchy.system.now).classes },
}

/// The names of what each class declares.
fn names_of_each<'s>(
    alloc: Global,
    classes: &'s [Class],
) -> Result<Vec<DeclaredNames<'s>>, AllocError>
    ensures { IfOk result (λ names. names.items ≡ map names_of_class (map class_of classes.now)) }
{
    let mut names = Vec::new(alloc);
    for class in classes {
        names.push(declared_names_of(alloc, class)?)?;
    }
    Ok(names)
}

impl<'s> Outline<'s> {
    /// What the classes declare.
    pub fn of(alloc: Global, hierarchy: Hierarchy<'s>) -> Result<Self, AllocError>
        ensures { IfOk result (λ outline. outline.hierarchy.system.now ≡ hierarchy.entry.system.now) }
    {
        let names = names_of_each(alloc, hierarchy.classes())?;
        Ok(Outline { hierarchy, names })
    }

    /// The class at a number.
    pub fn class(&self, number: usize) -> Option<&'s Class>
        ensures { option_map class_of (option_copied result)
            ≡ slice_get (system_of self.now.hierarchy.system.now).classes number }
    {
        self.hierarchy.classes().get(number)
    }

    /// The number of the first feature of this name that the class declares itself. It looks once by hash.
    pub fn number(&self, class: usize, name: &str) -> Option<usize>
        ensures { result
            ≡ number_among name.now (declared_feature_names_at (system_of self.now.hierarchy.system.now) class) }
    {
        match self.names.get(class) {
            None => None,
            Some(names) => names.features.number(name),
        }
    }

    /// A feature that the class declares itself, by its number in the text of the class.
    fn feature(&self, class: usize, number: usize) -> Option<&'s Feature>
        ensures { option_map feature_of (option_copied result)
            ≡ slice_get (features_at (system_of self.now.hierarchy.system.now) class) number }
    {
        match self.class(class) {
            None => None,
            Some(text) => text.features.get(number),
        }
    }

    /// The feature of this name that the class at the number declares itself. It looks once by hash.
    pub fn declared(&self, class: usize, name: &str) -> Option<FeatureEntry<'s>>
        ensures { option_map entry_of result
            ≡ named_among name.now (declared_features (system_of self.now.hierarchy.system.now) class) }
    {
        match self.number(class, name) {
            None => None,
            Some(number) => match self.feature(class, number) {
                None => None,
                Some(feature) => Some(FeatureEntry { class, feature }),
            },
        }
    }

    /// Whether the class at the number lists the name under `redefine`. It looks once by hash.
    pub fn redefines(&self, class: usize, name: &str) -> bool
        ensures { result ≡ is_listed name.now (redefined_names (system_of self.now.hierarchy.system.now) class) }
    {
        match self.names.get(class) {
            None => false,
            Some(names) => names.redefined.contains(name),
        }
    }

    /// The names that the class at the number lists under `create`.
    #[tactic(auto, unfolding(sc_tree::specs::View::class_of))]
    pub fn creators(&self, class: usize) -> &'s [Name]
        ensures { map name_of result.now ≡ creators_of (system_of self.now.hierarchy.system.now) class }
    {
        match self.class(class) {
            None => &[],
            Some(text) => &text.creators,
        }
    }

    /// Whether the class at the number lists the name under `create`. It looks once by hash.
    pub fn creates(&self, class: usize, name: &str) -> bool
        ensures { result ≡ is_listed name.now (creators_of (system_of self.now.hierarchy.system.now) class) }
    {
        match self.names.get(class) {
            None => false,
            Some(names) => names.creators.contains(name),
        }
    }

    /// The first place of a feature of this name that the class at the number declares itself. It looks once by hash.
    fn declared_place(&self, class: usize, name: &str) -> Option<Span>
        ensures { result
            ≡ place_among name.now (declared_feature_names_at (system_of self.now.hierarchy.system.now) class) }
    {
        match self.names.get(class) {
            None => None,
            Some(names) => names.features.place(name),
        }
    }

    /// The features of this name of the class at the number, where its parent has these. It looks up to three times by
    /// hash.
    pub fn named_below(&self, class: usize, name: &str, above: NamedFeatures) -> NamedFeatures
        ensures { result ≡ with_own (system_of self.now.hierarchy.system.now) class name.now above }
    {
        let kept = self.named_unless_redefined(class, name, above);
        match self.declared(class, name) {
            None => kept,
            Some(entry) => NamedFeatures {
                class: Some(entry.class),
                place: first_place(self.declared_place(class, name), kept.place),
            },
        }
    }

    /// The features of this name of the class's parent, if it has any and the class doesn't redefine them.
    fn named_unless_redefined(
        &self,
        class: usize,
        name: &str,
        above: NamedFeatures,
    ) -> NamedFeatures
        ensures { result ≡ kept_below (system_of self.now.hierarchy.system.now) class name.now above }
    {
        if self.redefines(class, name) {
            NamedFeatures {
                class: None,
                place: None,
            }
        } else {
            above
        }
    }

    /// Adds the features that the class at the number declares itself, but for those of the redefined names.
    #[tactic(auto, unfolding(sc_tree::specs::View::class_of))]
    pub fn add_declared(
        &self,
        features: &mut Vec<FeatureEntry<'s>>,
        redefined: &NameIndex,
        class: usize,
    ) -> Result<(), AllocError>
        ensures { let declared = declared_features (system_of self.now.hierarchy.system.now) class in
            OnOk result (map entry_of features.new.items ≡ map entry_of features.old.items
            ++ not_redefined redefined.now declared) }
    {
        let Some(text) = self.class(class) else {
            return Ok(());
        };
        for feature in &text.features {
            if !redefined.contains(feature.name.as_str()) {
                features.push(FeatureEntry { class, feature })?;
            }
        }
        Ok(())
    }

    /// Adds the names that the class at the number lists under `redefine`.
    pub fn add_redefined(
        &self,
        redefined: &mut NameIndex<'s>,
        class: usize,
    ) -> Result<(), AllocError>
        ensures { OnOk result (redefined.new ≡ redefined.old
            ++ redefined_names (system_of self.now.hierarchy.system.now) class) }
    {
        let Some(text) = self.class(class) else {
            return Ok(());
        };
        let names = redefined_in(text);
        for name in names {
            redefined.push(name)?;
        }
        Ok(())
    }

    /// Adds the features of classes, each the parent of the one before it, except those of the redefined names. The
    /// names that the classes redefine are then among these.
    pub fn add_along(
        &self,
        features: &mut Vec<FeatureEntry<'s>>,
        redefined: &mut NameIndex<'s>,
        ancestors: &[usize],
    ) -> Result<(), AllocError>
        ensures { let along = features_along (system_of self.now.hierarchy.system.now) ancestors.now in
            OnOk result (map entry_of features.new.items ≡ map entry_of features.old.items
            ++ not_redefined redefined.old along) }
    {
        for class in ancestors {
            self.add_declared(features, redefined, *class)?;
            self.add_redefined(redefined, *class)?;
        }
        Ok(())
    }
}
