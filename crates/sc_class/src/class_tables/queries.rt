//! The answers of the tables of a system's classes.

ghost use Rattle.std.specs.Prelude.{◌≡◌, ◌++◌, IfOk, OnOk, map, slice_get};
ghost use Rattle.std.specs.Option.{option_map, option_copied};
ghost use Rattle.sc_tree.specs.View.{clause_of, class_of, name_of};
ghost use Rattle.sc_class.specs.Tables.Ancestors.{parent_number};
ghost use Rattle.sc_class.specs.ClassNames as class_names;
ghost use Rattle.sc_class.specs.Faults.ClassRules.{IsFaultless};
ghost use Rattle.sc_class.specs.Tables.Declared.{creators_of, declared_feature_names_at};
ghost use Rattle.sc_class.specs.Tables.Conformance as conformance_specs;
ghost use Rattle.sc_class.specs.Tables.Features as class_features;
ghost use Rattle.sc_class.specs.View.{entry_of, root_of};
ghost use Rattle.sc_class.specs.Names.{is_listed, number_among};
ghost use Rattle.sc_class.specs.Tables.ByClass as by_class;
ghost use Rattle.sc_class.specs.Internal.Systems.{in_outline};
ghost use Rattle.sc_class.specs.SystemIn.{root_in, system_in};

use crate::class_tables::ancestry::{ancestors_of_each, features_of, known_features};
use crate::class_tables::feature_entry::FeatureEntry;
use crate::class_tables::outline::Outline;
use crate::class_tables::{Tables, conformance};
use crate::identity::ClassId;
use crate::root::Root;
use sc_tree::{Class, Clause, Name};
use std::alloc::{AllocError, Global};

impl<'s> Tables<'s> {
    /// The tables of these classes, which have no fault with this root.
    pub(crate) fn of(alloc: Global, outline: Outline<'s>, root: &Root) -> Result<Self, AllocError>
        requires { IsFaultless (in_outline outline) (root_of root.now) }
        ensures of_it { IfOk result (λ tables. system_in tables ≡ in_outline outline.entry) }
        ensures rooted { IfOk result (λ tables. root_in tables ≡ root_of root.now) }
    {
        let root = root.copied()?;
        let ancestors_of_each = ancestors_of_each(alloc, &outline.hierarchy)?;
        let known = known_features(alloc, &outline)?;
        Ok(Tables {
            outline,
            root,
            ancestors_of_each,
            known,
        })
    }

    /// What the system is run from, at once. A system that is run from there has no fault.
    pub fn root(&self) -> &Root
        ensures same { root_of result.now ≡ root_in self.now }
        ensures faultless { IsFaultless (system_in self.now) (root_of result.now) }
    {
        &self.root
    }

    /// The classes, in the order of the text, at once.
    pub fn classes(&self) -> &'s [Class]
        ensures { map class_of result.now ≡ (system_in self.now).classes }
    {
        self.outline.hierarchy.classes()
    }

    /// The class with this name. It looks once by hash.
    pub fn class_named(&self, name: &str) -> Option<ClassId>
        ensures { result ≡ class_names.class_named (system_in self.now) name.now }
    {
        conformance::class_named(&self.outline.hierarchy, name)
    }

    /// The class of a type that is declared with this name: NONE is no such class. It looks once by hash.
    pub fn type_class(&self, name: &str) -> Option<ClassId>
        ensures { result ≡ conformance_specs.type_class (system_in self.now) name.now }
    {
        conformance::type_class(&self.outline.hierarchy, name)
    }

    /// The text of the class at a number, at once.
    pub fn class(&self, number: usize) -> Option<&'s Class>
        ensures { option_map class_of (option_copied result) ≡ slice_get (system_in self.now).classes number }
    {
        self.outline.class(number)
    }

    /// The number of the parent of the class at a number, at once.
    pub fn parent(&self, number: usize) -> Option<usize>
        ensures { result ≡ parent_number (system_in self.now) number }
    {
        self.outline.hierarchy.parent(number)
    }

    /// The names that the class at a number lists under `create`, in the order of the text, at once.
    pub fn creators(&self, number: usize) -> &'s [Name]
        ensures { map name_of result.now ≡ creators_of (system_in self.now) number }
    {
        self.outline.creators(number)
    }

    /// Whether the class at a number lists the name under `create`. It looks once by hash.
    pub fn is_creator(&self, number: usize, name: &str) -> bool
        ensures { result ≡ is_listed name.now (creators_of (system_in self.now) number) }
    {
        self.outline.creates(number, name)
    }

    /// The numbers of the ancestors of a class, itself first, at once (ECMA-367, 8.6.5). A class that every system
    /// has has none in the text.
    pub fn ancestors(&self, class: ClassId) -> &[usize]
        ensures { result.now ≡ by_class.ancestors_of (system_in self.now) class }
    {
        match class {
            ClassId::Declared(number) => match self.ancestors_of_each.get(number) {
                None => &[],
                Some(ancestors) => ancestors,
            },
            ClassId::Any | ClassId::None | ClassId::Integer | ClassId::Boolean => &[],
        }
    }

    /// Whether the first class conforms to the second (ECMA-367, 8.14). It goes up the first one's ancestors.
    pub fn class_conforms(&self, class: ClassId, other: ClassId) -> bool
        ensures { result ≡ conformance_specs.class_conforms (system_in self.now) class other }
    {
        conformance::class_conforms(&self.outline.hierarchy, class, other)
    }

    /// The feature of this name that a class has. It looks twice by hash.
    pub fn feature(&self, class: ClassId, name: &str) -> Option<FeatureEntry<'s>>
        ensures { option_map entry_of result ≡ class_features.feature_named (system_in self.now) class name.now }
    {
        match class {
            ClassId::Declared(number) => self.named(number, name),
            ClassId::Any | ClassId::None | ClassId::Integer | ClassId::Boolean => None,
        }
    }

    /// The feature of this name of the class at a number.
    fn named(&self, number: usize, name: &str) -> Option<FeatureEntry<'s>>
        ensures { option_map entry_of result
            ≡ class_features.named_among name.now (class_features.features (system_in self.now) number) }
    {
        match self.known.get(number) {
            None => None,
            Some(known) => match known.named(name) {
                None => None,
                Some(entry) => self.outline.declared(entry.class, name),
            },
        }
    }

    /// The feature of this name that the class at a number declares itself. It looks once by hash.
    pub fn declared(&self, number: usize, name: &str) -> Option<FeatureEntry<'s>>
        ensures { option_map entry_of result
            ≡ class_features.named_among name.now (class_features.declared_features (system_in self.now) number) }
    {
        self.outline.declared(number, name)
    }

    /// How many of the features that the class at a number declares itself come before the first one of this name, if
    /// one has it. It looks once by hash.
    pub fn declared_number(&self, number: usize, name: &str) -> Option<usize>
        ensures { result ≡ number_among name.now (declared_feature_names_at (system_in self.now) number) }
    {
        self.outline.number(number, name)
    }

    /// The features of a class, each with the class that declares it (ECMA-367, 8.6.6 and 8.10): its own in the
    /// order of the text, then its parent's that it doesn't redefine. It takes time in proportion to the features
    /// that its ancestors declare, looking for each once by hash.
    pub fn features(
        &self,
        alloc: Global,
        class: ClassId,
    ) -> Result<Vec<FeatureEntry<'s>>, AllocError>
        ensures { IfOk result (λ features. map entry_of features.items
            ≡ by_class.features_of (system_in self.now) class) }
    {
        match class {
            ClassId::Declared(number) => features_of(alloc, &self.outline, number),
            ClassId::Any => Ok(Vec::new(alloc)),
            ClassId::None => Ok(Vec::new(alloc)),
            ClassId::Integer => Ok(Vec::new(alloc)),
            ClassId::Boolean => Ok(Vec::new(alloc)),
        }
    }

    /// Adds the clauses of the invariant of the class at a number.
    fn add_invariant(&self, clauses: &mut Vec<&'s Clause>, number: usize) -> Result<(), AllocError>
        ensures { OnOk result (map (λ c. clause_of c.now) clauses.new.items
            ≡ map (λ c. clause_of c.now) clauses.old.items
            ++ class_features.declared_invariant (system_in self.now) number) }
    {
        let Some(text) = self.class(number) else {
            return Ok(());
        };
        for clause in &text.invariant {
            clauses.push(clause)?;
        }
        Ok(())
    }

    /// The joined invariant of a class (ECMA-367, 8.9.16): its parent's clauses, then its own. It takes time in
    /// proportion to them and to the ancestors.
    pub fn invariant_of(&self, alloc: Global, class: ClassId) -> Result<Vec<&'s Clause>, AllocError>
        ensures { IfOk result (λ clauses. map (λ c. clause_of c.now) clauses.items
            ≡ by_class.joined_invariant (system_in self.now) class) }
    {
        let ancestors = self.ancestors(class);
        let count = ancestors.len();
        let mut clauses = Vec::new(alloc);
        for done in 0..count {
            self.add_invariant(&mut clauses, ancestors[count - 1 - done])?;
        }
        Ok(clauses)
    }
}
