//! A line of classes, each the parent of the next, with the features of the last one by name. If one goes from class
//! to class, each after its parent, this takes time in proportion to what they declare and redefine.

ghost use Rattle.std.specs.Prelude.{◌≡◌, ◌++◌, ℕ, List, [], None, Some, IfOk, OnOk, bytes_eq, map, slice_get, if◌then◌else◌};
ghost use Rattle.std.specs.Bool.{OnTrue};
ghost use Rattle.std.specs.Option.{option_map};
ghost use Rattle.sc_tree.specs.View.{name_of, feature_of, class_of};
ghost use Rattle.sc_class.specs.Tables.Ancestors.{parent_number};
ghost use Rattle.sc_class.specs.Tables.Declared.{declared_feature_names};
ghost use Rattle.sc_class.specs.Tables.Features.{inherited_features, named_among, redefined_by};
ghost use Rattle.sc_class.specs.View.{entry_of};
ghost use Rattle.sc_class.specs.Internal.Lines.{GoesOn, KnowsAbove, Stands, change_of, changes_of, known_by, no_features, put_in_turn, said_below, said_of, with_own};
ghost use Rattle.sc_class.specs.Internal.Systems.{in_hierarchy, in_outline};

use crate::class_tables::ancestry::ancestors_of;
use crate::class_tables::declared_names::redefined_in;
use crate::class_tables::feature_entry::FeatureEntry;
use crate::class_tables::hierarchy::Hierarchy;
use crate::class_tables::outline::Outline;
use sc_text::Span;
use sc_tree::{Class, Feature, Name};
use std::alloc::{AllocError, Global};
use std::collections::HashMap;

/// The features of a class that have one name: the number of the class that declares the first of them, and its first
/// place in the text.
#[derive(Clone, Copy)]
pub struct NamedFeatures {
    pub class: Option<usize>,
    pub place: Option<Span>,
}

/// What is made known of a name.
#[derive(Clone, Copy)]
pub struct Change<'s> {
    text: &'s str,
    features: NamedFeatures,
}

/// A class of a line, and what was known above it of the names that it declares or redefines.
#[derive(Drop)]
pub struct Level<'s> {
    class: usize,
    above: Vec<Change<'s>>,
}

/// A line of classes down to a class, or of none.
#[derive(Drop)]
pub struct Line<'s> {
    pub class: Option<usize>,
    levels: Vec<Level<'s>>,
    known: HashMap<&'s str, NamedFeatures>,
}

/// Whether the two are one class, or neither is a class.
fn is_same_class(one: Option<usize>, other: Option<usize>) -> bool
    ensures { OnTrue result (one ≡ other) }
{
    match (one, other) {
        (None, None) => true,
        (Some(one), Some(other)) => one == other,
        (None, Some(_)) | (Some(_), None) => false,
    }
}

/// Makes this known of a name.
fn put<'s>(
    known: &mut HashMap<&'s str, NamedFeatures>,
    change: &Change<'s>,
) -> Result<(), AllocError>
    ensures { OnOk result ((x : List ℕ) → known_by x known.new
        ≡ (if bytes_eq change.now.text.now x then change.now.features else known_by x known.old)) }
{
    known.insert(change.text, change.features)?;
    Ok(())
}

/// Makes these known, one after the other.
fn put_all<'s>(
    known: &mut HashMap<&'s str, NamedFeatures>,
    changes: &[Change<'s>],
) -> Result<(), AllocError>
    ensures { OnOk result ((x : List ℕ) → known_by x known.new ≡ put_in_turn x (changes_of changes.now) (known_by x known.old)) }
{
    for change in changes {
        put(known, change)?;
    }
    Ok(())
}

/// The names' features in the class at the number, from those in its parent.
fn changes_in<'s>(
    alloc: Global,
    outline: &Outline<'s>,
    class: usize,
    above: &[Change<'s>],
) -> Result<Vec<Change<'s>>, AllocError>
    ensures { IfOk result (λ changes. changes_of changes.items
        ≡ map (said_below (in_outline outline.now) class) (changes_of above.now)) }
{
    let mut changes = Vec::with_capacity(alloc, above.len())?;
    for change in above {
        let features = outline.named_below(class, change.text, change.features);
        changes.push(Change {
            text: change.text,
            features,
        })?;
    }
    Ok(changes)
}

impl<'s> Line<'s> {
    /// A line of no classes.
    pub fn new(alloc: Global) -> Self
        ensures class { result.class ≡ None }
        ensures levels { result.levels.items ≡ [] }
        ensures known { (x : List ℕ) → known_by x result.known ≡ no_features }
    {
        Line {
            class: None,
            levels: Vec::new(alloc),
            known: HashMap::new(alloc),
        }
    }

    /// The features of the last class that have this name. It looks once by hash.
    pub fn named(&self, name: &str) -> NamedFeatures
        ensures { result ≡ known_by name.now self.now.known }
    {
        self.known.get(name).copied().unwrap_or(NamedFeatures {
            class: None,
            place: None,
        })
    }

    /// What is known of a name.
    fn change(&self, name: &'s Name) -> Change<'s>
        ensures { let x = (name_of name.now).text in
            change_of result ≡ record { text = x; features = known_by x self.now.known } }
    {
        let text = name.as_str();
        let features = self.named(text);
        Change { text, features }
    }

    /// Adds what is known of the names of these features.
    #[tactic(auto, unfolding(sc_tree::specs::View::feature_of))]
    fn add_features(
        &self,
        changes: &mut Vec<Change<'s>>,
        features: &'s [Feature],
    ) -> Result<(), AllocError>
        ensures { OnOk result (changes_of changes.new.items ≡ changes_of changes.old.items
            ++ said_of (λ x. known_by x self.now.known) (map (λ f. f.name) (map feature_of features.now))) }
    {
        for feature in features {
            changes.push(self.change(&feature.name))?;
        }
        Ok(())
    }

    /// Adds what is known of these names.
    fn add_names(&self, changes: &mut Vec<Change<'s>>, names: &'s [Name]) -> Result<(), AllocError>
        ensures { OnOk result (changes_of changes.new.items ≡ changes_of changes.old.items
            ++ said_of (λ x. known_by x self.now.known) (map name_of names.now)) }
    {
        for name in names {
            changes.push(self.change(name))?;
        }
        Ok(())
    }

    /// What is known of the names that a class declares or redefines.
    fn known_above(&self, alloc: Global, class: &'s Class) -> Result<Vec<Change<'s>>, AllocError>
        ensures { let c = class_of class.now in IfOk result (λ changes. changes_of changes.items
            ≡ said_of (λ x. known_by x self.now.known) (declared_feature_names c ++ redefined_by c)) }
    {
        let mut changes = Vec::new(alloc);
        self.add_features(&mut changes, &class.features)?;
        self.add_names(&mut changes, redefined_in(class))?;
        Ok(changes)
    }

    /// Goes on to a class. The last class of the line is its parent.
    pub fn enter(
        &mut self,
        alloc: Global,
        outline: &Outline<'s>,
        number: usize,
        class: &'s Class,
    ) -> Result<(), AllocError>
        requires { slice_get (in_outline outline.now).classes number ≡ Some (class_of class.now) }
        ensures known { OnOk result ((x : List ℕ) → known_by x self.new.known
            ≡ with_own (in_outline outline.now) number x (known_by x self.old.known)) }
        ensures stands { OnOk result (GoesOn (in_outline outline.now) number self.old self.new) }
    {
        let above = self.known_above(alloc, class)?;
        let here = changes_in(alloc, outline, number, &above)?;
        put_all(&mut self.known, &here)?;
        self.levels.push(Level {
            class: number,
            above,
        })?;
        self.class = Some(number);
        Ok(())
    }

    /// Goes on to the class at a number, if there is one.
    fn go_down(
        &mut self,
        alloc: Global,
        outline: &Outline<'s>,
        number: usize,
    ) -> Result<(), AllocError>
        ensures { OnOk result ((x : List ℕ) → known_by x self.new.known
            ≡ with_own (in_outline outline.now) number x (known_by x self.old.known)) }
    {
        let Some(class) = outline.class(number) else {
            return Ok(());
        };
        self.enter(alloc, outline, number, class)
    }

    /// A line that knows what the class at a number inherits. It takes time in proportion to what its ancestors declare
    /// and redefine.
    pub fn above(alloc: Global, outline: &Outline<'s>, number: usize) -> Result<Self, AllocError>
        ensures { IfOk result (KnowsAbove (in_outline outline.now) number) }
    {
        let ancestors = ancestors_of(alloc, &outline.hierarchy, number)?;
        let last = ancestors.len().saturating_sub(1);
        let mut line = Line::new(alloc);
        for done in 0..last {
            line.go_down(alloc, outline, ancestors[last - done])?;
        }
        Ok(line)
    }

    /// Whether the line has reached the parent of the class at a number.
    pub fn is_above(&self, hierarchy: &Hierarchy, number: usize) -> bool
        requires { Stands (in_hierarchy hierarchy.now) self.now }
        ensures known { OnTrue result (KnowsAbove (in_hierarchy hierarchy.now) number self.now) }
        ensures parent { OnTrue result (self.now.class ≡ parent_number (in_hierarchy hierarchy.now) number) }
    {
        is_same_class(self.class, hierarchy.parent(number))
            && self.levels.len() < hierarchy.classes().len()
    }

    /// The feature of this name that the class at the number inherits. It looks twice by hash.
    pub fn inherited(
        &self,
        outline: &Outline<'s>,
        number: usize,
        name: &str,
    ) -> Option<FeatureEntry<'s>>
        requires { KnowsAbove (in_outline outline.now) number self.now }
        ensures { option_map entry_of result
            ≡ named_among name.now (inherited_features (in_outline outline.now) number) }
    {
        match self.named(name).class {
            None => None,
            Some(class) => outline.declared(class, name),
        }
    }

    /// Goes back from the last class to its parent.
    fn leave(&mut self, hierarchy: &Hierarchy) -> Result<(), AllocError>
        requires { Stands (in_hierarchy hierarchy.now) self.old }
        ensures { OnOk result (Stands (in_hierarchy hierarchy.now) self.new) }
    {
        let Some(level) = self.levels.pop() else {
            return Ok(());
        };
        put_all(&mut self.known, &level.above)?;
        self.class = hierarchy.parent(level.class);
        Ok(())
    }

    /// Goes back to this class, or to none if it isn't in the line.
    pub fn return_to(
        &mut self,
        hierarchy: &Hierarchy,
        class: Option<usize>,
    ) -> Result<(), AllocError>
        requires { Stands (in_hierarchy hierarchy.now) self.old }
        ensures { OnOk result (Stands (in_hierarchy hierarchy.now) self.new) }
    {
        for _level in 0..self.levels.len() {
            if is_same_class(self.class, class) {
                return Ok(());
            }
            self.leave(hierarchy)?;
        }
        Ok(())
    }
}
