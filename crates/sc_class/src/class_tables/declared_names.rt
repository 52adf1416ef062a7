//! The names of what a class declares itself.

ghost use Rattle.std.specs.Prelude.{◌≡◌, ◌++◌, IfOk, OnOk, map};
ghost use Rattle.sc_tree.specs.View.{name_of, feature_of, class_of};
ghost use Rattle.sc_class.specs.Tables.Features.{redefined_by};
ghost use Rattle.sc_class.specs.Tables.Declared.{created_by, declared_feature_names};
ghost use Rattle.sc_class.specs.Internal.DeclaredNames.{names_of_class};

use crate::names::NameIndex;
use sc_tree::{Class, Feature, Name};
use std::alloc::{AllocError, Global};

/// The names of the features that a class declares, and those that it lists under `redefine` and under `create`.
#[derive(Drop)]
pub struct DeclaredNames<'s> {
    pub features: NameIndex<'s>,
    pub redefined: NameIndex<'s>,
    pub creators: NameIndex<'s>,
}

/// Adds the names of the features.
#[tactic(auto, unfolding(sc_tree::specs::View::feature_of))]
fn add_features<'s>(names: &mut NameIndex<'s>, features: &'s [Feature]) -> Result<(), AllocError>
    ensures { OnOk result (names.new ≡ names.old ++ map (λ f. f.name) (map feature_of features.now)) }
{
    for feature in features {
        names.push(&feature.name)?;
    }
    Ok(())
}

/// Adds the names.
fn add_names<'s>(index: &mut NameIndex<'s>, names: &'s [Name]) -> Result<(), AllocError>
    ensures { OnOk result (index.new ≡ index.old ++ map name_of names.now) }
{
    for name in names {
        index.push(name)?;
    }
    Ok(())
}

/// The names that a class lists under `redefine`, of its first parent.
#[tactic(auto, unfolding(sc_tree::specs::View::class_of))]
pub fn redefined_in(class: &Class) -> &[Name]
    ensures { map name_of result.now ≡ redefined_by (class_of class.now) }
{
    match class.parents.as_slice() {
        [] => &[],
        [parent, ..] => &parent.redefined,
    }
}

impl<'s> DeclaredNames<'s> {
    /// Adds the names of a class.
    #[tactic(auto, unfolding(sc_tree::specs::View::class_of))]
    fn add(&mut self, class: &'s Class) -> Result<(), AllocError>
        ensures features { OnOk result (self.new.features ≡ self.old.features
            ++ declared_feature_names (class_of class.now)) }
        ensures redefined { OnOk result (self.new.redefined ≡ self.old.redefined ++ redefined_by (class_of class.now)) }
        ensures creators { OnOk result (self.new.creators ≡ self.old.creators ++ created_by (class_of class.now)) }
    {
        add_features(&mut self.features, &class.features)?;
        add_names(&mut self.redefined, redefined_in(class))?;
        add_names(&mut self.creators, &class.creators)
    }
}

/// The names of a class.
pub fn declared_names_of<'s>(
    alloc: Global,
    class: &'s Class,
) -> Result<DeclaredNames<'s>, AllocError>
    ensures { IfOk result (λ names. names ≡ names_of_class (class_of class.now)) }
{
    let mut names = DeclaredNames {
        features: NameIndex::new(alloc),
        redefined: NameIndex::new(alloc),
        creators: NameIndex::new(alloc),
    };
    names.add(class).and(Ok(names))
}
