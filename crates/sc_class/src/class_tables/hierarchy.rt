//! The classes of a system, their names and their parents.

ghost use Rattle.std.specs.Prelude.{◌≡◌, IfOk, map};
ghost use Rattle.sc_tree.specs.View.{class_of, system_of};
ghost use Rattle.sc_class.specs.ClassNames.{class_names, number_in, number_of};
ghost use Rattle.sc_class.specs.Tables.Ancestors.{parent_in, parent_of, parent_number};

use crate::built_in::is_built_in;
use crate::names::NameIndex;
use sc_tree::{Class, System};
use std::alloc::{AllocError, Global};

/// The classes of a system, by number and by name, with the number of each one's parent.
#[derive(Drop)]
pub struct Hierarchy<'s> {
    pub system: &'s System,
    pub names: NameIndex<'s>,
    pub parents: Vec<Option<usize>>,
    pub ghost named: { names ≡ class_names (system_of system.now).classes },
    pub ghost have_parents: { parents.items ≡ map (parent_of (system_of system.now)) (system_of system.now).classes },
}

/// The number of the class that is declared with the name.
fn class_number(names: &NameIndex, name: &str) -> Option<usize>
    ensures { result ≡ number_in names.now name.now }
{
    if is_built_in(name) {
        None
    } else {
        names.number(name)
    }
}

/// The number of the class that a class inherits from.
#[tactic(auto, unfolding(sc_tree::specs::View::class_of))]
fn parent_class(names: &NameIndex, class: &Class) -> Option<usize>
    ensures { result ≡ parent_in names.now (class_of class.now) }
{
    match class.parents.as_slice() {
        [] => None,
        [parent, ..] => class_number(names, parent.name.as_str()),
    }
}

/// The names of the classes, in the order of the text.
#[tactic(auto, unfolding(sc_tree::specs::View::class_of))]
fn names_of<'s>(alloc: Global, classes: &'s [Class]) -> Result<NameIndex<'s>, AllocError>
    ensures { IfOk result (λ names. names ≡ class_names (map class_of classes.now)) }
{
    let mut names = NameIndex::new(alloc);
    for class in classes {
        names.push(&class.name)?;
    }
    Ok(names)
}

/// The numbers of the parents of the classes.
fn parents_of(
    alloc: Global,
    names: &NameIndex,
    classes: &[Class],
) -> Result<Vec<Option<usize>>, AllocError>
    ensures { IfOk result (λ parents. parents.items ≡ map (parent_in names.now) (map class_of classes.now)) }
{
    let mut parents = Vec::with_capacity(alloc, classes.len())?;
    for class in classes {
        parents.push(parent_class(names, class))?;
    }
    Ok(parents)
}

impl<'s> Hierarchy<'s> {
    /// The classes of a system.
    #[tactic(auto, unfolding(sc_tree::specs::View::system_of))]
    pub fn of(alloc: Global, system: &'s System) -> Result<Self, AllocError>
        ensures { IfOk result (λ hierarchy. hierarchy.system.now ≡ system.now) }
    {
        let names = names_of(alloc, &system.classes)?;
        let parents = parents_of(alloc, &names, &system.classes)?;
        Ok(Hierarchy {
            system,
            names,
            parents,
        })
    }

    /// The classes, in the order of the text.
    #[tactic(auto, unfolding(sc_tree::specs::View::system_of))]
    pub fn classes(&self) -> &'s [Class]
        ensures { map class_of result.now ≡ (system_of self.now.system.now).classes }
    {
        &self.system.classes
    }

    /// The number of the class that is declared with the name. It looks once by hash.
    pub fn number(&self, name: &str) -> Option<usize>
        ensures { result ≡ number_of (system_of self.now.system.now) name.now }
    {
        class_number(&self.names, name)
    }

    /// The number of the parent of the class at a number.
    pub fn parent(&self, number: usize) -> Option<usize>
        ensures { result ≡ parent_number (system_of self.now.system.now) number }
    {
        self.parents.get(number).copied().flatten()
    }
}
