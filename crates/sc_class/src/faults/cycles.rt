//! Classes that inherit from themselves.

ghost use Rattle.std.specs.Prelude.{◌≡◌, ◌<◌, ◌↔◌, ℕ, [], IfOk, IsTrue, OnOk, map, length, slice_get, unwrap_or};
ghost use Rattle.std.specs.Bool.{OnTrue};
ghost use Rattle.sc_tree.specs.View.{parent_of};
ghost use Rattle.sc_class.specs.Tables.Ancestors.{CycleAt, IsParent, LeadsTo, NameLeadsTo};
ghost use Rattle.sc_class.specs.Internal.Found.{Finds};
ghost use Rattle.sc_class.specs.Internal.Search.{AreInOrder, FindsWayBack, Grows, IsBelowNone, IsNotBelow, IsNumberOf, IsSeen};
ghost use Rattle.sc_class.specs.Internal.Systems.{in_hierarchy};

use crate::class_tables::hierarchy::Hierarchy;
use crate::faults::ranks::ranks_of;
use sc_text::Span;
use sc_tree::{Class, Parent};
use std::alloc::{AllocError, Global};

/// The parent's name of the first class in the text that inherits from itself, if one does. It takes time
/// in proportion to the text.
#[tactic(auto, using(crate::proofs::CycleLemmas::none_ranked))]
pub fn cycle(alloc: Global, hierarchy: &Hierarchy) -> Result<Option<Span>, AllocError>
    ensures { IfOk result (Finds (CycleAt (in_hierarchy hierarchy.now))) }
{
    let found = ranks_of(alloc, hierarchy)?;
    let ranks = found.as_slice();
    if are_in_order(hierarchy, ranks) {
        first_cycle(alloc, hierarchy, ranks)
    } else {
        first_cycle(alloc, hierarchy, &[])
    }
}

/// The rank of a class; 0 if it has none.
fn rank(ranks: &[usize], class: usize) -> usize
    ensures { result ≡ unwrap_or (slice_get ranks.now class) 0 }
{
    ranks.get(class).copied().unwrap_or(0)
}

/// Whether no class is below one of its parents: then a class that leads to another isn't below that one.
fn are_in_order(hierarchy: &Hierarchy, ranks: &[usize]) -> bool
    ensures { OnTrue result (AreInOrder (in_hierarchy hierarchy.now) ranks.now) }
{
    let classes = hierarchy.classes();
    for (number, class) in classes.iter().enumerate() {
        if !is_below_none(hierarchy, ranks, number, &class.parents) {
            return false;
        }
    }
    true
}

/// Whether the class at the number is below none of these parents.
fn is_below_none(hierarchy: &Hierarchy, ranks: &[usize], number: usize, parents: &[Parent]) -> bool
    ensures { OnTrue result (IsBelowNone (in_hierarchy hierarchy.now) ranks.now number (map parent_of parents.now)) }
{
    for parent in parents {
        if !is_not_below(hierarchy, ranks, number, parent) {
            return false;
        }
    }
    true
}

/// Whether the class at the number isn't below this parent.
fn is_not_below(hierarchy: &Hierarchy, ranks: &[usize], number: usize, parent: &Parent) -> bool
    ensures { OnTrue result (IsNotBelow (in_hierarchy hierarchy.now) ranks.now number (parent_of parent.now)) }
{
    match hierarchy.number(parent.name.as_str()) {
        None => true,
        Some(above) => rank(ranks, above) <= rank(ranks, number),
    }
}

/// Finds the first cycle, as `cycle` does. It searches up from the classes whose rank is no higher than that of a
/// parent, until one of them leads back.
fn first_cycle(
    alloc: Global,
    hierarchy: &Hierarchy,
    ranks: &[usize],
) -> Result<Option<Span>, AllocError>
    requires { AreInOrder (in_hierarchy hierarchy.now) ranks.now }
    ensures { IfOk result (Finds (CycleAt (in_hierarchy hierarchy.now))) }
{
    let classes = hierarchy.classes();
    for (number, class) in classes.iter().enumerate() {
        let way_back = way_back(alloc, hierarchy, ranks, number, &class.parents)?;
        if way_back.is_some() {
            return Ok(way_back);
        }
    }
    Ok(None)
}

/// The first of the parents that leads to the class at the number.
fn way_back(
    alloc: Global,
    hierarchy: &Hierarchy,
    ranks: &[usize],
    number: usize,
    parents: &[Parent],
) -> Result<Option<Span>, AllocError>
    requires { AreInOrder (in_hierarchy hierarchy.now) ranks.now }
    ensures { IfOk result (FindsWayBack (in_hierarchy hierarchy.now) number (map parent_of parents.now)) }
{
    for parent in parents {
        if name_leads_to(alloc, hierarchy, ranks, number, parent)? {
            return Ok(Some(parent.name.span));
        }
    }
    Ok(None)
}

/// Whether the parent leads to the class at the number. It can't if its rank is below that class's.
fn name_leads_to(
    alloc: Global,
    hierarchy: &Hierarchy,
    ranks: &[usize],
    number: usize,
    parent: &Parent,
) -> Result<bool, AllocError>
    requires { AreInOrder (in_hierarchy hierarchy.now) ranks.now }
    ensures { IfOk result (λ leads. IsTrue leads
        ↔ NameLeadsTo (in_hierarchy hierarchy.now) number (parent_of parent.now)) }
{
    match hierarchy.number(parent.name.as_str()) {
        None => Ok(false),
        Some(start) => {
            if rank(ranks, start) < rank(ranks, number) {
                return Ok(false);
            }
            leads_to(alloc, hierarchy, number, start)
        }
    }
}

/// Whether the ways up from a class lead to another.
fn leads_to(
    alloc: Global,
    hierarchy: &Hierarchy,
    target: usize,
    start: usize,
) -> Result<bool, AllocError>
    requires { start < length hierarchy.now.system.now.classes.items }
    ensures { IfOk result (λ leads. IsTrue leads ↔ LeadsTo (in_hierarchy hierarchy.now) target start) }
{
    let mut search = Search::new(alloc, hierarchy.classes().len())?;
    search.see(start)?;
    while let Some(class) = search.todo.pop() {
        if class == target {
            return Ok(true);
        }
        search.see_parents(hierarchy, class)?;
    }
    Ok(false)
}

/// The classes that a search has reached, and those whose parents it hasn't looked at.
#[derive(Drop)]
struct Search {
    seen: Vec<bool>,
    todo: Vec<usize>,
}

impl Search {
    /// A search among this number of classes that has reached none of them.
    fn new(alloc: Global, count: usize) -> Result<Search, AllocError>
        ensures { IfOk result (λ search. (length search.seen.items ≡ count) × (search.todo.items ≡ [])
            × ((k : ℕ) → IsSeen search.seen.items k → ⊥)) }
    {
        let seen = vec![in alloc; false; count]?;
        Ok(Search {
            seen,
            todo: Vec::new(alloc),
        })
    }

    /// Reaches a class.
    fn see(&mut self, number: usize) -> Result<(), AllocError>
        requires { number < length self.old.seen.items }
        ensures { OnOk result (Grows (λ k. k ≡ number) self.old.seen.items self.old.todo.items self.new.seen.items
            self.new.todo.items × IsSeen self.new.seen.items number) }
    {
        if self.seen[number] {
            return Ok(());
        }
        self.todo.push(number)?;
        self.seen[number] = true;
        Ok(())
    }

    /// Reaches the parents of a class.
    fn see_parents(&mut self, hierarchy: &Hierarchy, class: usize) -> Result<(), AllocError>
        requires { length self.old.seen.items ≡ length hierarchy.now.system.now.classes.items }
        ensures { let s = in_hierarchy hierarchy.now in
            OnOk result (Grows (IsParent s class) self.old.seen.items self.old.todo.items self.new.seen.items
            self.new.todo.items × ((k : ℕ) → IsParent s class k → IsSeen self.new.seen.items k)) }
    {
        let Some(class) = hierarchy.classes().get(class) else {
            return Ok(());
        };
        for parent in &class.parents {
            self.see_parent(hierarchy, parent)?;
        }
        Ok(())
    }

    /// Reaches a parent.
    fn see_parent(&mut self, hierarchy: &Hierarchy, parent: &Parent) -> Result<(), AllocError>
        requires { length self.old.seen.items ≡ length hierarchy.now.system.now.classes.items }
        ensures { let is_it = IsNumberOf (in_hierarchy hierarchy.now) (parent_of parent.now) in
            OnOk result (Grows is_it self.old.seen.items self.old.todo.items self.new.seen.items self.new.todo.items
            × ((k : ℕ) → is_it k → IsSeen self.new.seen.items k)) }
    {
        match hierarchy.number(parent.name.as_str()) {
            None => Ok(()),
            Some(number) => self.see(number),
        }
    }
}
