//! The search for the features that aren't pure functions: from those that are impure themselves to those that may run
//! them.

ghost use Rattle.std.specs.Prelude.{◌≡◌, ◌<◌, ◌++◌, ℕ, [], ◌∷◌, OnOk, IfOk, length, if◌then◌else◌, ◌==◌};
ghost use Rattle.sc_class.specs.Internal.Search.{IsSeen};
ghost use Rattle.sc_check.specs.purity.Internal.ImpureSearch.{MarksOf};
ghost use Rattle.sc_check.specs.purity.Internal.Callers.{callers_in};

use std::alloc::{AllocError, Global};

/// The features that are found to be no pure functions, and those of them whose callers weren't looked at yet.
#[derive(Drop)]
pub struct Search {
    pub impure: Vec<bool>,
    pub todo: Vec<usize>,
}

impl Search {
    /// A search among this number of features that has found none of them.
    pub fn new(alloc: Global, count: usize) -> Result<Search, AllocError>
        ensures { IfOk result (λ search. (length search.impure.items ≡ count) × (search.todo.items ≡ [])
            × ((k : ℕ) → IsSeen search.impure.items k → ⊥)) }
    {
        let impure = vec![in alloc; false; count]?;
        Ok(Search {
            impure,
            todo: Vec::new(alloc),
        })
    }

    /// Marks a feature as no pure function.
    pub fn mark_impure(&mut self, number: usize) -> Result<(), AllocError>
        requires { number < length self.old.impure.items }
        ensures { OnOk result (MarksOf (λ k. k ≡ number) self.old self.new × IsSeen self.new.impure.items number) }
    {
        if self.impure[number] {
            return Ok(());
        }
        self.todo.push(number)?;
        self.impure[number] = true;
        Ok(())
    }
}

/// For each feature the numbers of those that call it.
#[derive(Drop)]
pub struct Callers {
    lists: Vec<Vec<usize>>,
}

impl Callers {
    /// No callers of any of this number of features.
    pub fn new(alloc: Global, count: usize) -> Result<Callers, AllocError>
        ensures many { IfOk result (λ callers. length callers.lists.items ≡ count) }
        ensures none { IfOk result (λ callers. (k : ℕ) → callers_in callers.lists.items k ≡ []) }
    {
        let mut lists = Vec::with_capacity(alloc, count)?;
        for _number in 0..count {
            lists.push(Vec::new(alloc))?;
        }
        Ok(Callers { lists })
    }

    /// Adds a caller of a feature.
    pub fn add(&mut self, called: usize, caller: usize) -> Result<(), AllocError>
        requires { called < length self.old.lists.items }
        ensures many { OnOk result (length self.new.lists.items ≡ length self.old.lists.items) }
        ensures added { OnOk result ((k : ℕ) →
            callers_in self.new.lists.items k
            ≡ (if k == called then callers_in self.old.lists.items k
            ++ caller ∷ [] else callers_in self.old.lists.items k)) }
    {
        self.lists[called].push(caller)?;
        Ok(())
    }

    /// Those that call the feature at the number.
    pub fn of(&self, number: usize) -> &[usize]
        ensures { result.now ≡ callers_in self.now.lists.items number }
    {
        match self.lists.get(number) {
            None => &[],
            Some(list) => list,
        }
    }
}
