//! Ranks of classes: if no class inherits from itself, each is above its parents; classes that lead to each other
//! have equal ranks.

use crate::class_tables::hierarchy::Hierarchy;
use std::alloc::{AllocError, Global};

/// A step of a walk: reach a class, or leave it after all that it leads to, with its number in the walk.
#[derive(Clone, Copy)]
enum Step {
    Enter(usize),
    Leave(usize, usize),
}

/// A walk up from the classes to their parents.
#[derive(Drop)]
struct Walk {
    todo: Vec<Step>,
    /// The classes that have no rank yet, as the walk came to them. Their numbers are those of their places, from 1.
    open: Vec<usize>,
    /// For each open class, the number of an open one that it leads to: its own, or a lower one. It is 0 if the walk
    /// hasn't reached the class yet, and greater than any number if the class has its rank.
    lowest: Vec<usize>,
    ranks: Vec<usize>,
    rank: usize,
}

/// A rank for each class, by number: a parent's rank is not greater, and is equal if the parent leads back to the
/// class. It takes time in proportion to the text.
pub fn ranks_of(alloc: Global, hierarchy: &Hierarchy) -> Result<Vec<usize>, AllocError> {
    let count = hierarchy.classes().len();
    let mut walk = Walk {
        todo: Vec::new(alloc),
        open: Vec::new(alloc),
        lowest: vec![in alloc; 0usize; count]?,
        ranks: vec![in alloc; 0usize; count]?,
        rank: 0,
    };
    for class in 0..count {
        walk.todo.push(Step::Enter(class))?;
    }
    for _step in 0..u64::MAX {
        match walk.todo.pop() {
            None => return Ok(walk.ranks),
            Some(Step::Enter(class)) => walk.enter(hierarchy, class)?,
            Some(Step::Leave(class, number)) => walk.leave(hierarchy, class, number),
        }
    }
    Ok(walk.ranks)
}

impl Walk {
    /// Reaches a class: its parents are to be entered before it is left.
    fn enter(&mut self, hierarchy: &Hierarchy, class: usize) -> Result<(), AllocError> {
        let number = self.open.len().saturating_add(1);
        match self.lowest.get_mut(class) {
            Some(lowest) if *lowest == 0 => *lowest = number,
            _ => return Ok(()),
        }
        self.open.push(class)?;
        self.todo.push(Step::Leave(class, number))?;
        let Some(text) = hierarchy.classes().get(class) else {
            return Ok(());
        };
        for parent in &text.parents {
            if let Some(above) = hierarchy.number(parent.name.as_str()) {
                self.todo.push(Step::Enter(above))?;
            }
        }
        Ok(())
    }

    /// Leaves a class: if it leads to no lower one, it and the open ones after it lead to each other.
    fn leave(&mut self, hierarchy: &Hierarchy, class: usize, number: usize) {
        let lowest = self.lowest_of(hierarchy, class, number);
        if let Some(place) = self.lowest.get_mut(class) {
            *place = lowest;
        }
        if lowest < number {
            return;
        }
        self.rank = self.rank.saturating_add(1);
        for _class in number..self.open.len().saturating_add(1) {
            let Some(class) = self.open.pop() else {
                return;
            };
            if let Some(place) = self.lowest.get_mut(class) {
                *place = usize::MAX;
            }
            if let Some(rank) = self.ranks.get_mut(class) {
                *rank = self.rank;
            }
        }
    }

    /// The lowest number that a class leads to, by its parents.
    fn lowest_of(&self, hierarchy: &Hierarchy, class: usize, number: usize) -> usize {
        let mut lowest = number;
        let Some(text) = hierarchy.classes().get(class) else {
            return lowest;
        };
        for parent in &text.parents {
            if let Some(above) = hierarchy.number(parent.name.as_str()) {
                lowest = lowest.min(self.lowest.get(above).copied().unwrap_or(lowest));
            }
        }
        lowest
    }
}
