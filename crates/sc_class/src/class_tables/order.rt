//! The order in which a line of classes goes from one class to the next.

use crate::class_tables::hierarchy::Hierarchy;
use std::alloc::{AllocError, Global};

/// The classes, each after its parent, and all heirs of a class before other classes. It takes time in proportion to
/// their number. Only the time to go from class to class depends on this order.
pub fn down_from_parents(alloc: Global, hierarchy: &Hierarchy) -> Result<Vec<usize>, AllocError> {
    let heirs = heirs_of_each(alloc, hierarchy)?;
    let count = heirs.len();
    let mut todo = Vec::new(alloc);
    for class in 0..count {
        if hierarchy.parent(class).is_none() {
            todo.push(class)?;
        }
    }
    let mut order = Vec::new(alloc);
    for _class in 0..count {
        let Some(class) = todo.pop() else {
            return Ok(order);
        };
        order.push(class)?;
        if let Some(heirs) = heirs.get(class) {
            todo.extend_from_slice(heirs)?;
        }
    }
    Ok(order)
}

/// The heirs of each class.
fn heirs_of_each(alloc: Global, hierarchy: &Hierarchy) -> Result<Vec<Vec<usize>>, AllocError> {
    let mut heirs = Vec::new(alloc);
    let count = hierarchy.classes().len();
    for _class in 0..count {
        heirs.push(Vec::new(alloc))?;
    }
    for class in 0..count {
        let Some(parent) = hierarchy.parent(class) else {
            continue;
        };
        if let Some(heirs) = heirs.get_mut(parent) {
            heirs.push(class)?;
        }
    }
    Ok(heirs)
}
