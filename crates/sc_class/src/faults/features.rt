//! The faults of the features of classes, which are looked for along the lines of inheritance.

ghost use Rattle.std.specs.Prelude.{◌≡◌, ℕ, [], false, Some, IfOk, OnOk, length, slice_get, unwrap_or};
ghost use Rattle.sc_tree.specs.View.{class_of};
ghost use Rattle.sc_class.specs.Internal.FeatureFaults.{AddsThoseOf, AreFirst, AreFound, AreOfAll, Goes, IsDone, Marks};
ghost use Rattle.sc_class.specs.Internal.Lines.{GoesOn, KnowsAbove, Stands};
ghost use Rattle.sc_class.specs.Internal.Systems.{in_outline};

use crate::class_tables::line::Line;
use crate::class_tables::order::down_from_parents;
use crate::class_tables::outline::Outline;
use crate::faults::class_clashes::{find_clashes_in_texts, find_clashes_of_features};
use crate::faults::places::Places;
use crate::faults::redefinition::find_bad_redefinitions;
use sc_text::Span;
use sc_tree::Class;
use std::alloc::{AllocError, Global};

/// The places at which names clash, and those at which something is badly redefined.
#[derive(Drop)]
pub struct FeatureFaults {
    pub clash: Places,
    pub redefinition: Places,
}

/// The first place at which names clash, and the first at which something is badly redefined.
#[derive(Clone, Copy)]
pub struct FirstFaults {
    pub clash: Option<Span>,
    pub redefinition: Option<Span>,
}

/// Finds what is at fault in a class, where the line knows what it inherits. The line goes on to the class.
fn find_below<'s>(
    alloc: Global,
    outline: &Outline<'s>,
    line: &mut Line<'s>,
    number: usize,
    class: &'s Class,
    found: &mut FeatureFaults,
) -> Result<(), AllocError>
    requires known { KnowsAbove (in_outline outline.now) number line.old }
    requires text { slice_get (in_outline outline.now).classes number ≡ Some (class_of class.now) }
    ensures found { OnOk result (AddsThoseOf (in_outline outline.now) number (class_of class.now) found.old found.new) }
    ensures stands { OnOk result (GoesOn (in_outline outline.now) number line.old line.new) }
{
    let features = &class.features;
    find_clashes_of_features(alloc, outline, &*line, number, features, &mut found.clash)?;
    find_bad_redefinitions(outline, &*line, number, class, &mut found.redefinition)?;
    line.enter(alloc, outline, number, class)?;
    find_clashes_in_texts(alloc, outline, &*line, number, class, &mut found.clash)
}

/// Finds what is at fault in a class. The line goes on to the class if it has reached its parent.
fn find_in_class<'s>(
    alloc: Global,
    outline: &Outline<'s>,
    line: &mut Line<'s>,
    number: usize,
    class: &'s Class,
    found: &mut FeatureFaults,
) -> Result<(), AllocError>
    requires stands { Stands (in_outline outline.now) line.old }
    requires text { slice_get (in_outline outline.now).classes number ≡ Some (class_of class.now) }
    ensures found { OnOk result (AddsThoseOf (in_outline outline.now) number (class_of class.now) found.old found.new) }
    ensures stands { OnOk result (Stands (in_outline outline.now) line.new) }
{
    line.return_to(&outline.hierarchy, outline.hierarchy.parent(number))?;
    if line.is_above(&outline.hierarchy, number) {
        return find_below(alloc, outline, line, number, class, found);
    }
    let mut above = Line::above(alloc, outline, number)?;
    find_below(alloc, outline, &mut above, number, class, found)
}

/// Whether the class at the number is done.
fn is_done(done: &[bool], number: usize) -> bool
    ensures { result ≡ unwrap_or (slice_get done.now number) false }
{
    done.get(number).copied().unwrap_or(false)
}

/// Marks the class at the number as done.
fn mark(done: &mut [bool], number: usize)
    ensures { Marks number done.old done.new }
{
    if number < done.len() {
        done[number] = true;
    }
}

/// Finds what is at fault in the class at the number, unless it is done.
fn find_at<'s>(
    alloc: Global,
    outline: &Outline<'s>,
    line: &mut Line<'s>,
    done: &mut [bool],
    number: usize,
    found: &mut FeatureFaults,
) -> Result<(), AllocError>
    requires stands { Stands (in_outline outline.now) line.old }
    requires found { AreFound (in_outline outline.now) done.old found.old }
    ensures found { OnOk result (AreFound (in_outline outline.now) done.new found.new) }
    ensures stands { OnOk result (Stands (in_outline outline.now) line.new) }
    ensures done { OnOk result (Goes (in_outline outline.now) number done.old done.new) }
{
    if is_done(&*done, number) {
        return Ok(());
    }
    let Some(class) = outline.class(number) else {
        return Ok(());
    };
    find_in_class(alloc, outline, line, number, class, found)?;
    mark(done, number);
    Ok(())
}

/// Finds what is at fault in these classes.
fn find_in_order<'s>(
    alloc: Global,
    outline: &Outline<'s>,
    line: &mut Line<'s>,
    done: &mut [bool],
    order: &[usize],
    found: &mut FeatureFaults,
) -> Result<(), AllocError>
    requires stands { Stands (in_outline outline.now) line.old }
    requires found { AreFound (in_outline outline.now) done.old found.old }
    ensures found { OnOk result (AreFound (in_outline outline.now) done.new found.new) }
    ensures stands { OnOk result (Stands (in_outline outline.now) line.new) }
    ensures length { OnOk result (length done.new ≡ length done.old) }
{
    for number in order {
        find_at(alloc, outline, line, done, *number, found)?;
    }
    Ok(())
}

/// Finds what is at fault in the classes that aren't done yet.
fn find_in_rest<'s>(
    alloc: Global,
    outline: &Outline<'s>,
    line: &mut Line<'s>,
    done: &mut [bool],
    found: &mut FeatureFaults,
) -> Result<(), AllocError>
    requires stands { Stands (in_outline outline.now) line.old }
    requires found { AreFound (in_outline outline.now) done.old found.old }
    requires length { length done.old ≡ length (in_outline outline.now).classes }
    ensures { OnOk result (AreOfAll (in_outline outline.now) found.new) }
{
    for number in 0..done.len() {
        find_at(alloc, outline, line, done, number, found)?;
    }
    Ok(())
}

/// No class is done.
fn none_done(alloc: Global, outline: &Outline) -> Result<Vec<bool>, AllocError>
    ensures { IfOk result (λ done. (length done.items ≡ length (in_outline outline.now).classes)
        × ((k : ℕ) → IsDone done.items k → ⊥)) }
{
    vec![in alloc; false; outline.hierarchy.classes().len()]
}

/// Finds what is at fault in these classes, and then in the others.
fn find_in_order_and_rest<'s>(
    alloc: Global,
    outline: &Outline<'s>,
    line: &mut Line<'s>,
    done: &mut [bool],
    order: &[usize],
    found: &mut FeatureFaults,
) -> Result<(), AllocError>
    requires stands { Stands (in_outline outline.now) line.old }
    requires found { AreFound (in_outline outline.now) done.old found.old }
    requires length { length done.old ≡ length (in_outline outline.now).classes }
    ensures { OnOk result (AreOfAll (in_outline outline.now) found.new) }
{
    find_in_order(alloc, outline, line, done, order, found)?;
    find_in_rest(alloc, outline, line, done, found)
}

/// Finds what is at fault in the features of the classes: first in parents, then in their heirs, and at last in classes
/// that inherit from themselves.
fn find_in_all(
    alloc: Global,
    outline: &Outline,
    found: &mut FeatureFaults,
) -> Result<(), AllocError>
    requires nothing { (found.old.clash ≡ []) × (found.old.redefinition ≡ []) }
    ensures { OnOk result (AreOfAll (in_outline outline.now) found.new) }
{
    let mut line = Line::new(alloc);
    let mut done = none_done(alloc, outline)?;
    let order = down_from_parents(alloc, &outline.hierarchy)?;
    find_in_order_and_rest(alloc, outline, &mut line, &mut done, &order, found)
}

/// What is at fault in the features of the classes.
pub fn feature_faults(alloc: Global, outline: &Outline) -> Result<FeatureFaults, AllocError>
    ensures { IfOk result (AreOfAll (in_outline outline.now)) }
{
    let mut found = FeatureFaults {
        clash: Places::new(alloc),
        redefinition: Places::new(alloc),
    };
    find_in_all(alloc, outline, &mut found)?;
    Ok(found)
}

/// What is first at fault in the features of the classes.
pub fn first_feature_faults(alloc: Global, outline: &Outline) -> Result<FirstFaults, AllocError>
    ensures { IfOk result (AreFirst (in_outline outline.now)) }
{
    let found = feature_faults(alloc, outline)?;
    Ok(FirstFaults {
        clash: found.clash.first(),
        redefinition: found.redefinition.first(),
    })
}
