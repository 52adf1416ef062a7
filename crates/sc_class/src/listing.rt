//! All faults of a system's classes.

ghost use Rattle.std.specs.Prelude.{◌≡◌, ◌++◌, IfOk, OnOk, map};
ghost use Rattle.std.specs.List.Sorted.{IsPermutation, IsSortedBy};
ghost use Rattle.std.specs.Ordering.{is_lt};
ghost use Rattle.sc_tree.specs.View.{system_of};
ghost use Rattle.sc_class.specs.Faults.ClassRules.{Fails, code_number};
ghost use Rattle.sc_class.specs.Faults.FaultList.{AreClassFaults, BeginsWithFirst, start_of};
ghost use Rattle.sc_class.specs.Faults.FaultList as fault_list;
ghost use Rattle.sc_class.specs.View.{root_of};
ghost use Rattle.sc_class.specs.Internal.Found.{FindsOnly};
ghost use Rattle.sc_class.specs.Internal.Listing as listed;
ghost use Rattle.sc_class.specs.Internal.Listing.{IsCycle, IsLeftOut, IsLimit, IsNoRoot, IsRepeated, IsUnknown, OfClasses, OfFeatures, OfOutline};
ghost use Rattle.sc_class.specs.Internal.Places.{Gains, if_any};
ghost use Rattle.sc_class.specs.Internal.Systems.{in_hierarchy, in_outline};

use crate::class_tables::hierarchy::Hierarchy;
use crate::class_tables::outline::Outline;
use crate::fault::ClassFault;
use crate::faults::cycles::cycle;
use crate::faults::features::feature_faults;
use crate::faults::left_out::{Exclusion, exclusions};
use crate::faults::limits::passes_limit;
use crate::faults::parents::{repeated_classes, unknown_parents};
use crate::faults::root_procedure::has_root;
use crate::root::Root;
use sc_text::Span;
use sc_tree::System;
use std::alloc::{AllocError, Global};
use std::cmp::Ordering;

/// The faults that have a place and nothing else.
#[derive(Clone, Copy)]
enum PlacedFault {
    DuplicateClass,
    UnknownParent,
    Cycle,
    DuplicateFeature,
    BadRedefinition,
}

/// The fault of this kind at a place.
fn fault_at(kind: PlacedFault, span: Span) -> ClassFault
    ensures { result ≡ listed.fault_at kind span }
{
    match kind {
        PlacedFault::DuplicateClass => ClassFault::DuplicateClass { span },
        PlacedFault::UnknownParent => ClassFault::UnknownParent { span },
        PlacedFault::Cycle => ClassFault::Cycle { span },
        PlacedFault::DuplicateFeature => ClassFault::DuplicateFeature { span },
        PlacedFault::BadRedefinition => ClassFault::BadRedefinition { span },
    }
}

/// Adds a fault of this kind at each of the places.
fn add_placed(
    faults: &mut Vec<ClassFault>,
    kind: PlacedFault,
    places: &[Span],
) -> Result<(), AllocError>
    ensures { OnOk result (faults.new.items ≡ faults.old.items ++ map (listed.fault_at kind) places.now) }
{
    for place in places {
        faults.push(fault_at(kind, *place))?;
    }
    Ok(())
}

/// Adds a fault, if there is one.
fn add_if_any(faults: &mut Vec<ClassFault>, fault: Option<ClassFault>) -> Result<(), AllocError>
    ensures { OnOk result (faults.new.items ≡ faults.old.items ++ if_any fault) }
{
    if let Some(fault) = fault {
        faults.push(fault)?;
    }
    Ok(())
}

/// Adds the faults of these exclusions.
fn add_exclusions(faults: &mut Vec<ClassFault>, exclusions: &[Exclusion]) -> Result<(), AllocError>
    ensures { OnOk result (faults.new.items ≡ faults.old.items ++ map listed.left_out_fault exclusions.now) }
{
    for exclusion in exclusions {
        faults.push(ClassFault::LeftOut {
            what: exclusion.what,
            span: exclusion.span,
        })?;
    }
    Ok(())
}

/// Adds C1.
fn add_repeated(
    alloc: Global,
    hierarchy: &Hierarchy,
    faults: &mut Vec<ClassFault>,
) -> Result<(), AllocError>
    ensures { OnOk result (Gains (IsRepeated (in_hierarchy hierarchy.now)) faults.old.items faults.new.items) }
{
    let places = repeated_classes(alloc, hierarchy)?;
    add_placed(faults, PlacedFault::DuplicateClass, places.as_slice())
}

/// Adds C2.
fn add_unknown(
    alloc: Global,
    hierarchy: &Hierarchy,
    faults: &mut Vec<ClassFault>,
) -> Result<(), AllocError>
    ensures { OnOk result (Gains (IsUnknown (in_hierarchy hierarchy.now)) faults.old.items faults.new.items) }
{
    let places = unknown_parents(alloc, hierarchy)?;
    add_placed(faults, PlacedFault::UnknownParent, places.as_slice())
}

/// The fault C3, if it is there.
fn cycle_fault(alloc: Global, hierarchy: &Hierarchy) -> Result<Option<ClassFault>, AllocError>
    ensures { IfOk result (FindsOnly (IsCycle (in_hierarchy hierarchy.now))) }
{
    match cycle(alloc, hierarchy)? {
        None => Ok(None),
        Some(span) => Ok(Some(ClassFault::Cycle { span })),
    }
}

/// Adds the faults of classes alone: C1 to C3.
fn add_faults_of_classes(
    alloc: Global,
    hierarchy: &Hierarchy,
    faults: &mut Vec<ClassFault>,
) -> Result<(), AllocError>
    ensures { OnOk result (Gains (OfClasses (in_hierarchy hierarchy.now)) faults.old.items faults.new.items) }
{
    add_repeated(alloc, hierarchy, faults)?;
    add_unknown(alloc, hierarchy, faults)?;
    add_if_any(faults, cycle_fault(alloc, hierarchy)?)
}

/// Adds C4 and C5.
fn add_faults_of_features(
    alloc: Global,
    outline: &Outline,
    faults: &mut Vec<ClassFault>,
) -> Result<(), AllocError>
    ensures { OnOk result (Gains (OfFeatures (in_outline outline.now)) faults.old.items faults.new.items) }
{
    let found = feature_faults(alloc, outline)?;
    add_placed(
        faults,
        PlacedFault::DuplicateFeature,
        found.clash.as_slice(),
    )?;
    add_placed(
        faults,
        PlacedFault::BadRedefinition,
        found.redefinition.as_slice(),
    )
}

/// The fault C6, if it is there.
fn root_fault(
    alloc: Global,
    outline: &Outline,
    root: &Root,
) -> Result<Option<ClassFault>, AllocError>
    ensures { IfOk result (FindsOnly (IsNoRoot (in_outline outline.now) (root_of root.now))) }
{
    if has_root(alloc, outline, root)? {
        Ok(None)
    } else {
        Ok(Some(ClassFault::NoRoot))
    }
}

/// The fault C7, if it is there.
fn limit_fault(alloc: Global, outline: &Outline) -> Result<Option<ClassFault>, AllocError>
    ensures { IfOk result (FindsOnly (IsLimit (in_outline outline.now))) }
{
    if passes_limit(alloc, outline)? {
        Ok(Some(ClassFault::Limit))
    } else {
        Ok(None)
    }
}

/// Adds C8.
fn add_left_out(
    alloc: Global,
    hierarchy: &Hierarchy,
    faults: &mut Vec<ClassFault>,
) -> Result<(), AllocError>
    ensures { OnOk result (Gains (IsLeftOut (in_hierarchy hierarchy.now)) faults.old.items faults.new.items) }
{
    let found = exclusions(alloc, hierarchy)?;
    add_exclusions(faults, &found)
}

/// Adds the faults that take more than the classes alone: C4 to C8.
fn add_other_faults(
    alloc: Global,
    outline: &Outline,
    root: &Root,
    faults: &mut Vec<ClassFault>,
) -> Result<(), AllocError>
    ensures { OnOk result (Gains (OfOutline (in_outline outline.now) (root_of root.now))
        faults.old.items faults.new.items) }
{
    add_faults_of_features(alloc, outline, faults)?;
    add_if_any(faults, root_fault(alloc, outline, root)?)?;
    add_if_any(faults, limit_fault(alloc, outline)?)?;
    add_left_out(alloc, &outline.hierarchy, faults)
}

/// Adds all faults.
fn add_faults(
    alloc: Global,
    system: &System,
    root: &Root,
    faults: &mut Vec<ClassFault>,
) -> Result<(), AllocError>
    ensures { OnOk result (Gains (Fails (system_of system.now) (root_of root.now))
        faults.old.items faults.new.items) }
{
    let hierarchy = Hierarchy::of(alloc, system)?;
    add_faults_of_classes(alloc, &hierarchy, faults)?;
    let outline = Outline::of(alloc, hierarchy)?;
    add_other_faults(alloc, &outline, root, faults)
}

/// The number of a fault's code.
fn code(fault: &ClassFault) -> u8
    ensures { result ≡ code_number fault.now }
{
    match fault {
        ClassFault::DuplicateClass { .. } => 1,
        ClassFault::UnknownParent { .. } => 2,
        ClassFault::Cycle { .. } => 3,
        ClassFault::DuplicateFeature { .. } => 4,
        ClassFault::BadRedefinition { .. } => 5,
        ClassFault::NoRoot => 6,
        ClassFault::Limit => 7,
        ClassFault::LeftOut { .. } => 8,
        ClassFault::OutOfMemory => 0,
    }
}

/// Where the place of a fault begins, if it has one.
fn start(fault: &ClassFault) -> u32
    ensures { result ≡ start_of fault.now }
{
    match fault {
        ClassFault::DuplicateClass { span }
        | ClassFault::UnknownParent { span }
        | ClassFault::Cycle { span }
        | ClassFault::DuplicateFeature { span }
        | ClassFault::BadRedefinition { span }
        | ClassFault::LeftOut { span, .. } => span.start,
        ClassFault::NoRoot | ClassFault::Limit | ClassFault::OutOfMemory => 0,
    }
}

/// Whether a fault is to be listed before another one.
fn comes_before(one: &ClassFault, other: &ClassFault) -> bool
    ensures { result ≡ fault_list.comes_before one.now other.now }
{
    code(one) < code(other) || code(one) == code(other) && start(one) < start(other)
}

/// The order in which two faults are to be listed.
fn compare(one: &ClassFault, other: &ClassFault) -> Ordering
    ensures { is_lt result ≡ fault_list.comes_before one.now other.now }
{
    if comes_before(one, other) {
        Ordering::Less
    } else if comes_before(other, one) {
        Ordering::Greater
    } else {
        Ordering::Equal
    }
}

/// Puts faults in the order of their codes, and those of one code in the order of the text.
fn sort(faults: &mut Vec<ClassFault>)
    ensures permutation { IsPermutation faults.old.items faults.new.items }
    ensures sorted { IsSortedBy fault_list.comes_before faults.new.items }
{
    faults.sort_unstable_by(
        |one: &ClassFault, other: &ClassFault| -> Ordering
            ensures { is_lt result ≡ fault_list.comes_before one.now other.now }
        { compare(one, other) },
    );
}

/// All faults of a system's classes with this root, in the order of their codes, and those of one code in the order of
/// the text. The first, if there is one, is what [`tables`] returns.
///
/// [`tables`]: crate::tables
pub fn class_faults(
    alloc: Global,
    system: &System,
    root: &Root,
) -> Result<Vec<ClassFault>, AllocError>
    ensures listed { IfOk result (λ faults.
        AreClassFaults (system_of system.now) (root_of root.now) faults.items) }
    ensures first { IfOk result (λ faults. BeginsWithFirst (system_of system.now) (root_of root.now) faults.items) }
{
    let mut faults = Vec::new(alloc);
    add_faults(alloc, system, root, &mut faults)?;
    sort(&mut faults);
    Ok(faults)
}
