//! Whether a system has tables.

ghost use Rattle.std.specs.Prelude.{◌≡◌, ◌⊎◌, IfOk, IfErr, OnOk};
ghost use Rattle.sc_tree.specs.View.{system_of};
ghost use Rattle.sc_class.specs.Faults.ClassRules.{Fails, HasLeastCode, IsFaultless, IsPlacedFirst};
ghost use Rattle.sc_class.specs.SystemIn.{root_in, system_in};
ghost use Rattle.sc_class.specs.View.{root_of};
ghost use Rattle.sc_class.specs.Internal.NoFaults.{ClassesStand, FeaturesStand, RestStands};
ghost use Rattle.sc_class.specs.declared.fault.ClassFault.TheVariants.{OutOfMemory};
ghost use Rattle.sc_class.specs.Internal.Systems.{in_hierarchy, in_outline};

use crate::class_tables::Tables;
use crate::class_tables::hierarchy::Hierarchy;
use crate::class_tables::outline::Outline;
use crate::fault::ClassFault;
use crate::faults::cycles::cycle;
use crate::faults::features::first_feature_faults;
use crate::faults::left_out::left_out;
use crate::faults::limits::passes_limit;
use crate::faults::parents::{repeated_class, unknown_parent};
use crate::faults::root_procedure::has_root;
use crate::root::Root;
use sc_tree::System;
use std::alloc::Global;

/// The faults of classes alone.
fn refuse_classes(alloc: Global, hierarchy: &Hierarchy, root: &Root) -> Result<(), ClassFault>
    ensures none { OnOk result (ClassesStand (in_hierarchy hierarchy.now)) }
    ensures fault { IfErr result (λ fault. (fault ≡ OutOfMemory)
        ⊎ Fails (in_hierarchy hierarchy.now) (root_of root.now) fault) }
    ensures first { IfErr result (λ fault. (fault ≡ OutOfMemory)
        ⊎ HasLeastCode (in_hierarchy hierarchy.now) (root_of root.now) fault) }
    ensures place { IfErr result (IsPlacedFirst (in_hierarchy hierarchy.now) (root_of root.now)) }
{
    if let Some(span) = repeated_class(alloc, hierarchy)? {
        return Err(ClassFault::DuplicateClass { span });
    }
    if let Some(span) = unknown_parent(alloc, hierarchy)? {
        return Err(ClassFault::UnknownParent { span });
    }
    if let Some(span) = cycle(alloc, hierarchy)? {
        return Err(ClassFault::Cycle { span });
    }
    Ok(())
}

/// The faults of features, and of what the system is run from.
fn refuse_features(alloc: Global, outline: &Outline, root: &Root) -> Result<(), ClassFault>
    ensures none { OnOk result (FeaturesStand (in_outline outline.now) (root_of root.now)) }
    ensures fault { IfErr result (λ fault. (fault ≡ OutOfMemory)
        ⊎ Fails (in_outline outline.now) (root_of root.now) fault) }
    ensures first { let s = in_outline outline.now in
        IfErr result (λ fault. (fault ≡ OutOfMemory) ⊎ (ClassesStand s → HasLeastCode s (root_of root.now) fault)) }
    ensures place { IfErr result (IsPlacedFirst (in_outline outline.now) (root_of root.now)) }
{
    let faults = first_feature_faults(alloc, outline)?;
    if let Some(span) = faults.clash {
        return Err(ClassFault::DuplicateFeature { span });
    }
    if let Some(span) = faults.redefinition {
        return Err(ClassFault::BadRedefinition { span });
    }
    if !has_root(alloc, outline, root)? {
        return Err(ClassFault::NoRoot);
    }
    Ok(())
}

/// The limits, and what the language leaves out.
fn refuse_rest(alloc: Global, outline: &Outline, root: &Root) -> Result<(), ClassFault>
    ensures none { OnOk result (RestStands (in_outline outline.now)) }
    ensures fault { IfErr result (λ fault. (fault ≡ OutOfMemory)
        ⊎ Fails (in_outline outline.now) (root_of root.now) fault) }
    ensures first { let s = in_outline outline.now in let r = root_of root.now in
        IfErr result (λ fault. (fault ≡ OutOfMemory)
        ⊎ (ClassesStand s → FeaturesStand s r → HasLeastCode s r fault)) }
    ensures place { IfErr result (IsPlacedFirst (in_outline outline.now) (root_of root.now)) }
{
    if passes_limit(alloc, outline)? {
        return Err(ClassFault::Limit);
    }
    if let Some(excluded) = left_out(alloc, &outline.hierarchy)? {
        return Err(ClassFault::LeftOut {
            what: excluded.what,
            span: excluded.span,
        });
    }
    Ok(())
}

/// The classes of a system, if no fault is in their names and their parents.
fn sound_hierarchy<'s>(
    alloc: Global,
    system: &'s System,
    root: &Root,
) -> Result<Hierarchy<'s>, ClassFault>
    ensures none { OnOk result (ClassesStand (system_of system.now)) }
    ensures of_it { IfOk result (λ hierarchy. hierarchy.system.now ≡ system.now) }
    ensures fault { IfErr result (λ fault. (fault ≡ OutOfMemory)
        ⊎ Fails (system_of system.now) (root_of root.now) fault) }
    ensures first { IfErr result (λ fault. (fault ≡ OutOfMemory)
        ⊎ HasLeastCode (system_of system.now) (root_of root.now) fault) }
    ensures place { IfErr result (IsPlacedFirst (system_of system.now) (root_of root.now)) }
{
    let hierarchy = Hierarchy::of(alloc, system)?;
    refuse_classes(alloc, &hierarchy, root)?;
    Ok(hierarchy)
}

/// The classes of a system with their declarations, if they have no other fault.
fn sound_outline<'s>(
    alloc: Global,
    hierarchy: Hierarchy<'s>,
    root: &Root,
) -> Result<Outline<'s>, ClassFault>
    ensures features { OnOk result (FeaturesStand (in_hierarchy hierarchy.entry) (root_of root.now)) }
    ensures rest { OnOk result (RestStands (in_hierarchy hierarchy.entry)) }
    ensures of_it { IfOk result (λ outline. outline.hierarchy.system.now ≡ hierarchy.entry.system.now) }
    ensures fault { IfErr result (λ fault. (fault ≡ OutOfMemory)
        ⊎ Fails (in_hierarchy hierarchy.entry) (root_of root.now) fault) }
    ensures first { let s = in_hierarchy hierarchy.entry in
        IfErr result (λ fault. (fault ≡ OutOfMemory) ⊎ (ClassesStand s → HasLeastCode s (root_of root.now) fault)) }
    ensures place { IfErr result (IsPlacedFirst (in_hierarchy hierarchy.entry) (root_of root.now)) }
{
    let outline = Outline::of(alloc, hierarchy)?;
    refuse_features(alloc, &outline, root)?;
    refuse_rest(alloc, &outline, root)?;
    Ok(outline)
}

/// Makes the tables of a system with this root, or returns a fault of its classes: of the first code that has one,
/// the first in the text.
pub fn tables<'s>(alloc: Global, system: &'s System, root: &Root) -> Result<Tables<'s>, ClassFault>
    ensures faultless { OnOk result (IsFaultless (system_of system.now) (root_of root.now)) }
    ensures of_it { IfOk result (λ tables. system_in tables ≡ system_of system.now) }
    ensures rooted { IfOk result (λ tables. root_in tables ≡ root_of root.now) }
    ensures fault { IfErr result (λ fault. (fault ≡ OutOfMemory)
        ⊎ Fails (system_of system.now) (root_of root.now) fault) }
    ensures first { IfErr result (λ fault. (fault ≡ OutOfMemory)
        ⊎ HasLeastCode (system_of system.now) (root_of root.now) fault) }
    ensures place { IfErr result (IsPlacedFirst (system_of system.now) (root_of root.now)) }
{
    let hierarchy = sound_hierarchy(alloc, system, root)?;
    let outline = sound_outline(alloc, hierarchy, root)?;
    Ok(Tables::of(alloc, outline, root)?)
}
