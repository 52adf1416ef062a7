//! What stands in routines.

ghost use Rattle.std.specs.Prelude.{◌≡◌, ◌++◌, IfOk, OnOk, map};
ghost use Rattle.std.specs.List.{flat_map};
ghost use Rattle.sc_tree.specs.View.{class_of, declaration_of, kind_of, routine_of, system_of, type_of};
ghost use Rattle.sc_warnings.specs.Warnings as spec;
ghost use Rattle.sc_warnings.specs.Views.{Adds, site_of};

use crate::instructions::{add_clauses, add_instructions};
use crate::sites::Site;
use sc_tree::{Class, Declaration, DeclaredType, FeatureKind, HandlerTag, Routine, System};
use std::alloc::{AllocError, Global};

/// Whether objects of a type may be another handler's.
pub fn is_separate(declared: &DeclaredType) -> bool
    ensures { result ≡ spec.is_separate (type_of declared.now).tag }
{
    match &declared.tag {
        HandlerTag::Own => false,
        HandlerTag::Separate | HandlerTag::HandlerOf(_) => true,
    }
}

/// Whether a routine reserves the handler of this formal.
fn is_reserved(formal: &Declaration) -> bool
    ensures { result ≡ spec.is_formal_reserved (declaration_of formal.now) }
{
    is_separate(&formal.declared_type) && !formal.declared_type.is_detachable
}

/// Adds the name of a formal whose handler is reserved.
fn add_reserved<'s>(formal: &'s Declaration, names: &mut Vec<&'s str>) -> Result<(), AllocError>
    ensures { OnOk result (map (λ name. name.now) names.new.items
        ≡ map (λ name. name.now) names.old.items ++ spec.name_if_reserved (declaration_of formal.now)) }
{
    if !is_reserved(formal) {
        return Ok(());
    }
    names.push(formal.name.as_str())?;
    Ok(())
}

/// The names of the formals whose handlers are reserved.
fn reserved_names<'s>(alloc: Global, formals: &'s [Declaration]) -> Result<Vec<&'s str>, AllocError>
    ensures { IfOk result (λ names. map (λ name. name.now) names.items
        ≡ spec.reserved_names (map declaration_of formals.now)) }
{
    let mut names = Vec::new(alloc);
    for formal in formals {
        add_reserved(formal, &mut names)?;
    }
    Ok(names)
}

/// Adds what stands in the body of a routine.
pub fn add_body<'s>(
    alloc: Global,
    routine: &'s Routine,
    sites: &mut Vec<Site<'s>>,
) -> Result<(), AllocError>
    ensures { Adds sites.old.items sites.new.items (spec.sites_of_body (routine_of routine.now)) result }
{
    let names = reserved_names(alloc, &routine.formals)?;
    add_instructions(alloc, &names, &routine.body, sites)
}

/// Adds what stands in a routine.
#[tactic(auto, using(crate::proofs::Added::added_three))]
fn add_routine<'s>(
    alloc: Global,
    routine: &'s Routine,
    sites: &mut Vec<Site<'s>>,
) -> Result<(), AllocError>
    ensures { Adds sites.old.items sites.new.items (spec.sites_of_routine (routine_of routine.now)) result }
{
    add_clauses(&[], &routine.precondition, sites)?;
    add_body(alloc, routine, sites)?;
    add_clauses(&[], &routine.postcondition, sites)
}

/// Adds what stands in a feature, if it is a routine.
#[tactic(auto, unfolding(sc_tree::specs::View::kind_of))]
fn add_kind<'s>(
    alloc: Global,
    kind: &'s FeatureKind,
    sites: &mut Vec<Site<'s>>,
) -> Result<(), AllocError>
    ensures { Adds sites.old.items sites.new.items (spec.sites_of_kind (kind_of kind.now)) result }
{
    match kind {
        FeatureKind::Attribute(_) => Ok(()),
        FeatureKind::Routine(routine) => add_routine(alloc, routine, sites),
    }
}

/// Adds what stands in the routines of a class.
fn add_class<'s>(
    alloc: Global,
    class: &'s Class,
    sites: &mut Vec<Site<'s>>,
) -> Result<(), AllocError>
    ensures { Adds sites.old.items sites.new.items (spec.sites_of_class (class_of class.now)) result }
{
    for feature in &class.features {
        add_kind(alloc, &feature.kind, sites)?;
    }
    Ok(())
}

/// What stands in the routines of a system.
pub fn sites_of_system<'s>(alloc: Global, system: &'s System) -> Result<Vec<Site<'s>>, AllocError>
    ensures { IfOk result (λ sites. map site_of sites.items ≡ spec.sites_of_system (system_of system.now)) }
{
    let mut sites = Vec::new(alloc);
    for class in &system.classes {
        add_class(alloc, class, &mut sites)?;
    }
    Ok(sites)
}
