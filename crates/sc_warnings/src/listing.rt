//! The warnings of a system.

ghost use Rattle.std.specs.Prelude.{◌≡◌, ◌++◌, IfOk, OnOk, map};
ghost use Rattle.std.specs.List.{flat_map};
ghost use Rattle.sc_tree.specs.View.{class_of, declaration_of, feature_of, routine_of, system_of};
ghost use Rattle.sc_warnings.specs.Warnings as spec;
ghost use Rattle.sc_warnings.specs.Views.{site_of};

use crate::conditions::{add_clause_warnings, add_conditions, add_if};
use crate::routines::{add_body, sites_of_system};
use crate::sites::{Site, has};
use crate::waiting::add_require;
use crate::warning::{Warning, WarningKind};
use sc_tree::{Class, Declaration, Feature, FeatureKind, Routine, System};
use std::alloc::{AllocError, Global};

/// Adds the warning of a local that is never read in a body.
fn add_local(
    body: &[Site],
    local: &Declaration,
    warnings: &mut Vec<Warning>,
) -> Result<(), AllocError>
    ensures { OnOk result (warnings.new.items ≡ warnings.old.items ++ spec.warnings_of_local (map site_of body.now)
        (declaration_of local.now)) }
{
    let is_unread = !has(Site::Used(local.name.as_str()), body);
    add_if(
        is_unread,
        WarningKind::UnreadLocal,
        local.name.span,
        warnings,
    )
}

/// Adds the warnings of locals that are never read in a body.
fn add_locals(
    body: &[Site],
    locals: &[Declaration],
    warnings: &mut Vec<Warning>,
) -> Result<(), AllocError>
    ensures { OnOk result (warnings.new.items ≡ warnings.old.items ++ flat_map (spec.warnings_of_local
        (map site_of body.now)) (map declaration_of locals.now)) }
{
    for local in locals {
        add_local(body, local, warnings)?;
    }
    Ok(())
}

/// Adds the warnings of a routine after its `require`.
#[tactic(auto, using(crate::proofs::Added::warned_three))]
fn add_after_require(
    body: &[Site],
    routine: &Routine,
    warnings: &mut Vec<Warning>,
) -> Result<(), AllocError>
    ensures { OnOk result (warnings.new.items ≡ warnings.old.items ++ spec.warnings_after_require (map site_of body.now)
        (routine_of routine.now)) }
{
    add_locals(body, &routine.locals, warnings)?;
    add_conditions(body, warnings)?;
    add_clause_warnings(&routine.postcondition, warnings)
}

/// Adds the warnings of a routine.
#[tactic(auto, using(crate::proofs::Added::warned_two))]
fn add_routine(
    alloc: Global,
    calls: &[Site],
    feature: &str,
    routine: &Routine,
    warnings: &mut Vec<Warning>,
) -> Result<(), AllocError>
    ensures { OnOk result (warnings.new.items ≡ warnings.old.items ++ spec.warnings_of_routine (map site_of calls.now)
        feature.now (routine_of routine.now)) }
{
    add_require(
        alloc,
        calls,
        feature,
        &routine.formals,
        &routine.precondition,
        warnings,
    )?;
    let mut body = Vec::new(alloc);
    add_body(alloc, routine, &mut body)?;
    add_after_require(&body, routine, warnings)
}

/// Adds the warnings of a feature.
#[tactic(auto, unfolding(sc_tree::specs::View::feature_of, sc_tree::specs::View::kind_of))]
fn add_feature(
    alloc: Global,
    calls: &[Site],
    feature: &Feature,
    warnings: &mut Vec<Warning>,
) -> Result<(), AllocError>
    ensures { OnOk result (warnings.new.items ≡ warnings.old.items ++ spec.warnings_of_feature (map site_of calls.now)
        (feature_of feature.now)) }
{
    match &feature.kind {
        FeatureKind::Attribute(_) => Ok(()),
        FeatureKind::Routine(routine) => {
            add_routine(alloc, calls, feature.name.as_str(), routine, warnings)
        }
    }
}

/// Adds the warnings of features.
fn add_features(
    alloc: Global,
    calls: &[Site],
    features: &[Feature],
    warnings: &mut Vec<Warning>,
) -> Result<(), AllocError>
    ensures { OnOk result (warnings.new.items ≡ warnings.old.items ++ flat_map (spec.warnings_of_feature
        (map site_of calls.now)) (map feature_of features.now)) }
{
    for feature in features {
        add_feature(alloc, calls, feature, warnings)?;
    }
    Ok(())
}

/// Adds the warnings of a class.
#[tactic(auto, unfolding(sc_tree::specs::View::class_of), using(crate::proofs::Added::warned_two))]
fn add_class(
    alloc: Global,
    calls: &[Site],
    class: &Class,
    warnings: &mut Vec<Warning>,
) -> Result<(), AllocError>
    ensures { OnOk result (warnings.new.items ≡ warnings.old.items ++ spec.warnings_of_class (map site_of calls.now)
        (class_of class.now)) }
{
    add_features(alloc, calls, &class.features, warnings)?;
    add_clause_warnings(&class.invariant, warnings)
}

/// Adds the warnings of classes.
fn add_classes(
    alloc: Global,
    calls: &[Site],
    classes: &[Class],
    warnings: &mut Vec<Warning>,
) -> Result<(), AllocError>
    ensures { OnOk result (warnings.new.items ≡ warnings.old.items ++ flat_map (spec.warnings_of_class
        (map site_of calls.now)) (map class_of classes.now)) }
{
    for class in classes {
        add_class(alloc, calls, class, warnings)?;
    }
    Ok(())
}

/// The warnings of a system, in the order of the text.
///
/// # Errors
///
/// Memory ran out.
pub fn warnings_of(alloc: Global, system: &System) -> Result<Vec<Warning>, AllocError>
    ensures { IfOk result (λ warnings. warnings.items ≡ spec.warnings_of (system_of system.now)) }
{
    let calls = sites_of_system(alloc, system)?;
    let mut warnings = Vec::new(alloc);
    add_classes(alloc, &calls, &system.classes, &mut warnings)?;
    Ok(warnings)
}
