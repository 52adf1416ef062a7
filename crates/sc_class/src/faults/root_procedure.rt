//! The class and the procedure that a system is run from.

ghost use Rattle.std.specs.Prelude.{◌≡◌, IfOk};
ghost use Rattle.sc_tree.specs.View.{kind_of};
ghost use Rattle.sc_class.specs.Faults.ClassRules as class_rules;
ghost use Rattle.sc_class.specs.View.{root_of};
ghost use Rattle.sc_class.specs.Internal.Systems.{in_outline};

use crate::class_tables::known_features::KnownFeatures;
use crate::class_tables::outline::Outline;
use crate::root::Root;
use sc_tree::FeatureKind;
use std::alloc::{AllocError, Global};

/// Whether it is a procedure without formals.
#[tactic(auto, unfolding(sc_tree::specs::View::kind_of))]
fn is_plain_procedure(kind: &FeatureKind) -> bool
    ensures { result ≡ class_rules.is_plain_procedure (kind_of kind.now) }
{
    match kind {
        FeatureKind::Attribute(_) => false,
        FeatureKind::Routine(routine) => {
            routine.formals.is_empty() && routine.result_type.is_none()
        }
    }
}

/// Whether the class at the number creates its objects by this procedure.
#[tactic(auto, unfolding(sc_tree::specs::View::feature_of))]
fn creates_by(
    alloc: Global,
    outline: &Outline,
    number: usize,
    procedure: &str,
) -> Result<bool, AllocError>
    ensures { IfOk result (λ creates. creates ≡ class_rules.creates_by (in_outline outline.now) procedure.now number) }
{
    if !outline.creates(number, procedure) {
        return Ok(false);
    }
    let known = KnownFeatures::of(alloc, outline, number)?;
    match known.named(procedure) {
        None => Ok(false),
        Some(entry) => Ok(is_plain_procedure(&entry.feature.kind)),
    }
}

/// Whether there is a class of the root's name that creates its objects by the root's procedure.
pub fn has_root(alloc: Global, outline: &Outline, root: &Root) -> Result<bool, AllocError>
    ensures { IfOk result (λ has. has ≡ class_rules.has_root (in_outline outline.now) (root_of root.now)) }
{
    match outline.hierarchy.number(&root.class) {
        None => Ok(false),
        Some(number) => creates_by(alloc, outline, number, &root.procedure),
    }
}
