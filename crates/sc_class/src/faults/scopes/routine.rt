//! Routines: where the name of a formal, a local, an object test or a block's head clashes.

ghost use Rattle.std.specs.Prelude.{◌≡◌, [], OnOk};
ghost use Rattle.sc_tree.specs.View.{kind_of};
ghost use Rattle.sc_tree.specs.declared.system.FeatureKind.TheVariants as kind;
ghost use Rattle.sc_class.specs.Internal.Places.{union};
ghost use Rattle.sc_class.specs.Internal.ScopeSearch as search;

use crate::faults::places::Places;
use crate::faults::scopes::expressions::in_clauses;
use crate::faults::scopes::features::Features;
use crate::faults::scopes::instructions::in_instructions;
use crate::faults::scopes::names::declare_entities;
use crate::names::NameIndex;
use sc_tree::{FeatureKind, Routine};
use std::alloc::{AllocError, Global};

/// Finds where names clash in a feature of a class that has these features. It goes over the feature once, and looks for
/// each name twice by hash; then, for a name that clashes, among all features. Locals are known in the body alone, and
/// an attribute has no names of its own.
#[tactic(auto, unfolding(crate::specs::Internal::ScopeSearch::kind_clash, crate::specs::Internal::Places::union, sc_tree::specs::View::kind_of))]
pub fn in_feature(
    alloc: Global,
    features: &Features,
    kind: &FeatureKind,
    found: &mut Places,
) -> Result<(), AllocError>
    ensures { OnOk result (found.new ≡ union found.old (search.kind_clash features.now (kind_of kind.now))) }
{
    match kind {
        FeatureKind::Attribute(_) => Ok(()),
        FeatureKind::Routine(routine) => in_routine(alloc, features, routine, found),
    }
}

/// Looks at a routine.
fn in_routine(
    alloc: Global,
    features: &Features,
    routine: &Routine,
    found: &mut Places,
) -> Result<(), AllocError>
    ensures { OnOk result (found.new
        ≡ union found.old (search.kind_clash features.now (kind_of (kind.Routine routine.now)))) }
{
    let mut known = NameIndex::new(alloc);
    in_parts(features, &mut known, routine, found)
}

/// Looks at a routine. Only the names of its class's features are in scope yet.
fn in_parts<'s>(
    features: &Features,
    known: &mut NameIndex<'s>,
    routine: &'s Routine,
    found: &mut Places,
) -> Result<(), AllocError>
    requires { known.old ≡ [] }
    ensures { OnOk result (found.new
        ≡ union found.old (search.kind_clash features.now (kind_of (kind.Routine routine.now)))) }
{
    declare_entities(features, known, &routine.formals, found)?;
    in_clauses(features, known, &routine.precondition, found)?;
    in_clauses(features, known, &routine.postcondition, found)?;
    declare_entities(features, known, &routine.locals, found)?;
    in_instructions(features, known, &routine.body, found)
}
