//! Functions without attached separate formals, and what is done in the body of a routine.

ghost use Rattle.std.specs.Prelude.{◌≡◌, not, map, IfOk, IfErr};
ghost use Rattle.std.specs.List.{list_all};
ghost use Rattle.sc_tree.specs.Plain as plain;
ghost use Rattle.sc_tree.specs.View.{declaration_of, kind_of, routine_of};
ghost use Rattle.sc_rules.specs.Purity as purity_specs;
ghost use Rattle.sc_rules.specs.JudgingPurity as spec;
ghost use Rattle.sc_class.specs.SystemIn.{system_in};
ghost use Rattle.sc_check.specs.purity.Internal.Effects.{effect_of, Adds, all_effects};
ghost use Rattle.sc_typing.specs.declared.fault.CheckFault.TheVariants.{OutOfMemory};

use crate::purity::body::add_instructions;
use crate::purity::effects::{Effect, add_side_effect_if};
use sc_class::Tables;
use sc_tree::{Declaration, FeatureKind, Routine};
use sc_typing::{CheckFault, Purity, RoutineContext, add_formals, add_locals, is_own, result_type};
use std::alloc::Global;

/// Whether the formal is attached and separate.
fn reserves(formal: &Declaration) -> bool
    ensures { result ≡ purity_specs.reserves (declaration_of formal.now) }
{
    !formal.declared_type.is_detachable && !is_own(&formal.declared_type.tag)
}

/// Whether no formal is attached and separate.
fn reserves_none(formals: &[Declaration]) -> bool
    ensures { result ≡ list_all (λ d. not (purity_specs.reserves d)) (map declaration_of formals.now) }
{
    for formal in formals {
        if reserves(formal) {
            return false;
        }
    }
    true
}

/// Whether it is a function without attached separate formals.
#[tactic(auto, unfolding(sc_tree::specs::View::kind_of))]
pub fn is_pure_candidate(kind: &FeatureKind) -> bool
    ensures { result ≡ purity_specs.is_pure_candidate (kind_of kind.now) }
{
    match kind {
        FeatureKind::Attribute(_) => false,
        FeatureKind::Routine(routine) => match &routine.result_type {
            None => false,
            Some(_) => reserves_none(&routine.formals),
        },
    }
}

/// Adds the effects of the body of a routine of this class to these.
fn add_body<'s>(
    alloc: Global,
    tables: &Tables<'s>,
    class: usize,
    declared: &'s Routine,
    effects: &mut Vec<Effect<'s>>,
) -> Result<(), CheckFault>
    ensures { Adds effects.old.items effects.new.items
        (spec.effects_of_kind (system_in tables.now) class (plain.Routine (routine_of declared.now))) result }
{
    let mut names = Vec::new(alloc);
    add_formals(tables, &declared.formals, &mut names)?;
    add_locals(tables, &declared.formals, &declared.locals, &mut names)?;
    let routine = RoutineContext {
        alloc,
        tables,
        class,
        formals: &declared.formals,
        result: result_type(tables, &declared.result_type),
        purity: &Purity::NotAsked,
    };
    add_instructions(&routine, &names, &declared.body, effects)
}

/// Adds what is done in the body of what a class declares.
#[tactic(auto, unfolding(sc_tree::specs::View::kind_of))]
fn add_kind<'s>(
    alloc: Global,
    tables: &Tables<'s>,
    class: usize,
    kind: &'s FeatureKind,
    effects: &mut Vec<Effect<'s>>,
) -> Result<(), CheckFault>
    ensures { Adds effects.old.items effects.new.items
        (spec.effects_of_kind (system_in tables.now) class (kind_of kind.now)) result }
{
    match kind {
        FeatureKind::Attribute(_) => Ok(()),
        FeatureKind::Routine(routine) => add_body(alloc, tables, class, routine, effects),
    }
}

/// What bears on the purity of the routine of this name that the class at the number declares. What isn't a function
/// without attached separate formals does what no pure function does, and so does what isn't declared.
#[tactic(auto, unfolding(sc_tree::specs::View::feature_of))]
pub fn effects_of<'s>(
    alloc: Global,
    tables: &Tables<'s>,
    class: usize,
    name: &str,
) -> Result<Vec<Effect<'s>>, CheckFault>
    ensures effects { IfOk result (λ effects. map effect_of effects.items
        ≡ all_effects (system_in tables.now) (record { class = class; name = name.now })) }
    ensures memory { IfErr result (λ e. e ≡ OutOfMemory) }
{
    let mut effects = Vec::new(alloc);
    match tables.declared(class, name) {
        None => {
            add_side_effect_if(&mut effects, true)?;
            Ok(effects)
        }
        Some(declared) => {
            add_side_effect_if(&mut effects, !is_pure_candidate(&declared.feature.kind))?;
            add_kind(alloc, tables, class, &declared.feature.kind, &mut effects)?;
            Ok(effects)
        }
    }
}
