//! What is done that bears on purity.

ghost use Rattle.std.specs.Prelude.{◌≡◌, map, IfOk};
ghost use Rattle.std.specs.Option.{option_map};
ghost use Rattle.sc_tree.specs.View.{name_of, target_of};
ghost use Rattle.sc_class.specs.View.{entry_of};
ghost use Rattle.sc_rules.specs.Names as names_specs;
ghost use Rattle.sc_rules.specs.JudgingPurity as spec;
ghost use Rattle.sc_typing.specs.Views.{routine_in, entity_of, meaning_in, assignee_in};
ghost use Rattle.sc_class.specs.SystemIn.{system_in};
ghost use Rattle.sc_check.specs.purity.Internal.Effects.{Adds};

use sc_class::FeatureEntry;
use sc_rules::entity_types::EntityType;
use sc_tree::Call;
use sc_typing::{Assignee, CheckFault, Entity, Meaning, RoutineContext, is_foreign_type};

/// What bears on purity.
#[derive(Clone, Copy)]
pub enum Effect<'s> {
    /// Something that no pure function does.
    SideEffect,
    /// A call of a routine.
    RoutineCall(FeatureEntry<'s>),
}

/// Adds a side effect, which no pure function has, if there is one.
pub fn add_side_effect_if(effects: &mut Vec<Effect>, is_done: bool) -> Result<(), CheckFault>
    ensures { Adds effects.old.items effects.new.items (spec.side_effect_if is_done) result }
{
    if !is_done {
        return Ok(());
    }
    effects.push(Effect::SideEffect)?;
    Ok(())
}

/// Adds a call of the routine, if it is one.
fn add_routine<'s>(
    effects: &mut Vec<Effect<'s>>,
    routine: Option<FeatureEntry<'s>>,
) -> Result<(), CheckFault>
    ensures { Adds effects.old.items effects.new.items
        (spec.call_if_any (option_map (λ e. names_specs.routine_of (entry_of e)) routine.entry)) result }
{
    let Some(routine) = routine else {
        return Ok(());
    };
    effects.push(Effect::RoutineCall(routine))?;
    Ok(())
}

/// Whether what is assigned is an attribute.
pub fn is_to_attribute(assigned: Assignee) -> bool
    ensures { result ≡ spec.is_to_attribute (assignee_in assigned) }
{
    match assigned {
        Assignee::Attribute(_) => true,
        Assignee::Unknown | Assignee::NotAssignable | Assignee::Local(_) => false,
    }
}

/// Adds a call of what is meant.
#[tactic(auto, using(crate::proofs::purity::EffectSteps::added_two))]
fn add_meaning<'s>(
    routine: &RoutineContext<'_, 's>,
    effects: &mut Vec<Effect<'s>>,
    meaning: &Meaning<'s>,
) -> Result<(), CheckFault>
    ensures { Adds effects.old.items effects.new.items
        (spec.effects_of_meaning (meaning_in (system_in routine.now.tables.now) meaning.now)) result }
{
    match meaning {
        Meaning::Unknown | Meaning::TargetUntyped => Ok(()),
        Meaning::Named(signature) => {
            add_side_effect_if(effects, signature.gives.is_none())?;
            add_routine(effects, signature.routine)?;
            Ok(())
        }
    }
}

/// Adds a call whose target has this type, if it has one, apart from what is done in its target and its actuals; gives
/// what is meant.
#[tactic(auto, using(crate::proofs::purity::EffectSteps::added_two))]
pub fn add_named<'s>(
    routine: &RoutineContext<'_, 's>,
    names: &[Entity<'s>],
    call: &Call,
    receiver: Option<EntityType>,
    effects: &mut Vec<Effect<'s>>,
) -> Result<Meaning<'s>, CheckFault>
    ensures effects { Adds effects.old.items effects.new.items
        (spec.effects_of_name (routine_in routine.now) (map entity_of names.now) (target_of call.now.target) receiver
        (name_of call.now.name)) result }
    ensures meaning { IfOk result (λ m. meaning_in (system_in routine.now.tables.now) m
        ≡ names_specs.meaning_of (routine_in routine.now) (map entity_of names.now) (target_of call.now.target)
        receiver (name_of call.now.name)) }
{
    let meaning = routine.meaning_of(names, &call.target, receiver, &call.name);
    add_side_effect_if(effects, is_foreign_type(receiver))?;
    add_meaning(routine, effects, &meaning)?;
    Ok(meaning)
}
