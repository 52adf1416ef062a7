//! The search for the features that aren't pure functions, through all features.

ghost use Rattle.std.specs.Prelude.{◌≡◌, ◌<◌, ◌+◌, ℕ, OnOk, IfErr, IfOk, length, Some, All, Contains};
ghost use Rattle.sc_typing.specs.FeatureNumbers.{all_features, pure_by};
ghost use Rattle.sc_class.specs.SystemIn.{system_in};
ghost use Rattle.sc_check.specs.purity.Internal.Effects.{effect_of};
ghost use Rattle.sc_typing.specs.declared.fault.CheckFault.TheVariants.{OutOfMemory};
ghost use Rattle.sc_rules.specs.Purity.{IsPurity};
ghost use Rattle.sc_check.specs.purity.Internal.ImpureSearch.{AreCallers, Collects, MarksAll, MarksOf, MarksRunners, Records, RunsNumber};
ghost use Rattle.sc_check.specs.purity.Internal.Versions.{nearest_in, nearest_above};

use crate::purity::candidate::{effects_of, is_pure_candidate};
use crate::purity::effects::Effect;
use crate::purity::search::{Callers, Search};
use sc_class::ClassId;
use sc_typing::{CheckFault, Numbering};
use std::alloc::{AllocError, Global};

/// Marks these features.
fn mark_all(search: &mut Search, numbers: &[usize]) -> Result<(), AllocError>
    requires { All (λ k. k < length search.old.impure.items) numbers.now }
    ensures { OnOk result (MarksAll (Contains numbers.now) search.old search.new) }
{
    for number in numbers {
        search.mark_impure(*number)?;
    }
    Ok(())
}

/// Marks the feature at the number, if there is one.
fn mark_if_any(search: &mut Search, number: Option<usize>) -> Result<(), AllocError>
    requires { (k : ℕ) → number ≡ Some k → k < length search.old.impure.items }
    ensures { OnOk result (MarksAll (λ k. number ≡ Some k) search.old search.new) }
{
    match number {
        None => Ok(()),
        Some(number) => {
            search.mark_impure(number)?;
            Ok(())
        }
    }
}

/// The number of the feature of this name in the first of the classes that declares one.
fn nearest(numbering: &Numbering, classes: &[usize], name: &str) -> Option<usize>
    ensures { result ≡ nearest_in (system_in numbering.now.tables.now) name.now classes.now }
{
    for class in classes {
        if let Some(number) = numbering.number(*class, name) {
            return Some(number);
        }
    }
    None
}

/// The number of the version that the routine of this name of the class at the number redefines, if there is one.
fn nearest_above(numbering: &Numbering, class: usize, name: &str) -> Option<usize>
    ensures { result ≡ nearest_above (system_in numbering.now.tables.now) (record { class = class; name = name.now }) }
{
    let Some(parent) = numbering.tables.parent(class) else {
        return None;
    };
    let classes = numbering.tables.ancestors(ClassId::Declared(parent));
    nearest(numbering, classes, name)
}

/// Records an effect of a feature: marks it if no pure function has that effect, and makes it a caller of what it
/// calls.
fn record_effect(
    numbering: &Numbering,
    search: &mut Search,
    callers: &mut Callers,
    number: usize,
    effect: Effect,
) -> Result<(), AllocError>
    requires searched { number < length search.old.impure.items }
    requires as_many { length callers.old.lists.items ≡ length (all_features (system_in numbering.now.tables.now)) }
    ensures { let s = system_in numbering.now.tables.now in
        OnOk result (Records s search.old callers.old search.new callers.new number (effect_of effect.entry)) }
{
    match effect {
        Effect::SideEffect => {
            search.mark_impure(number)?;
            Ok(())
        }
        Effect::RoutineCall(called) => {
            let Some(called) = numbering.number(called.class, called.feature.name.as_str()) else {
                return Ok(());
            };
            callers.add(called, number)?;
            Ok(())
        }
    }
}

/// Records the effects of a feature, after those before it.
fn collect_effects(
    alloc: Global,
    numbering: &Numbering,
    search: &mut Search,
    callers: &mut Callers,
    number: usize,
) -> Result<(), CheckFault>
    requires collected { Collects (system_in numbering.now.tables.now) search.old callers.old number }
    requires in_range { number < length numbering.now.features.items }
    ensures collected { OnOk result (Collects (system_in numbering.now.tables.now) search.new callers.new
        (number + 1)) }
    ensures memory { IfErr result (λ fault. fault ≡ OutOfMemory) }
{
    let entry = numbering.features[number];
    let effects = effects_of(
        alloc,
        numbering.tables,
        entry.class,
        entry.feature.name.as_str(),
    )?;
    for effect in &effects {
        record_effect(numbering, search, callers, number, *effect)?;
    }
    Ok(())
}

/// Marks those that may run the feature at the number: its callers, and the version that it redefines. The versions above
/// that one are marked as it is looked at.
fn mark_runners(
    numbering: &Numbering,
    search: &mut Search,
    callers: &Callers,
    number: usize,
) -> Result<(), AllocError>
    requires in_range { number < length numbering.now.features.items }
    requires as_many { length search.old.impure.items ≡ length (all_features (system_in numbering.now.tables.now)) }
    requires callers { AreCallers (system_in numbering.now.tables.now) callers.now.lists.items
        (length (all_features (system_in numbering.now.tables.now))) }
    ensures { let s = system_in numbering.now.tables.now in
        OnOk result (MarksOf (RunsNumber s number) search.old search.new
        × MarksRunners s number search.new.impure.items) }
{
    mark_all(search, callers.of(number))?;
    let entry = numbering.features[number];
    let above = nearest_above(numbering, entry.class, entry.feature.name.as_str());
    mark_if_any(search, above)?;
    Ok(())
}

/// Marks the features that aren't pure functions.
pub fn impure_features(alloc: Global, numbering: &Numbering) -> Result<Vec<bool>, CheckFault>
    ensures pure { let s = system_in numbering.now.tables.now in
        IfOk result (λ impure. IsPurity s (pure_by s impure.items)) }
    ensures memory { IfErr result (λ fault. fault ≡ OutOfMemory) }
{
    let count = numbering.features.len();
    let mut search = Search::new(alloc, count)?;
    let mut callers = Callers::new(alloc, count)?;
    for number in 0..count {
        collect_effects(alloc, numbering, &mut search, &mut callers, number)?;
    }
    while let Some(found) = search.todo.pop() {
        mark_runners(numbering, &mut search, &callers, found)?;
    }
    Ok(search.impure)
}
