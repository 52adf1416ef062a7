//! Routines with the contracts that they keep.

ghost use Rattle.std.specs.Prelude.{◌≡◌};
ghost use Rattle.std.specs.Borrow.{Bor};
ghost use Rattle.std.specs.Option.{option_map};
ghost use Rattle.sc_tree.specs.declared.system.Routine.{Routine};
ghost use Rattle.sc_tree.specs.View.{kind_of, routine_of};
ghost use Rattle.sc_class.specs.SystemIn.{system_in};
ghost use Rattle.sc_class.specs.Tables.Heirs.{topmost_along};
ghost use Rattle.sc_class.specs.View.{entry_of};
ghost use Rattle.sc_model.specs.Routines as routines;
ghost use Rattle.sc_routines.specs.Sources.{source_in};
ghost use Rattle.sc_lower.specs.Origins as origins;

use sc_class::{ClassId, FeatureEntry, Tables};
use sc_routines::RoutineSource;
use sc_tree::{FeatureKind, Routine};

/// The declaration of the name in the topmost of these classes, each the parent of the one before it, that declares it.
fn origin<'s>(tables: &Tables<'s>, name: &str, classes: &[usize]) -> Option<FeatureEntry<'s>>
    ensures { option_map entry_of result ≡ topmost_along (system_in tables.now) name.now classes.now }
{
    let count = classes.len();
    for done in 0..count {
        let place = count - 1 - done;
        if let Some(entry) = tables.declared(classes[place], name) {
            return Some(entry);
        }
    }
    None
}

/// The routine that a feature of the kind is.
#[tactic(auto, unfolding(sc_tree::specs::View::kind_of))]
fn routine_of<'s>(kind: &'s FeatureKind) -> Option<&'s Routine>
    ensures { option_map (λ (routine : Bor Routine). routine_of routine.now) result ≡ origins.routine_declared (kind_of kind.now) }
{
    match kind {
        FeatureKind::Attribute(_) => None,
        FeatureKind::Routine(routine) => Some(routine),
    }
}

/// The routine of a feature, with the contract of its first declaration, which is in the topmost class that declares its
/// name. It looks once by hash for each class above that one, and once there.
#[tactic(auto, unfolding(sc_tree::specs::View::feature_of))]
pub fn source<'s>(tables: &Tables<'s>, entry: FeatureEntry<'s>) -> Option<RoutineSource<'s>>
    ensures { option_map (source_in (system_in tables.now)) result ≡ routines.routine_of (system_in tables.now) (entry_of entry.entry) }
{
    let name = entry.feature.name.as_str();
    let origin = origin(
        tables,
        name,
        tables.ancestors(ClassId::Declared(entry.class)),
    )?;
    let routine = routine_of(&entry.feature.kind)?;
    let contract = routine_of(&origin.feature.kind)?;
    Some(RoutineSource {
        name,
        span: entry.feature.name.span,
        class: entry.class,
        routine,
        contract_class: origin.class,
        contract,
    })
}
