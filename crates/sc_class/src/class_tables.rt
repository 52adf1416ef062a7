//! The tables of a system's classes.

ghost use Rattle.std.specs.Prelude.{◌≡◌, ◌<◌, ℕ, List, length};
ghost use Rattle.sc_tree.specs.View.{system_of};
ghost use Rattle.sc_class.specs.Tables.Ancestors.{ancestors};
ghost use Rattle.sc_class.specs.Faults.ClassRules.{IsFaultless};
ghost use Rattle.sc_class.specs.View.{root_of};
ghost use Rattle.sc_class.specs.Internal.AncestorLists.{ancestors_in};
ghost use Rattle.sc_class.specs.Internal.KnownFeatures.{declarer, declarer_known};

pub mod ancestry;
pub mod conformance;
pub mod declared_names;
pub mod feature_entry;
pub mod found_features;
pub mod hierarchy;
pub mod known_features;
pub mod line;
pub mod order;
pub mod outline;
mod queries;

use crate::class_tables::known_features::KnownFeatures;
use crate::class_tables::outline::Outline;
use crate::root::Root;

/// The classes of a system without a fault: each by name and by number, with its ancestors and its features,
/// and what the system is run from.
#[derive(Drop)]
pub struct Tables<'s> {
    outline: Outline<'s>,
    root: Root,
    ancestors_of_each: Vec<Vec<usize>>,
    known: Vec<KnownFeatures<'s>>,
    pub ghost faultless: { IsFaultless (system_of outline.hierarchy.system.now) (root_of root) },
    ghost as_many: { length ancestors_of_each.items ≡ length (system_of outline.hierarchy.system.now).classes },
    ghost are_ancestors: { (k : ℕ) → k < length ancestors_of_each.items → ancestors_in ancestors_of_each.items k
        ≡ ancestors (system_of outline.hierarchy.system.now) k },
    ghost all_known: { length known.items ≡ length (system_of outline.hierarchy.system.now).classes },
    ghost are_known: { (k : ℕ) → k < length known.items → (x : List ℕ) → declarer_known known.items k x
        ≡ declarer (system_of outline.hierarchy.system.now) k x },
}
