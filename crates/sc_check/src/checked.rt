//! A system in which no rule fails.

ghost use Rattle.std.specs.Prelude.{◌≡◌};
ghost use Rattle.sc_class.specs.SystemIn.{system_in};
ghost use Rattle.sc_rules.specs.SystemRules.{WellFormed};
ghost use Rattle.sc_check.specs.CheckedSystems.{IsChecked};

mod checking;

pub use checking::check;
use sc_class::Tables;

/// The tables of a well-formed system. [`check`] alone makes them.
#[derive(Drop)]
pub struct Checked<'s> {
    tables: Tables<'s>,
    pub ghost well_formed: { WellFormed (system_in tables) },
    pub ghost checked: { ∥ IsChecked (system_in tables) ∥₁ },
}

impl<'s> Checked<'s> {
    ghost use Rattle.sc_check.specs.CheckedTables.{tables_of};

    /// The tables of the system, at once.
    pub fn tables(&self) -> &Tables<'s>
        ensures same { result.now ≡ tables_of self.now }
        ensures well_formed { WellFormed (system_in result.now) }
        ensures checked { ∥ IsChecked (system_in result.now) ∥₁ }
    {
        &self.tables
    }
}
