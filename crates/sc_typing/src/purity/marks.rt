//! Marks of the features that aren't pure functions.

ghost use Rattle.std.specs.Prelude.{◌≡◌};
ghost use Rattle.sc_typing.specs.FeatureNumbers.{pure_by};
ghost use Rattle.sc_class.specs.SystemIn.{system_in};

use crate::purity::numbering::Numbering;

/// The features of a system, with a mark on each that is no pure function.
#[derive(Drop)]
pub struct Marks<'t, 's> {
    pub numbering: Numbering<'t, 's>,
    /// By number, whether the feature is no pure function.
    pub impure: Vec<bool>,
}

impl<'t, 's> Marks<'t, 's> {
    /// Whether the routine of this name that the class at the number declares is a pure function.
    pub fn is_pure(&self, class: usize, name: &str) -> bool
        ensures { result ≡ pure_by (system_in self.now.numbering.tables.now) self.now.impure.items
            (record { class = class; name = name.now }) }
    {
        match self.numbering.number(class, name) {
            None => false,
            Some(number) => match self.impure.get(number) {
                None => false,
                Some(is_impure) => !*is_impure,
            },
        }
    }
}
