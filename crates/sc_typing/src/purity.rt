//! Which functions are pure.

ghost use Rattle.std.specs.Prelude.{◌≡◌};
ghost use Rattle.sc_typing.specs.Marks.{is_marked};

mod marks;
mod numbering;

pub use marks::Marks;
pub use numbering::Numbering;

/// A test that separates the pure functions of a system from its other features.
#[derive(Drop)]
pub enum Purity<'t, 's> {
    /// Every function is taken for pure.
    NotAsked,
    /// The pure functions are known.
    Known(Marks<'t, 's>),
}

impl<'t, 's> Purity<'t, 's> {
    /// Whether the routine of this name that the class at the number declares is a pure function. It looks once by
    /// hash.
    pub fn is_pure(&self, class: usize, name: &str) -> bool
        ensures { result ≡ is_marked self.now (record { class = class; name = name.now }) }
    {
        match self {
            Purity::NotAsked => true,
            Purity::Known(marks) => marks.is_pure(class, name),
        }
    }
}
