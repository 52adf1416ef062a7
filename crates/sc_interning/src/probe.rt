//! What is looked for.
ghost use Rattle.std.specs.Prelude.{◌<◌, ◌↔◌, ℕ, IsTrue};

/// What is looked for among numbers.
pub trait Probe {
    // It can be asked of the numbers below this one.
    ghost count: { Self → ℕ };

    // The number is one that is looked for.
    ghost Fits: { Self → ℕ → Type 0 };

    /// Whether the number is one that is looked for.
    fn fits(&self, number: u32) -> bool
        requires { number < count self.now }
        ensures { IsTrue result ↔ Fits self.now number };
}
