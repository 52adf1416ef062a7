//! Whether the operands of two routines, and what their postconditions keep, are equal.
ghost use Rattle.std.specs.Prelude.{◌≡◌, ◌↔◌, IsTrue};

use super::{Olds, Operands};
use crate::equality::same_values;

impl Operands {
    /// Whether they are equal and have equal room. It looks at each operand at most once.
    pub fn is_same(&self, other: &Operands) -> bool
        ensures { IsTrue result ↔ self.now ≡ other.now }
    {
        self.depth == other.depth
            && same_values(&self.items[..self.count], &other.items[..other.count])
    }
}

impl Olds {
    /// Whether they are equal and have equal room. It looks at each value at most once.
    pub fn is_same(&self, other: &Olds) -> bool
        ensures { IsTrue result ↔ self.now ≡ other.now }
    {
        self.room == other.room && same_values(&self.items, &other.items)
    }
}
