//! What the code of instructions needs.

ghost use Rattle.std.specs.Prelude.{◌≡◌, max};

/// What a piece of code needs at most while it runs.
#[derive(Clone, Copy)]
pub struct Needs {
    /// How many operands.
    pub depth: usize,
    /// How many slots, counted from the first one.
    pub slots: usize,
    /// How many of its separate blocks are open at once.
    pub blocks: usize,
}

impl Needs {
    /// The needs of code that takes this number of operands and nothing else.
    pub fn of_operands(depth: usize) -> Needs
        ensures depth { result.depth ≡ depth }
        ensures slots { result.slots ≡ 0 }
        ensures blocks { result.blocks ≡ 0 }
    {
        Needs {
            depth,
            slots: 0,
            blocks: 0,
        }
    }

    /// Those of two pieces of code, one after the other.
    pub fn then(self, other: Needs) -> Needs
        ensures depth { result.depth ≡ max self.depth other.depth }
        ensures slots { result.slots ≡ max self.slots other.slots }
        ensures blocks { result.blocks ≡ max self.blocks other.blocks }
    {
        Needs {
            depth: self.depth.max(other.depth),
            slots: self.slots.max(other.slots),
            blocks: self.blocks.max(other.blocks),
        }
    }
}
