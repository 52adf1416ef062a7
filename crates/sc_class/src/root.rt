//! What a system is run from.

ghost use Rattle.std.specs.Prelude.{◌≡◌, IfOk};
ghost use Rattle.sc_class.specs.View.{root_of};

use std::alloc::AllocError;

/// A class, and the procedure of its `create` list that makes the first object. Both names are in lower case.
#[derive(Drop)]
pub struct Root {
    pub class: String,
    pub procedure: String,
}

impl Root {
    /// A copy, in memory of its own.
    pub fn copied(&self) -> Result<Self, AllocError>
        ensures { IfOk result (λ copy. root_of copy ≡ root_of self.now) }
    {
        Ok(Root {
            class: self.class.clone()?,
            procedure: self.procedure.clone()?,
        })
    }
}
