//! Checked systems in flat code, and what they lend. Each is found at once.

ghost use Rattle.std.specs.Option.{option_map, option_map_or, option_and_then};
ghost use Rattle.std.specs.Prelude.{◌≡◌, slice_get};
ghost use Rattle.sc_code.specs.CheckedImages.{IsOfCheckedSystem};
ghost use Rattle.sc_code.specs.RequestRoom.{FitsRequests};

use crate::numbers::{ClassNumber, NameNumber};
use crate::program::{ClassCode, ConstantPool, Image, RoutineCode};

/// A checked system in flat code.
#[derive(Drop)]
pub struct Program {
    image: Image,
    pub ghost checked: { ∥ IsOfCheckedSystem image ∥₁ },
    pub ghost fits: { FitsRequests image },
}

impl Program {
    /// The program of some checked system whose image this is, and whose names, sites and blocks fit into requests.
    pub fn of(image: Image) -> Program
        requires checked { ∥ IsOfCheckedSystem image ∥₁ }
        requires fits { FitsRequests image }
        ensures { result.image ≡ image }
    {
        Program { image }
    }

    /// The classes by number.
    pub fn classes(&self) -> &[ClassCode]
        ensures { result.now ≡ self.now.image.classes.items }
    {
        &self.image.classes
    }

    /// The routine of the number, if the feature of this number is one.
    pub fn routine(&self, number: usize) -> Option<&RoutineCode>
        ensures { option_map (λ code. code.now) result ≡ option_and_then (λ code. code) (slice_get self.now.image.routines.items number) }
    {
        self.image.routines.get(number)?.as_ref()
    }

    /// How many instructions all routines have.
    pub fn instructions(&self) -> u32
        ensures { result ≡ self.now.image.instructions }
    {
        self.image.instructions
    }

    /// The greatest number of operands of the routine of the number; 0 where the feature of this number is none.
    pub fn depth(&self, routine: usize) -> u32
        ensures { result ≡ option_map_or (λ code. code.depth) (option_and_then (λ code. code) (slice_get self.now.image.routines.items routine)) 0 }
    {
        match self.routine(routine) {
            None => 0,
            Some(code) => code.depth as u32,
        }
    }

    /// The number of the class of the root object.
    pub fn root_class(&self) -> ClassNumber
        ensures { result ≡ self.now.image.root_class }
    {
        self.image.root_class
    }

    /// The number of the name of the procedure that the root object is created by.
    pub fn root_procedure(&self) -> NameNumber
        ensures { result ≡ self.now.image.root_procedure }
    {
        self.image.root_procedure
    }

    /// What operations name by number.
    pub fn pool(&self) -> &ConstantPool
        ensures { result.now ≡ self.now.image.pool }
    {
        &self.image.pool
    }
}
