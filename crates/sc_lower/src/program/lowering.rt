//! Lowers checked systems to programs.

ghost use Rattle.std.specs.Prelude.{◌≤◌, ◌^◌, IfErr, IfOk};
ghost use Rattle.sc_code.specs.RequestRoom.{FitsRequests};
ghost use Rattle.sc_lower.specs.Lowerings.{HandsBack, IsLowered, image_of};

use crate::image::image;
use crate::refusal::LoweringFault;
use sc_check::Checked;
use sc_code::Program;
use std::alloc::Global;
use std::fmt;
use thiserror::Error;

/// Why a checked system isn't lowered, with the system.
#[derive(Drop, Error)]
pub enum Lowering<'s> {
    /// No memory was left.
    #[error("out of memory")]
    OutOfMemory(Checked<'s>),
    /// The code has more instructions than it may have.
    #[error("the code has more instructions than it may have")]
    CodeTooLong(Checked<'s>),
}

impl fmt::Debug for Lowering<'_> {
    /// The message alone: a checked system isn't shown.
    fn fmt<W: fmt::Write>(&self, f: &mut fmt::Formatter<W>) -> fmt::Result {
        fmt::Display::fmt(self, f)
    }
}

/// How many instructions a program may have.
const MAX_INSTRUCTIONS: u32 = 1 << 24;

/// The checked system in flat code, of at most 2^24 instructions; or the system once more, where the code would have more
/// or no memory is left.
pub fn lower<'s>(alloc: Global, checked: Checked<'s>) -> Result<Program, Lowering<'s>>
    ensures lowered { IfOk result (IsLowered checked.entry) }
    ensures fits_requests { IfOk result (λ program. FitsRequests (image_of program)) }
    ensures fits { IfOk result (λ program. (image_of program).instructions ≤ 2 ^ 24) }
    ensures refused { IfErr result (HandsBack checked.entry (2 ^ 24)) }
{
    lower_within(alloc, checked, MAX_INSTRUCTIONS)
}

/// The checked system in flat code, of at most `most` instructions; or the system itself, if the code would have more
/// or memory ran out.
pub fn lower_within<'s>(
    alloc: Global,
    checked: Checked<'s>,
    most: u32,
) -> Result<Program, Lowering<'s>>
    ensures lowered { IfOk result (IsLowered checked.entry) }
    ensures fits_requests { IfOk result (λ program. FitsRequests (image_of program)) }
    ensures fits { IfOk result (λ program. (image_of program).instructions ≤ most) }
    ensures refused { IfErr result (HandsBack checked.entry most) }
{
    match image(alloc, checked.tables(), most) {
        Ok(image) => Ok(Program::of(image)),
        Err(LoweringFault::OutOfMemory) => Err(Lowering::OutOfMemory(checked)),
        Err(LoweringFault::CodeTooLong) => Err(Lowering::CodeTooLong(checked)),
    }
}
