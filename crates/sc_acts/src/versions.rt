//! What names are in the classes of a program.
ghost use Rattle.std.specs.Prelude.{◌≡◌};
ghost use Rattle.sc_acts.specs.Entering.{routine_in};
ghost use Rattle.sc_acts.specs.Tables.{version_in};

use sc_code::{ClassNumber, FeatureCode, NameNumber, Program};

/// What the name of a number is in the class of a number.
#[inline(always)]
pub fn version_in(program: &Program, class: ClassNumber, name: NameNumber) -> Option<FeatureCode>
    ensures { result ≡ version_in program.now.image class name }
{
    let code = program.classes().get(usize::from(class))?;
    *code.features.get(name as usize)?
}

/// The number of the routine of the name in the class, if it is one there.
#[inline(always)]
pub fn routine_of(program: &Program, class: ClassNumber, name: NameNumber) -> Option<usize>
    ensures { result ≡ routine_in (version_in program.now.image class name) }
{
    match version_in(program, class, name) {
        Some(FeatureCode::Routine(routine)) => Some(routine),
        Some(FeatureCode::Attribute(_)) | None => None,
    }
}
