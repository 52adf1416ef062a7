//! What a store looks up in a program.
ghost use Rattle.std.specs.Prelude.{◌≡◌, ◌≤◌, Some, IfOk, IfSome, vec_len};
ghost use Rattle.std.specs.Option.{option_map};
ghost use Rattle.sc_region.specs.Classes as at;

use crate::value::Value;
use sc_code::{ClassCode, ClassNumber, Program, RoutineCode};
use std::alloc::{AllocError, Global};

/// The class of the number, which has at most 256 attributes.
pub fn class_at(program: &Program, class: ClassNumber) -> Option<&ClassCode>
    ensures class { option_map (λ code. code.now) result ≡ at.class_at program.now.image class }
    ensures few { IfSome result (λ code. vec_len code.now.attributes ≤ 256) }
{
    class_numbered(program, usize::from(class))
}

/// The class with this number, if there is one, for any number.
#[inline(always)]
pub fn class_numbered(program: &Program, number: usize) -> Option<&ClassCode>
    ensures class { option_map (λ code. code.now) result ≡ at.class_at program.now.image number }
    ensures few { IfSome result (λ code. vec_len code.now.attributes ≤ 256) }
{
    program.classes().get(number)
}

/// The default of each attribute of a class.
pub fn defaults(alloc: Global, code: &ClassCode) -> Result<Vec<Value>, AllocError>
    ensures defaults { IfOk result (λ values. values.items ≡ at.defaults_of (Some code.now)) }
    ensures count { IfOk result (λ values. vec_len values ≡ vec_len code.now.attributes) }
{
    code.attributes
        .iter()
        .map(|attribute| Value::of_default(attribute.default))
        .collect(alloc)
}

/// The routine of the number.
pub fn routine_at(program: &Program, routine: usize) -> Option<&RoutineCode>
    ensures { option_map (λ code. code.now) result ≡ at.routine_at program.now.image routine }
{
    program.routine(routine)
}
