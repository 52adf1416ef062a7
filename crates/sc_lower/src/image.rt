//! Images: systems in flat code.

ghost use Rattle.std.specs.Prelude.{◌≡◌, ◌≤◌, ◌<◌, ℕ, Some, IfErr, IfOk};
ghost use Rattle.sc_class.specs.declared.identity.ClassId.TheVariants as class_id;
ghost use Rattle.sc_class.specs.ClassNames.{number_of};
ghost use Rattle.sc_class.specs.SystemIn.{root_in, system_in};
ghost use Rattle.sc_lower.specs.declared.refusal.LoweringFault.TheVariants.{CodeTooLong};
ghost use Rattle.sc_rules.specs.SystemRules.{WellFormed};
ghost use Rattle.sc_code.specs.Programs.{IsProgramOf, code_length};
ghost use Rattle.sc_code.specs.RequestRoom.{FitsRequests};

use crate::link_tables::Linker;
use crate::program::class_code::class_codes;
use crate::program::routines::{features_in_order, lower_routines};
use crate::refusal::LoweringFault;
use crate::sums::within_32_bits;
use sc_class::{ClassId, Tables};
use sc_code::{ClassNumber, Image};
use sc_typing::Numbering;
use std::alloc::Global;

/// The number of a class that the text declares.
fn declared_number(class: Option<ClassId>) -> Option<usize>
    ensures { (k : ℕ) → class ≡ Some (class_id.Declared k) → result ≡ Some k }
{
    match class {
        Some(ClassId::Declared(number)) => Some(number),
        _ => None,
    }
}

/// The number of the class that the system is run from.
fn root_class(tables: &Tables) -> ClassNumber
    ensures { number_of (system_in tables.now) (root_in tables.now).class ≡ Some result }
{
    match declared_number(tables.class_named(&tables.root().class)) {
        Some(number) => number as ClassNumber,
        None => unreachable!(),
    }
}

/// The system in flat code, of at most `most` instructions.
pub fn image<'s>(alloc: Global, tables: &'s Tables<'s>, most: u32) -> Result<Image, LoweringFault>
    requires { WellFormed (system_in tables.now) }
    ensures image { IfOk result (IsProgramOf (system_in tables.now) (root_in tables.now)) }
    ensures fits_requests { IfOk result FitsRequests }
    ensures fits { IfOk result (λ image. image.instructions ≤ most) }
    ensures too_long { IfErr result (λ refusal. refusal ≡ CodeTooLong → most < code_length (system_in tables.now)) }
{
    let features = features_in_order(alloc, tables)?;
    let mut linker = Linker::new(alloc);
    let routines = lower_routines(alloc, tables, &mut linker, &features, most)?;
    let root_procedure = linker.names.number(&tables.root().procedure)?;
    let pool = linker.into_pool()?;
    let _names = within_32_bits(pool.names.len())?;
    let numbering = Numbering::of(alloc, tables)?;
    let classes = class_codes(alloc, &numbering, &pool.names)?;
    Ok(Image {
        pool,
        classes,
        routines: routines.codes,
        root_class: root_class(tables),
        root_procedure,
        instructions: routines.instructions,
    })
}
