//! Which functions of a system are pure: those that have no attached separate formals, and whose bodies do nothing
//! that no pure function does and call pure functions alone, in heirs too. The definition is that of `sc_rules`.
//!
//! [`pure_functions`] returns a [`Purity`], a test that separates them from the other features.

ghost use Rattle.std.specs.Prelude.{◌≡◌, IfErr, IfOk};
ghost use Rattle.sc_rules.specs.Purity.{IsPurity};
ghost use Rattle.sc_typing.specs.Marks.{is_marked};
ghost use Rattle.sc_class.specs.SystemIn.{system_in};
ghost use Rattle.sc_typing.specs.declared.fault.CheckFault.TheVariants.{OutOfMemory};

mod body;
mod candidate;
mod effects;
mod impure_search;
mod search;
mod walk;

use crate::purity::impure_search::impure_features;
use sc_class::Tables;
use sc_typing::{CheckFault, Marks, Numbering, Purity};
use std::alloc::Global;

/// The test that separates the pure functions of a system from all others. It takes time in proportion to the text,
/// to its calls, and to the ancestors of each routine's class. It fails only if no memory is left.
pub fn pure_functions<'t, 's>(
    alloc: Global,
    tables: &'t Tables<'s>,
) -> Result<Purity<'t, 's>, CheckFault>
    ensures pure { IfOk result (λ purity. IsPurity (system_in tables.now) (is_marked purity)) }
    ensures memory { IfErr result (λ fault. fault ≡ OutOfMemory) }
{
    let numbering = Numbering::of(alloc, tables)?;
    let impure = impure_features(alloc, &numbering)?;
    Ok(Purity::Known(Marks { numbering, impure }))
}
