//! Whether a system is well formed.

ghost use Rattle.std.specs.Prelude.{◌≡◌, IfErr, IfOk, OnOk};
ghost use Rattle.sc_rules.specs.JudgingSystem as judging_system;
ghost use Rattle.sc_rules.specs.SystemRules.{WellFormed};
ghost use Rattle.sc_check.specs.CheckFaults.{IsFirstOf, IsTrueOf};
ghost use Rattle.sc_check.specs.CheckedSystems.{IsChecked};
ghost use Rattle.sc_check.specs.CheckedTables.{tables_of};
ghost use Rattle.sc_typing.specs.Judges.{Passes};
ghost use Rattle.sc_typing.specs.Marks.{is_marked};
ghost use Rattle.sc_class.specs.SystemIn.{system_in};
ghost use Rattle.sc_typing.specs.declared.fault.CheckFault.TheVariants.{OutOfMemory};

use crate::checked::Checked;
use crate::declarations::ClassText;
use crate::purity::pure_functions;
use sc_class::Tables;
use sc_typing::{CheckFault, Purity};
use std::alloc::Global;

/// The text of each class, in the order of the source.
fn judge_classes<'t, 's>(
    alloc: Global,
    tables: &'t Tables<'s>,
    purity: &'t Purity<'t, 's>,
) -> Result<(), CheckFault>
    ensures { Passes (judging_system.judge_system (system_in tables.now) (is_marked purity.now)) result }
{
    let classes = tables.classes();
    for class in 0..classes.len() {
        let text = ClassText {
            alloc,
            tables,
            purity,
            class,
        };
        text.judge_class(&classes[class])?;
    }
    Ok(())
}

/// Whether no rule fails in the system of the tables.
fn judge_system(alloc: Global, tables: &Tables) -> Result<(), CheckFault>
    ensures accepted { OnOk result (WellFormed (system_in tables.now)) }
    ensures checked { OnOk result (IsChecked (system_in tables.now)) }
    ensures refused { IfErr result (IsTrueOf (system_in tables.now)) }
    ensures first { IfErr result (IsFirstOf (system_in tables.now)) }
{
    let purity = pure_functions(alloc, tables)?;
    judge_classes(alloc, tables, &purity)
}

/// The tables of a well-formed system; else a rule that fails in it, and where. Of several it is the first in this
/// walk: the text of each class in order, in it the `create` list, the features and the invariant; in a feature its
/// types, `require`, `local`, body and `ensure`; operands before their operator; a target before the actuals, and these
/// before the call. Of several at one place it is the one of the least number.
///
/// The tables of a refused system are dropped. The walk takes time in proportion to the source, but for the look-ups of
/// features along ancestors and for the search for pure functions.
pub fn check<'s>(alloc: Global, tables: Tables<'s>) -> Result<Checked<'s>, CheckFault>
    ensures accepted { OnOk result (WellFormed (system_in tables.entry)) }
    ensures checked { OnOk result (IsChecked (system_in tables.entry)) }
    ensures of_it { IfOk result (λ checked. tables_of checked ≡ tables.entry) }
    ensures refused { IfErr result (IsTrueOf (system_in tables.entry)) }
    ensures first { IfErr result (IsFirstOf (system_in tables.entry)) }
    ensures complete { WellFormed (system_in tables.entry) → IfErr result (λ fault. fault ≡ OutOfMemory) }
{
    judge_system(alloc, &tables)?;
    Ok(Checked { tables })
}
