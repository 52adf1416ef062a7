//! The faults that are found.

ghost use Rattle.std.specs.Prelude.{◌≡◌, [], ◌++◌, OnOk};
ghost use Rattle.sc_faults.specs.FaultLists.{begins_with, is_same_fault};
ghost use Rattle.sc_faults.specs.Internal.Listing as listing;
ghost use Rattle.sc_faults.specs.Internal.Adding.{AddsFaults};

use sc_check::is_same_span;
use sc_rules::Fault;
use sc_typing::CheckFault;
use std::alloc::AllocError;

/// Whether two faults are of the same rule at the same place.
fn is_same(one: Fault, other: Fault) -> bool
    ensures { result ≡ is_same_fault one other }
{
    is_same_span(one.span, other.span) && one.rule.code() == other.rule.code()
}

/// Whether the first of the faults is this one.
fn begins_with(fault: Fault, faults: &[Fault]) -> bool
    ensures { result ≡ begins_with fault faults.now }
{
    match faults {
        [] => false,
        [first, ..] => is_same(fault, *first),
    }
}

/// Adds the fault of a site, then those of its operands, which may begin with it.
pub fn add_first(
    fault: Fault,
    operands: &mut Vec<Fault>,
    faults: &mut Vec<Fault>,
) -> Result<(), AllocError>
    ensures { OnOk result (faults.new.items ≡ faults.old.items ++ listing.with_first fault operands.old.items) }
{
    if begins_with(fault, operands) {
        faults.append(operands)
    } else {
        faults.push(fault)?;
        faults.append(operands)
    }
}

/// Adds the fault that judging a site has reported, if it has reported one, then those of its operands.
pub fn add(
    judged: &Result<(), CheckFault>,
    operands: &mut Vec<Fault>,
    faults: &mut Vec<Fault>,
) -> Result<(), AllocError>
    ensures { AddsFaults judged.now operands.old.items result faults.old.items faults.new.items }
{
    match judged {
        Ok(()) => faults.append(operands),
        Err(CheckFault::Refused(fault)) => add_first(*fault, operands, faults),
        Err(CheckFault::OutOfMemory) => Err(AllocError),
    }
}

/// Adds the fault that judging a site without operands has reported, if it has reported one.
pub fn add_alone(judged: Result<(), CheckFault>, faults: &mut Vec<Fault>) -> Result<(), AllocError>
    ensures { AddsFaults judged [] result faults.old.items faults.new.items }
{
    match judged {
        Ok(()) => Ok(()),
        Err(CheckFault::Refused(fault)) => {
            faults.push(fault)?;
            Ok(())
        }
        Err(CheckFault::OutOfMemory) => Err(AllocError),
    }
}
