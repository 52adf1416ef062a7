//! The form of a clause of a class's invariant (ECMA-367, 8.9).

ghost use Rattle.sc_faults.specs.Internal.Adding.{AddsForm};

use crate::found::add_alone;
use sc_check::is_same_span;
use sc_rules::{Fault, Rule};
use sc_text::Span;
use sc_typing::{CheckFault, required};
use std::alloc::AllocError;

/// Adds the fault of a clause at this place that is no formula, unless the fault that judging it reported is there.
pub fn add_form(
    judged: &Result<(), CheckFault>,
    is_formula: bool,
    span: Span,
    faults: &mut Vec<Fault>,
) -> Result<(), AllocError>
    ensures { AddsForm judged.now is_formula span result faults.old.items faults.new.items }
{
    match judged {
        Ok(()) => Ok(()),
        Err(CheckFault::Refused(fault)) => {
            if is_same_span(fault.span, span) {
                Ok(())
            } else {
                add_alone(required(is_formula, Rule::InvariantForm, span), faults)
            }
        }
        Err(CheckFault::OutOfMemory) => Err(AllocError),
    }
}
