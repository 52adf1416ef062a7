//! Routines as they are lowered.

use sc_text::Span;
use sc_tree::Routine;

/// A routine with the contract that it keeps.
#[derive(Clone, Copy)]
pub struct RoutineSource<'s> {
    pub name: &'s str,
    /// The place of its name.
    pub span: Span,
    /// The number of the class that it belongs to.
    pub class: usize,
    pub routine: &'s Routine,
    /// The number of the class that first declared it, which has its contract.
    pub contract_class: usize,
    pub contract: &'s Routine,
}
