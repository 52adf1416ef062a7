//! Conditions that handlers wait for.

use sc_lockpass::HandlerNumber;
use sc_text::Span;

/// A precondition that a handler waits for.
#[derive(Clone, Copy)]
pub struct Condition {
    pub handler: HandlerNumber,
    /// The name of its routine, as a part of the text.
    pub routine: Span,
    /// How often it was false.
    pub times: u64,
}

/// That of these which a handler waits for at this routine.
pub fn condition_at(
    conditions: &mut [Condition],
    handler: HandlerNumber,
    routine: Span,
) -> Option<&mut Condition> {
    for condition in conditions {
        if condition.handler == handler && condition.routine.start == routine.start {
            return Some(condition);
        }
    }
    None
}
