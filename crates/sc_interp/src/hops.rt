//! The results of operations.
ghost use Rattle.std.specs.Prelude.{◌≡◌};
ghost use Rattle.sc_interp.specs.Standing.{stepped};

use sc_acts::Act;
use sc_model::Cause;

/// The result of an operation.
#[derive(Clone, Copy)]
pub enum Hop {
    /// It was silent, and is done.
    Passed,
    /// The handler fails.
    Failed(Cause),
    /// It is visible, and still to be done.
    Comes(Act),
}

/// The result of a silent operation: it passed, or the handler fails.
pub fn stepped(step: Result<(), Cause>) -> Hop
    ensures { result ≡ stepped step }
{
    match step {
        Ok(()) => Hop::Passed,
        Err(why) => Hop::Failed(why),
    }
}
