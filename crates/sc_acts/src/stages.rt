//! How the topmost routine goes on that waits for an answer.
ghost use Rattle.std.specs.Prelude.{◌≡◌};
ghost use Rattle.sc_region.specs.Frames.{activation_of};
ghost use Rattle.sc_acts.specs.Requesting.{awaiting_if};

use sc_lockpass::HandlerNumber;
use sc_region::{Activation, Stage};

/// Where `waits` is True, the routine waits for the answer of the supplier, which gives a value or none, perhaps to a
/// creation.
pub fn await_if(
    activation: &mut Activation,
    waits: bool,
    supplier: HandlerNumber,
    gives: bool,
    is_creation: bool,
)
    ensures { activation_of activation.new ≡ awaiting_if waits supplier gives is_creation (activation_of activation.old) }
{
    if waits {
        activation.stage = Stage::Awaits {
            supplier,
            gives,
            is_creation,
        };
    }
}
