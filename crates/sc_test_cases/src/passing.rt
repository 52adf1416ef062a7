//! Whether a run passes as a test.

ghost use Rattle.std.specs.Prelude.{◌≡◌, ◌<◌};
ghost use Rattle.sc_request.specs.Cores.{center_of, state_of};
ghost use Rattle.sc_test_cases.specs.Passing as spec;

use sc_lockpass::HandlerNumber;
use sc_model::Status;
use sc_request::Core;

/// Whether every handler is free in the end, and none has refused a request for which no handler waited.
pub fn passes(core: &Core) -> bool
    ensures { result ≡ spec.passes (center_of core.now) }
{
    for handler in 0..core.handler_count() {
        if !is_done(core, handler as HandlerNumber) {
            return false;
        }
    }
    true
}

/// Whether a handler is free, and has refused no request.
fn is_done(core: &Core, handler: HandlerNumber) -> bool
    requires { handler < (state_of core.now).count }
    ensures { result ≡ spec.is_done handler (center_of core.now) }
{
    matches!(core.status(handler), Some(Status::Free)) && matches!(core.refused(handler), Some(0))
}
