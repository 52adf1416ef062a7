//! Where a request goes.
ghost use Rattle.std.specs.Prelude.{◌≡◌, ◌<◌, ◌+◌, ◌^◌, false, length};
ghost use Rattle.sc_lockpass.specs.Posting.{called_back, queued};

use std::collections::LinkedList;

/// Puts a request, in a node of its own, into the target's callback place, onto its waiting stack, or at its queue's
/// end.
pub fn post<T: Drop>(
    is_callback: bool,
    mut node: LinkedList<T>,
    queue: &mut LinkedList<T>,
    callback: &mut LinkedList<T>,
)
    requires { is_callback ≡ false → length queue.old + length node < 2 ^ 63 }
    ensures queue { queue.new ≡ queued is_callback node queue.old }
    ensures callback { callback.new ≡ called_back is_callback node callback.old }
{
    if is_callback {
        *callback = node;
    } else if queue.append(&mut node).is_err() {
        unreachable!();
    }
}
