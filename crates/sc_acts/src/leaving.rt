//! The end of a separate block.
ghost use Rattle.std.specs.Prelude.{◌≡◌, IfSome, IfNone};
ghost use Rattle.std.specs.Option.{option_map};
ghost use Rattle.sc_region.specs.Calls.{on_top};
ghost use Rattle.sc_region.specs.Frames.{activation_of, top_activation};
ghost use Rattle.sc_acts.specs.Leaving.{asks_leaving, block_left, closing, innermost, innermost_in};

use crate::going_on::{go_past, misfit};
use arrayvec::ArrayVec;
use sc_lockpass::HandlerNumber;
use sc_region::{Activation, Store, Want};

/// Closes the innermost block, if there is one, and returns what it newly reserved.
fn close_on(activation: &mut Activation) -> Option<ArrayVec<HandlerNumber, 16>>
    ensures reserved { option_map (λ handlers. handlers.items) result ≡ innermost (activation_of activation.old).blocks }
    ensures closed { IfSome result (λ handlers. activation_of activation.new ≡ closing (activation_of activation.old)) }
    ensures same { IfNone result (activation_of activation.new ≡ activation_of activation.old) }
{
    let reserved = activation.blocks.pop()?;
    go_past(activation, 0);
    Some(reserved)
}

/// Closes the innermost block of the topmost routine, if there is one, and returns what it newly reserved.
fn close_top(store: &mut Store<'_>) -> Option<ArrayVec<HandlerNumber, 16>>
    ensures reserved { option_map (λ handlers. handlers.items) result ≡ innermost_in (top_activation store.old.frames) }
    ensures closed { IfSome result (λ handlers. store.new ≡ on_top closing store.old) }
    ensures same { IfNone result (store.new ≡ store.old) }
{
    match store.top_mut() {
        Some(activation) => close_on(activation),
        None => None,
    }
}

/// The innermost separate block ends: F16 where none is open. What it newly reserved is released.
///
/// It stays a call, as `request` does.
#[inline(never)]
pub fn leave(store: &mut Store<'_>, asked: &mut Want)
    ensures store { store.new ≡ block_left store.old }
    ensures want { asked.new ≡ asks_leaving (top_activation store.old.frames) }
{
    match close_top(store) {
        Some(handlers) => *asked = Want::Release(handlers),
        None => misfit(store, asked),
    }
}
