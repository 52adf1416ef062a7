//! Which handler is next.
ghost use Rattle.std.specs.Prelude.{◌≡◌, ◌⊎◌, ℕ, IfNone, IfSome, None, Some, is_some, true};
ghost use Rattle.sc_request.specs.Cores.{center_of};
ghost use Rattle.sc_request.specs.Logs.{pick_for};

use rand_core::Rng;
use rand_pcg::Pcg32;
use sc_lockpass::HandlerNumber;
use sc_request::Core;

/// One of the handlers that have a turn, each as likely as the others, or None if none has one.
pub fn pick(core: &Core, chance: &mut Pcg32) -> Option<HandlerNumber>
    ensures some { IfSome result (λ handler. is_some (pick_for handler (center_of core.now)) ≡ true) }
    ensures none { IfNone result ((handler : ℕ) → pick_for handler (center_of core.now) ≡ None) }
{
    let mut picked = None;
    let mut among: u32 = 0;
    for place in 0..core.handler_count() {
        let handler = place as HandlerNumber;
        if core.pick_for(handler).is_some() {
            among = among.saturating_add(1);
            picked = later_of(picked, handler, among, chance);
        }
    }
    picked
}

/// The handler, once in so many times, or else the one before it, if there is one.
fn later_of(
    before: Option<HandlerNumber>,
    handler: HandlerNumber,
    among: u32,
    chance: &mut Pcg32,
) -> Option<HandlerNumber>
    ensures { (result ≡ Some handler) ⊎ (is_some before ≡ true) × (result ≡ before) }
{
    match before {
        Some(_) if among > 1 && chance.next_u32() % among != 0 => before,
        _ => Some(handler),
    }
}
