//! The comparison of the logs, after the join.
ghost use Rattle.std.specs.Prelude.{◌≡◌, ◌<◌, ◌++◌, ◌∷◌, ℕ, List, IfNone, IfSome, IsTrue, Some, [], ◌^◌, ◌-◌, false, length, slice_get};
ghost use Rattle.sc_handler.specs.declared.settlement.Settlement.{Settlement};
ghost use Rattle.sc_handler.specs.Logged.{settlements_of};
ghost use Rattle.sc_recording.specs.Comparing.{EndsAt, StandsAt, Walked};
ghost use Rattle.sc_recording.specs.Regions.{AgreesIn};

use sc_handler::Log;
use sc_lockpass::HandlerNumber;
use sc_worklog::LoggedRegion;

/// Whether the settlement at a place of the core's log is at this place in the log of the handler's region.
fn stands_at(
    regions: &[LoggedRegion<'_>],
    handler: HandlerNumber,
    place: usize,
    settlements: &Log,
    at: usize,
) -> bool
    ensures yes { (e : Settlement) → slice_get (settlements_of settlements.now) at ≡ Some e
        → IsTrue result → StandsAt regions.now handler place e }
    ensures no { (e : Settlement) → slice_get (settlements_of settlements.now) at ≡ Some e
        → result ≡ false → StandsAt regions.now handler place e → ⊥ }
{
    let Some(region) = regions.get(handler as usize) else {
        return false;
    };
    region.log().agrees_at(place, settlements, at)
}

/// Whether the handler's region has that number, and this number of entries in its log.
fn ends_at(regions: &[LoggedRegion<'_>], handler: HandlerNumber, count: usize) -> bool
    ensures yes { IsTrue result → EndsAt regions.now handler count }
    ensures no { result ≡ false → EndsAt regions.now handler count → ⊥ }
{
    let Some(region) = regions.get(handler as usize) else {
        return false;
    };
    region.handler() == handler && region.log().len() == count
}

/// One more settlement is compared, the one of this handler at a place of the core's log: the least handler then whose log is
/// known to differ, or 512.
fn walk(
    regions: &[LoggedRegion<'_>],
    settlements: &Log,
    at: usize,
    handler: HandlerNumber,
    next: &mut [usize; 512],
    least: HandlerNumber,
) -> HandlerNumber
    ensures { (es : List Settlement) (e : Settlement) → slice_get (settlements_of settlements.now) at ≡ Some e
        → e.handler ≡ handler → length es < 2 ^ 64 - 1 → Walked regions.now es next.old least
        → Walked regions.now (es ++ e ∷ []) next.new result }
{
    let Some(place) = next.get(handler as usize) else {
        return least;
    };
    let place = *place;
    next[handler as usize] = place.saturating_add(1);
    if stands_at(regions, handler, place, settlements, at) || least < handler {
        least
    } else {
        handler
    }
}

/// The least handler whose region's log isn't that of its settlements. One walk through the settlements.
pub fn first_difference(regions: &[LoggedRegion<'_>], settlements: &Log) -> Option<HandlerNumber>
    requires { length regions.now ≡ 512 }
    ensures some { IfSome result (λ h. (AgreesIn regions.now (settlements_of settlements.now) h → ⊥)
        × ((k : ℕ) → k < h → AgreesIn regions.now (settlements_of settlements.now) k)) }
    ensures none { IfNone result ((h : ℕ) → AgreesIn regions.now (settlements_of settlements.now) h) }
{
    let mut next = [0usize; 512];
    let mut least = 512u16;
    for place in 0..settlements.len() {
        let Some(handler) = settlements.handler_at(place) else {
            continue;
        };
        least = walk(regions, settlements, place, handler, &mut next, least);
    }
    for handler in 0..512u16 {
        if least <= handler || ends_at(regions, handler, next[handler as usize]) {
            continue;
        }
        least = handler;
    }
    if least < 512 { Some(least) } else { None }
}
