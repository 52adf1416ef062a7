//! What one thread made of a record, beside what a run left.
ghost use Rattle.std.specs.Prelude.{◌↔◌, ℕ, IfNone, IfSome, IsTrue, slice_get};
ghost use Rattle.sc_world.specs.Views.{world_of};
ghost use Rattle.sc_recording.specs.Same.{AreSameRegions, FirstDiffers, IsSame, IsSameAt, world_in};

use sc_lockpass::HandlerNumber;
use sc_play::Region;
use sc_request::Core;
use sc_world::World;

/// How many handlers there may be in any version.
const MAX_HANDLERS: u16 = 512;

/// The lowest handler at which a world differs from a core and the regions beside it, however many there may be.
pub fn first_that_differs(
    world: &World<'_>,
    core: &Core,
    regions: &[Region<'_>],
) -> Option<HandlerNumber>
    ensures some { (most : ℕ) → IfSome result (λ handler. FirstDiffers handler (world_of world.now) (world_in most core.now regions.now)) }
    ensures none { (most : ℕ) → IfNone result (IsSame (world_of world.now) (world_in most core.now regions.now)) }
{
    for handler in 0..MAX_HANDLERS {
        if !is_same_at(world, core, regions, handler) {
            return Some(handler);
        }
    }
    None
}

/// Whether the two are alike at a handler.
fn is_same_at(
    world: &World<'_>,
    core: &Core,
    regions: &[Region<'_>],
    handler: HandlerNumber,
) -> bool
    ensures { (most : ℕ) → (IsTrue result ↔ IsSameAt handler (world_of world.now) (world_in most core.now regions.now)) }
{
    are_same_regions(world, regions, handler) && world.core().is_same_at(core, handler)
}

/// Whether their regions of a handler hold the same, or neither has one.
fn are_same_regions(world: &World<'_>, regions: &[Region<'_>], handler: HandlerNumber) -> bool
    ensures { IsTrue result ↔ AreSameRegions (slice_get (world_of world.now).regions handler) (slice_get regions.now handler) }
{
    match (world.region(handler), regions.get(handler as usize)) {
        (Some(region), Some(other)) => region.is_same(other),
        (None, None) => true,
        _ => false,
    }
}
