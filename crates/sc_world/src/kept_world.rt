//! Worlds that are kept, to be compared with others.
ghost use Rattle.std.specs.Prelude.{◌≡◌, ◌≤◌, ◌↔◌, ℕ, IfOk, IsTrue, length, vec_len};
ghost use Rattle.sc_play.specs.Contents.{contents_at, new_contents};

use crate::configuration::Configuration;
use crate::world::World;
use sc_lockpass::HandlerNumber;
use sc_play::Region;
use sc_request::KeptCore;
use std::alloc::AllocError;
use std::hash::{FoldHasher, Hasher};

/// What a world held: the state of its core as it is read, and the regions of its handlers. It takes memory for the
/// handlers that there are. The counts of sessions, the handler picked last and the log are no part of it.
#[derive(Drop)]
pub struct KeptWorld<'p> {
    pub(crate) core: KeptCore,
    /// The regions by number. All past these are new.
    pub(crate) regions: Vec<Region<'p>>,
    pub(crate) ghost few: { vec_len regions ≤ 512 },
}

impl<'p> Configuration<'p> {
    ghost use Rattle.sc_world.specs.Kept.{kept, kept_of};
    ghost use Rattle.sc_world.specs.Views.{world_in};

    /// What the core and the regions hold, to be kept. They are consumed.
    ///
    /// # Errors
    /// Memory ran out. They are gone then, too.
    pub fn keep(self) -> Result<KeptWorld<'p>, AllocError>
        ensures { IfOk result (λ world. kept_of world ≡ kept (world_in self.entry)) }
    {
        let core = self.core.keep(self.alloc)?;
        let regions = without_new(self.regions);
        Ok(KeptWorld { core, regions })
    }
}

impl<'p> World<'p> {
    ghost use Rattle.sc_world.specs.Kept.{kept, kept_of};
    ghost use Rattle.sc_world.specs.Views.{world_of};

    /// What the world holds, to be kept. The world is consumed.
    ///
    /// # Errors
    /// Memory ran out. The world is gone then, too.
    pub fn keep(self) -> Result<KeptWorld<'p>, AllocError>
        ensures { IfOk result (λ world. kept_of world ≡ kept (world_of self.entry)) }
    {
        self.configuration.keep()
    }

    /// A hash of what the world holds. No contract says which number it is. It takes time for each handler, for what
    /// it holds, and for each request in its queue.
    pub fn hash(&self) -> u64 {
        let mut hasher = FoldHasher::default();
        hasher.write_u64(self.configuration.core.hash());
        for handler in 0..self.configuration.core.handler_count() {
            hasher.write_u64(self.configuration.regions[handler].hash());
        }
        hasher.finish()
    }
}

impl<'p> KeptWorld<'p> {
    ghost use Rattle.sc_world.specs.Kept.{kept, kept_of};
    ghost use Rattle.sc_world.specs.Views.{world_of};

    /// Whether a world holds what is kept: a state of the core that is read alike, and in each region equal objects,
    /// frames, output and failure.
    pub fn is_same(&self, world: &World<'_>) -> bool
        ensures { IsTrue result ↔ kept_of self.now ≡ kept (world_of world.now) }
    {
        let configuration = &world.configuration;
        self.core.is_same(&configuration.core)
            && same_regions(&self.regions, &configuration.regions)
    }
}

/// The regions, but for those at the end that are new.
fn without_new<'p>(mut regions: Vec<Region<'p>>) -> Vec<Region<'p>>
    requires { vec_len regions ≤ 512 }
    ensures same { contents_at result.items ≡ contents_at regions.entry.items }
    ensures few { vec_len result ≤ 512 }
{
    let count = used(&regions, regions.len());
    regions.truncate(count);
    regions.shrink_to_fit();
    regions
}

/// A number from which on all regions are new. From `from` on they are.
pub(crate) fn used(regions: &[Region<'_>], from: usize) -> usize
    requires few { from ≤ 512 }
    requires new { (handler : ℕ) → from ≤ handler → contents_at regions.now handler ≡ new_contents handler }
    ensures few { result ≤ from }
    ensures new { (handler : ℕ) → result ≤ handler → contents_at regions.now handler ≡ new_contents handler }
{
    let mut count = from;
    while count > 0 && is_new_at(regions, (count - 1) as HandlerNumber) {
        count -= 1;
    }
    count
}

/// Whether the region of a handler is new, or there is none.
fn is_new_at(regions: &[Region<'_>], handler: HandlerNumber) -> bool
    ensures { IsTrue result ↔ contents_at regions.now handler ≡ new_contents handler }
{
    same_at(regions, &[], handler)
}

/// Whether the regions of all handlers hold the same, if all after these are new.
fn same_regions(regions: &[Region<'_>], others: &[Region<'_>]) -> bool
    requires few { length regions.now ≤ 512 }
    requires few_others { length others.now ≤ 512 }
    ensures { IsTrue result ↔ contents_at regions.now ≡ contents_at others.now }
{
    for handler in 0..512u16 {
        if !same_at(regions, others, handler) {
            return false;
        }
    }
    true
}

/// Whether the regions of a handler hold the same. A missing one counts as new.
fn same_at(regions: &[Region<'_>], others: &[Region<'_>], handler: HandlerNumber) -> bool
    ensures { IsTrue result ↔ contents_at regions.now handler ≡ contents_at others.now handler }
{
    let place = handler as usize;
    match (regions.get(place), others.get(place)) {
        (Some(region), Some(other)) => region.is_alike(other),
        (Some(region), None) => region.is_new(handler),
        (None, Some(other)) => other.is_new(handler),
        (None, None) => true,
    }
}
