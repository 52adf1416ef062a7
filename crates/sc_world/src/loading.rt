//! Configurations into which states are put.
ghost use Rattle.std.specs.Prelude.{◌≡◌, ◌<◌, ◌≤◌, ℕ, IfOk, OnErr, OnOk, Option, Some, length, slice_get, vec_len};
ghost use Rattle.sc_code.specs.declared.program.Image.{Image};
ghost use Rattle.sc_play.specs.Contents.{contents_at, new_contents};
ghost use Rattle.sc_play.specs.Regions.{PlainRegion};
ghost use Rattle.sc_request.specs.Parts.{AreWithin};
ghost use Rattle.sc_world.specs.Kept.{IsOf, kept};
ghost use Rattle.sc_world.specs.Loading.{AreNewFrom, AreOf, ChangesAreOf, IsLoadable, LeadsTo, contents_after, contents_by, held_in, kept_by};

use crate::configuration::Configuration;
use crate::kept_world::used;
use sc_lockpass::HandlerNumber;
use sc_play::Region;
use sc_request::Part;
use std::alloc::{AllocError, Global};

/// Regions, and parts of cores, by the numbers of which states are put together.
#[derive(Clone, Copy)]
pub struct Tables<'s, 'p> {
    pub regions: &'s [Region<'p>],
    pub parts: &'s [Part],
}

/// A state by numbers in tables: how many handlers there are, and for each the number of its region and that of its
/// part, the first handler first. There may be numbers for more handlers than there are. Past all numbers all is new.
#[derive(Clone, Copy)]
pub struct Numbers<'s> {
    pub count: usize,
    pub regions: &'s [u32],
    pub parts: &'s [u32],
}

impl<'p> Configuration<'p> {
    ghost use Rattle.sc_world.specs.Views.{world_in};

    /// A number from which on no handler was asked for anything or is held, at least that of the handlers.
    pub fn used(&self) -> usize
        ensures count { (world_in self.now).center.state.count ≤ result }
        ensures few { result ≤ 512 }
        ensures new { AreNewFrom result (world_in self.now) }
    {
        let core = self.core.used(self.used);
        core.max(used(&self.regions, self.used))
    }

    /// Puts the state that these numbers stand for in the place of the one that there is. A region that holds the same
    /// already is left.
    ///
    /// # Errors
    /// Memory ran out. Nothing has changed then.
    pub fn load(&mut self, tables: Tables<'_, 'p>, state: Numbers<'_>) -> Result<(), AllocError>
        requires loadable { IsLoadable (world_in self.old) tables state }
        ensures of { OnOk result ((p : Image) (most : ℕ) → IsOf p most (world_in self.old) → IsOf p most (world_in self.new)) }
        ensures kept { OnOk result (kept (world_in self.new) ≡ kept_by tables.entry state.entry) }
        ensures err { OnErr result (world_in self.new ≡ world_in self.old) }
    {
        let mut changes = changes_to(self.alloc, &self.regions, tables.regions, state.regions)?;
        self.core.load(
            self.alloc,
            state.count,
            tables.parts,
            state.parts,
            self.used,
        )?;
        put_regions(self.alloc, &mut self.regions, &mut changes, self.used);
        self.used = state.regions.len();
        Ok(())
    }
}

// ---- what is to change

/// What makes regions hold what those of these numbers do. Its error says that memory ran out.
fn changes_to<'p>(
    alloc: Global,
    regions: &[Region<'p>],
    table: &[Region<'p>],
    numbers: &[u32],
) -> Result<Vec<Option<Region<'p>>>, AllocError>
    requires many { length numbers.now ≤ length regions.now }
    requires within { AreWithin numbers.now (length table.now) }
    ensures len { IfOk result (λ changes. vec_len changes ≡ length numbers.now) }
    ensures contents { IfOk result (λ changes. (h : ℕ) →
        contents_after h regions.now (slice_get changes.items h) ≡ held_in h (slice_get (contents_by table.now numbers.now) h)) }
    ensures programs { IfOk result (λ changes. (p : Image) → AreOf p table.now → ChangesAreOf p changes.items) }
{
    let mut changes = Vec::with_capacity(alloc, numbers.len())?;
    for place in 0..numbers.len() {
        let wanted = &table[numbers[place] as usize];
        changes.push(change_to(alloc, &regions[place], wanted)?)?;
    }
    Ok(changes)
}

/// A copy of the wanted region, to be put in the place of another one, or None if that holds the same. Its error says that
/// memory ran out.
fn change_to<'p>(
    alloc: Global,
    region: &Region<'p>,
    wanted: &Region<'p>,
) -> Result<Option<Region<'p>>, AllocError>
    ensures { IfOk result (λ change. LeadsTo change region.now wanted.now) }
{
    if region.is_alike(wanted) {
        return Ok(None);
    }
    Ok(Some(wanted.copy(alloc)?))
}

// ---- what is put in the place of others

/// Makes these changes to the first places, and puts new regions in the places after these. From `used` on they are new
/// before.
fn put_regions<'p>(
    alloc: Global,
    regions: &mut Vec<Region<'p>>,
    changes: &mut Vec<Option<Region<'p>>>,
    used: usize,
)
    requires few { vec_len changes.old ≤ vec_len regions.old }
    requires places { vec_len regions.old ≤ 512 }
    requires used { used ≤ vec_len regions.old }
    requires new { (h : ℕ) → used ≤ h → contents_at regions.old.items h ≡ new_contents h }
    ensures len { vec_len regions.new ≡ vec_len regions.old }
    ensures contents { (h : ℕ) → contents_at regions.new.items h ≡ contents_after h regions.old.items (slice_get changes.old.items h) }
    ensures programs { (p : Image) → AreOf p regions.old.items → ChangesAreOf p changes.old.items → AreOf p regions.new.items }
{
    for place in changes.len()..used {
        renew(alloc, regions, place as HandlerNumber);
    }
    while let Some(change) = changes.pop() {
        put(regions, changes.len(), change);
    }
}

/// Puts a new region at the place of a handler, unless one lies there.
fn renew(alloc: Global, regions: &mut Vec<Region<'_>>, handler: HandlerNumber)
    requires { handler < vec_len regions.old }
    ensures len { vec_len regions.new ≡ vec_len regions.old }
    ensures others { (k : ℕ) → (k ≡ handler → ⊥) → slice_get regions.new.items k ≡ slice_get regions.old.items k }
    ensures new { contents_at regions.new.items handler ≡ new_contents handler }
    ensures programs { (p : Image) → AreOf p regions.old.items → AreOf p regions.new.items }
{
    let region = &regions[handler as usize];
    if region.is_new(handler) {
        return;
    }
    let program = region.store().program();
    regions[handler as usize] = Region::new(alloc, program, handler);
}

/// Puts a region at a place, if there is one.
fn put<'p>(regions: &mut Vec<Region<'p>>, place: usize, change: Option<Region<'p>>)
    requires { place < vec_len regions.old }
    ensures len { vec_len regions.new ≡ vec_len regions.old }
    ensures others { (k : ℕ) → (k ≡ place → ⊥) → slice_get regions.new.items k ≡ slice_get regions.old.items k }
    ensures here { contents_at regions.new.items place ≡ contents_after place regions.old.items (Some change.entry) }
    ensures programs { (p : Image) → AreOf p regions.old.items → ((x : PlainRegion) → change.entry ≡ Some x → x.store.program ≡ p) →
        AreOf p regions.new.items }
{
    if let Some(region) = change {
        regions[place] = region;
    }
}
