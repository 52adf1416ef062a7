//! The states that a search has met, as numbers of what their handlers hold.
ghost use Rattle.std.specs.Prelude.{◌≡◌, ◌≤◌, ◌<◌, ◌++◌, ◌∷◌, [], ℕ, IfNone, IfOk, IfSome, OnOk, Some, get_or, length, map, slice_get};
ghost use Rattle.sc_interning.specs.Tables.{values_of};
ghost use Rattle.sc_lockpass.specs.Versions.{most_handlers};
ghost use Rattle.sc_world.specs.Views.{world_in};
ghost use Rattle.sc_request.specs.Parts.{part_at, part_of};
ghost use Rattle.sc_play.specs.Contents.{contents_at, contents_of};
ghost use Rattle.sc_states.specs.Views.{numbers_of, steps_of};
ghost use Rattle.sc_request.specs.Cores.{state_of};
ghost use Rattle.sc_world.specs.Kept.{IsOf, kept};
ghost use Rattle.sc_search.specs.Numbering.{AddsNumbers, part_numbers, region_numbers};
ghost use Rattle.sc_search.specs.Stored.{Grows, IsBacked, IsFrom, IsStored, IsTupleOf, order_after};
ghost use Rattle.sc_search.specs.Tuples.{IsNumbered, state_by};
ghost use Rattle.sc_search.specs.Views.{contents_in, orders_in, parts_in, states_in, statuses_in, tuples_in};

use crate::replay::Subject;
use sc_interning::{Probe, Table};
use sc_lockpass::HandlerNumber;
use sc_model::Status;
use sc_play::Region;
use sc_request::{Core, Part};
use sc_states::{Rows, States};
use sc_world::laws::worlds_are_kept_by_numbers;
use sc_world::{Configuration, Numbers, Tables};
use std::alloc::{AllocError, Global};

/// How many regions and parts are kept.
#[derive(Clone, Copy)]
pub(crate) struct Sizes {
    pub(crate) regions: u32,
    pub(crate) parts: u32,
}

/// What handlers held in the states that a search has met, each once, and the states as numbers of it.
///
/// The tuple of a state is the number of handlers, then the region of each by number, then for each what the core keeps of it.
#[derive(Drop)]
pub(crate) struct Store<'p> {
    alloc: Global,
    regions: Table<Region<'p>>,
    parts: Table<Part>,
    states: States,
    /// The statuses of the handlers in each state.
    pub(crate) statuses: Rows<Status>,
}

impl<'p> Store<'p> {
    /// No states.
    ///
    /// # Errors
    /// Memory ran out.
    pub(crate) fn new(alloc: Global) -> Result<Store<'p>, AllocError>
        ensures tuples { IfOk result (λ store. tuples_in store ≡ []) }
        ensures orders { IfOk result (λ store. orders_in store ≡ []) }
        ensures statuses { IfOk result (λ store. statuses_in store ≡ []) }
        ensures regions { IfOk result (λ store. values_of store.regions ≡ []) }
    {
        Ok(Store {
            alloc,
            regions: Table::new(alloc)?,
            parts: Table::new(alloc)?,
            states: States::new(alloc)?,
            statuses: Rows::new(alloc),
        })
    }

    /// How many states there are.
    pub(crate) fn len(&self) -> u32
        ensures { result ≡ length (states_in self.now) }
    {
        self.states.len()
    }

    /// The regions that are kept.
    pub(crate) fn regions(&self) -> &[Region<'p>] {
        self.regions.values()
    }

    /// How many regions and parts are kept.
    pub(crate) fn sizes(&self) -> Sizes {
        Sizes {
            regions: self.regions.len(),
            parts: self.parts.len(),
        }
    }

    /// How many numbers the tuples of states have.
    pub(crate) fn number_count(&self) -> u32
        ensures { result ≡ numbers_of self.now.states }
    {
        self.states.number_count()
    }

    /// How many turns lead to states from those before them.
    pub(crate) fn step_count(&self) -> u32
        ensures { result ≡ steps_of self.now.states }
    {
        self.states.step_count()
    }

    /// The statuses of the handlers in the state with the number.
    pub(crate) fn statuses(&self, number: u32) -> &[Status]
        requires { number < length (statuses_in self.now) }
        ensures { slice_get (statuses_in self.now) number ≡ Some result.now }
    {
        self.statuses.row(number)
    }

    /// Brings the world into the state with the number.
    ///
    /// # Errors
    /// Memory ran out. The world may then be in any state.
    pub(crate) fn load(
        &self,
        subject: Subject<'p>,
        world: &mut Configuration<'p>,
        number: u32,
    ) -> Result<(), AllocError>
        requires there { number < length (states_in self.now) }
        requires stored { IsStored subject.program.now.image self.now }
        requires of { IsOf subject.program.now.image (most_handlers subject.version) (world_in world.old) }
        requires backed { IsBacked subject.program.now.image (most_handlers subject.version) (states_in self.now) number }
        ensures of { OnOk result (IsOf subject.entry.program.now.image (most_handlers subject.entry.version) (world_in world.new)) }
        ensures kept { OnOk result (slice_get (states_in self.now) number ≡ Some (kept (world_in world.new))) }
    {
        let tables = Tables {
            regions: self.regions.values(),
            parts: self.parts.values(),
        };
        world.load(tables, numbers_of(self.states.tuple(number)))?;
        Ok(())
    }

    /// The region of a handler in the state with the number, if it was asked for something by then.
    pub(crate) fn region(&self, number: u32, handler: HandlerNumber) -> Option<&Region<'p>>
        requires { number < length (states_in self.now) }
    {
        let place = self.states.tuple(number).get(1 + handler as usize)?;
        self.regions.values().get(*place as usize)
    }

    /// The state that has this tuple, if it was met.
    pub(crate) fn find(&self, tuple: &[u32]) -> Option<u32>
        ensures found { IfSome result (λ number. slice_get (states_in self.now) number ≡ Some (state_by (contents_in self.now) (parts_in self.now) tuple.now)) }
        ensures none { IfNone result ((number : ℕ) → slice_get (tuples_in self.now) number ≡ Some tuple.now → ⊥) }
    {
        self.states.find(tuple)
    }

    /// Writes the tuple of what the world holds.
    ///
    /// # Errors
    /// Memory ran out.
    pub(crate) fn number(
        &mut self,
        subject: Subject<'p>,
        world: &Configuration<'p>,
        tuple: &mut Vec<u32>,
    ) -> Result<(), AllocError>
        requires of { IsOf subject.program.now.image (most_handlers subject.version) (world_in world.now) }
        ensures grows { OnOk result (Grows subject.entry.program.now.image self.old self.new) }
        ensures kept { OnOk result (IsTupleOf self.new tuple.new.items (world_in world.now)) }
    {
        worlds_are_kept_by_numbers();
        let used = world.used() as HandlerNumber;
        tuple.clear();
        tuple.push(world.handler_count() as u32)?;
        self.number_regions(subject, world, used, tuple)?;
        self.number_parts(subject, world, used, tuple)?;
        Ok(())
    }

    /// Adds the numbers of what the regions of the first handlers hold.
    fn number_regions(
        &mut self,
        subject: Subject<'p>,
        world: &Configuration<'p>,
        used: HandlerNumber,
        tuple: &mut Vec<u32>,
    ) -> Result<(), AllocError>
        requires few { used ≤ 512 }
        requires of { IsOf subject.program.now.image (most_handlers subject.version) (world_in world.now) }
        ensures grows { OnOk result (Grows subject.entry.program.now.image self.old self.new) }
        ensures adds { OnOk result (AddsNumbers (contents_in self.new) (contents_at (world_in world.now).regions) used tuple.old.items tuple.new.items) }
    {
        for handler in 0..used {
            let number = self.number_region(subject, world, handler)?;
            tuple.push(number)?;
        }
        Ok(())
    }

    /// The number of what the region of a handler holds.
    fn number_region(
        &mut self,
        subject: Subject<'p>,
        world: &Configuration<'p>,
        handler: HandlerNumber,
    ) -> Result<u32, AllocError>
        requires of { IsOf subject.program.now.image (most_handlers subject.version) (world_in world.now) }
        ensures grows { OnOk result (Grows subject.entry.program.now.image self.old self.new) }
        ensures stands { IfOk result (λ number. slice_get (contents_in self.new) number ≡ Some (contents_at (world_in world.now).regions handler)) }
    {
        let Some(region) = world.region(handler) else {
            return Err(AllocError);
        };
        let hash = folded(region.hash());
        let sought = SoughtRegion {
            regions: &self.regions,
            region,
        };
        if let Some(number) = self.regions.find(hash, &sought) {
            return Ok(number);
        }
        let copy = region.copy(self.alloc)?;
        let number = self.regions.push(copy, hash)?;
        Ok(number)
    }

    /// Adds the numbers of what the core keeps of the first handlers.
    fn number_parts(
        &mut self,
        subject: Subject<'p>,
        world: &Configuration<'p>,
        used: HandlerNumber,
        tuple: &mut Vec<u32>,
    ) -> Result<(), AllocError>
        requires few { used ≤ 512 }
        ensures grows { OnOk result (Grows subject.entry.program.now.image self.old self.new) }
        ensures adds { OnOk result (AddsNumbers (parts_in self.new) (λ h. part_at h (world_in world.now).center.state) used tuple.old.items tuple.new.items) }
    {
        for handler in 0..used {
            let number = self.number_part(subject, world.core(), handler)?;
            tuple.push(number)?;
        }
        Ok(())
    }

    /// The number of what the core keeps of a handler.
    fn number_part(
        &mut self,
        subject: Subject<'p>,
        core: &Core,
        handler: HandlerNumber,
    ) -> Result<u32, AllocError>
        requires few { handler < 512 }
        ensures grows { OnOk result (Grows subject.entry.program.now.image self.old self.new) }
        ensures stands { IfOk result (λ number. slice_get (parts_in self.new) number ≡ Some (part_at handler (state_of core.now))) }
    {
        let hash = folded(core.part_hash(handler));
        let sought = SoughtPart {
            parts: &self.parts,
            core,
            handler,
        };
        if let Some(number) = self.parts.find(hash, &sought) {
            return Ok(number);
        }
        let part = core.part(self.alloc, handler)?;
        let number = self.parts.push(part, hash)?;
        Ok(number)
    }

    /// Keeps a state that was not met before.
    ///
    /// # Errors
    /// Memory ran out. The states are as they were.
    pub(crate) fn push(
        &mut self,
        subject: Subject<'p>,
        tuple: &[u32],
        parent: Option<u32>,
        turns: &[HandlerNumber],
        statuses: &[Status],
    ) -> Result<(), AllocError>
        requires new { (number : ℕ) → slice_get (tuples_in self.old) number ≡ Some tuple.now → ⊥ }
        requires from { IsFrom (states_in self.old) parent }
        requires counted { length (orders_in self.old) ≡ length (states_in self.old) }
        requires numbered { IsNumbered tuple.now (length (values_of self.old.regions)) (length (values_of self.old.parts)) }
        requires stored { IsStored subject.program.now.image self.old }
        ensures states { OnOk result (states_in self.new ≡ states_in self.old ++ state_by (contents_in self.old) (parts_in self.old) tuple.now ∷ []) }
        ensures orders { OnOk result (orders_in self.new ≡ orders_in self.old ++ order_after (orders_in self.old) parent turns.now ∷ []) }
        ensures statuses { OnOk result (statuses_in self.new ≡ statuses_in self.old ++ statuses.now ∷ []) }
        ensures stored { OnOk result (IsStored subject.entry.program.now.image self.new) }
    {
        self.statuses.make_room(statuses.len())?;
        self.states.push(tuple, parent.unwrap_or(0), turns)?;
        self.statuses.push(statuses);
        Ok(())
    }

    /// The turns that led to the state with the number, from the opening on.
    ///
    /// # Errors
    /// Memory ran out.
    pub(crate) fn order(&self, number: u32) -> Result<Vec<HandlerNumber>, AllocError>
        requires { number < length (states_in self.now) }
        ensures { IfOk result (λ turns. turns.items ≡ get_or (orders_in self.now) number []) }
    {
        self.states.order(number)
    }

    /// The turns to a state and further turns. Those to the opening are none.
    ///
    /// # Errors
    /// Memory ran out.
    pub(crate) fn order_after(
        &self,
        parent: Option<u32>,
        turns: &[HandlerNumber],
    ) -> Result<Vec<HandlerNumber>, AllocError>
        requires { IsFrom (states_in self.now) parent }
        ensures { IfOk result (λ order. order.items ≡ order_after (orders_in self.now) parent turns.now) }
    {
        let mut order = match parent {
            Some(number) => self.states.order(number)?,
            None => Vec::new(self.alloc),
        };
        order.extend_from_slice(turns)?;
        Ok(order)
    }
}

/// The numbers of a tuple.
fn numbers_of(tuple: &[u32]) -> Numbers<'_>
    requires { 0 < length tuple.now }
    ensures count { result.count ≡ get_or tuple.now 0 0 }
    ensures regions { result.regions.now ≡ region_numbers tuple.now }
    ensures parts { result.parts.now ≡ part_numbers tuple.now }
{
    let half = tuple.len() / 2;
    Numbers {
        count: tuple[0] as usize,
        regions: &tuple[1..1 + half],
        parts: &tuple[1 + half..],
    }
}

/// A hash of half the length.
fn folded(hash: u64) -> u32 {
    ((hash ^ (hash >> 32)) % (1 << 32)) as u32
}

/// A region that is looked for among others.
#[derive(Clone, Copy)]
struct SoughtRegion<'s, 'p> {
    regions: &'s Table<Region<'p>>,
    region: &'s Region<'p>,
}

impl Probe for SoughtRegion<'_, '_> {
    ghost count = { λ s. length (values_of s.regions.now) };

    ghost Fits = { λ s number. slice_get (map contents_of (values_of s.regions.now)) number ≡ Some (contents_of s.region.now) };

    fn fits(&self, number: u32) -> bool {
        self.regions.value(number).is_alike(self.region)
    }
}

/// What the core keeps of a handler, that is looked for among others.
#[derive(Clone, Copy)]
struct SoughtPart<'s> {
    parts: &'s Table<Part>,
    core: &'s Core,
    handler: HandlerNumber,
}

impl Probe for SoughtPart<'_> {
    ghost count = { λ s. length (values_of s.parts.now) };

    ghost Fits = { λ s number. (s.handler < 512) × (slice_get (map part_of (values_of s.parts.now)) number ≡ Some (part_at s.handler (state_of s.core.now))) };

    fn fits(&self, number: u32) -> bool {
        self.handler < 512 && self.core.is_part(self.handler, self.parts.value(number))
    }
}
