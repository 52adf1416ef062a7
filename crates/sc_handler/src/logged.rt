//! The log of settlements.
ghost use Rattle.std.specs.Prelude.{◌≡◌, ◌<◌, ◌≤◌, ◌+◌, ◌*◌, ◌^◌, ◌++◌, ◌==◌, ◌↔◌, IsTrue, length, vec_capacity, vec_len};
ghost use Rattle.std.specs.List.{All};
ghost use Rattle.sc_handler.specs.Entries.{IsWithin, packed_in, settlement_beside, settlement_in};

use crate::agreement::same_told;
use crate::packed::{PackedSettlement, job_values, want_values};
use crate::settlement::Settlement;
use crate::sharing::{Recent, number_of, place_of};
use sc_lockpass::HandlerNumber;
use sc_region::{Job, Value, Want};
use std::alloc::{AllocError, Global};

/// For how many settlements room is looked for at once.
const PLACES_AHEAD: usize = 8;

/// For how many settlements memory is taken at once.
const PLACES_AT_ONCE: usize = 16;

/// For how many packed settlements it is: mostly there are fewer, so that there is always room for some ahead.
const PACKED_AT_ONCE: usize = 64;

/// A settlement: the places of its parts in the log.
#[derive(Clone, Copy)]
struct LogEntry {
    /// The number of the packed settlement.
    packed: u32,
    /// Where its values begin.
    first_value: u32,
}

/// Settlements, the first one first.
///
/// Each takes an entry of 8 bytes. Its parts are kept once and shared by equal settlements: a settlement without its
/// values mostly equals an earlier one, and the values of an answer are also in its supplier's settlement.
#[derive(Drop)]
pub struct Log {
    entries: Vec<LogEntry>,
    packed: Vec<PackedSettlement>,
    values: Vec<Value>,
    recently_packed: Recent,
    recent_values: Recent,
    /// For how many settlements it was seen that there is room, so that not each has to look.
    room: usize,
    ghost within: { All (IsWithin packed.items (length values.items)) entries.items },
    ghost entry_room: { vec_len entries + room ≤ vec_capacity entries },
    ghost packed_room: { vec_len packed + room ≤ vec_capacity packed },
    ghost value_room: { vec_len values + 32 * room ≤ vec_capacity values },
    ghost packed_numbers: { vec_len packed + room ≤ 2 ^ 32 },
    ghost value_numbers: { vec_len values + 32 * room ≤ 2 ^ 32 },
}

/// What lies beside the entries of a log.
#[derive(Clone, Copy)]
struct Beside<'a> {
    packed: &'a [PackedSettlement],
    values: &'a [Value],
}

impl Log {
    ghost use Rattle.std.specs.Prelude.{◌∷◌, [], ℕ, OnErr, OnOk, slice_get};
    ghost use Rattle.std.specs.Option.{option_map};
    ghost use Rattle.sc_handler.specs.Logged.{HasPlaces, settlement, settlements_of};

    /// One with no settlement. What grows takes its memory from this allocator.
    pub fn new(alloc: Global) -> Log
        ensures settlements { settlements_of result ≡ [] }
        ensures len { vec_len result.entries ≡ 0 }
    {
        Log {
            entries: Vec::new(alloc),
            packed: Vec::new(alloc),
            values: Vec::new(alloc),
            recently_packed: Recent::new(alloc),
            recent_values: Recent::new(alloc),
            room: 0,
        }
    }

    /// How many settlements there are.
    pub fn len(&self) -> usize
        ensures { result ≡ length (settlements_of self.now) }
    {
        self.entries.len()
    }

    /// Whether there is no settlement.
    pub fn is_empty(&self) -> bool
        ensures { result ≡ (length (settlements_of self.now) == 0) }
    {
        self.entries.is_empty()
    }

    /// The handler of the settlement at a place.
    pub fn handler_at(&self, place: usize) -> Option<HandlerNumber>
        ensures { result ≡ option_map (λ s. s.handler) (slice_get (settlements_of self.now) place) }
    {
        let entry = *self.entries.get(place)?;
        Some(packed_at(entry, self.packed.as_slice()).handler)
    }

    /// The settlement at a place. The time that it takes doesn't depend on how many there are.
    pub fn get(&self, place: usize) -> Option<Settlement>
        ensures { result ≡ slice_get (settlements_of self.now) place }
    {
        let entry = *self.entries.get(place)?;
        Some(settlement_at(entry, self.packed.as_slice(), self.values.as_slice()))
    }

    /// Whether the settlement at a place equals the one at a place of another log, or neither is there.
    pub fn agrees_at(&self, place: usize, other: &Log, its_place: usize) -> bool
        ensures { IsTrue result ↔ slice_get (settlements_of self.now) place ≡ slice_get (settlements_of other.now) its_place }
    {
        match (self.entries.get(place), other.entries.get(its_place)) {
            (Some(entry), Some(its_entry)) => {
                same_settlement(*entry, self.beside(), *its_entry, other.beside())
            }
            (None, None) => true,
            _ => false,
        }
    }

    /// What lies beside all its entries.
    fn beside(&self) -> Beside<'_>
        ensures packed { result.packed.now ≡ self.now.packed.items }
        ensures values { result.values.now ≡ self.now.values.items }
    {
        Beside {
            packed: self.packed.as_slice(),
            values: self.values.as_slice(),
        }
    }

    /// Makes room for this number of settlements. Its error says that memory ran out.
    ///
    /// It is inlined as a test, and seldom makes a call.
    #[inline(always)]
    pub fn reserve(&mut self, more: usize) -> Result<(), AllocError>
        requires few { more ≤ 1024 }
        ensures ok { OnOk result (HasPlaces more self.new) }
        ensures err { OnErr result (HasPlaces more self.old → ⊥) }
        ensures settlements { settlements_of self.new ≡ settlements_of self.old }
        ensures len { vec_len self.new.entries ≡ vec_len self.old.entries }
        ensures kept { (n : ℕ) → HasPlaces n self.old → HasPlaces n self.new }
    {
        if more <= self.room {
            return Ok(());
        }
        self.find_room(more)
    }

    /// Finds room for this number of settlements and more. It takes memory if there is none for them.
    #[inline(never)]
    fn find_room(&mut self, more: usize) -> Result<(), AllocError>
        requires few { more ≤ 1024 }
        ensures ok { OnOk result (HasPlaces more self.new) }
        ensures err { OnErr result (HasPlaces more self.old → ⊥) }
        ensures settlements { settlements_of self.new ≡ settlements_of self.old }
        ensures len { vec_len self.new.entries ≡ vec_len self.old.entries }
        ensures kept { (n : ℕ) → HasPlaces n self.old → HasPlaces n self.new }
    {
        let ahead = more.max(PLACES_AHEAD);
        if self.has_places(ahead) {
            self.room = ahead;
            return Ok(());
        }
        if !self.has_places(more) {
            self.grow(more.max(PLACES_AT_ONCE))?;
        }
        self.room = more;
        Ok(())
    }

    /// Whether there is room for this number of settlements.
    fn has_places(&self, more: usize) -> bool
        requires few { more ≤ 1024 }
        ensures { IsTrue result ↔ HasPlaces more self.now }
    {
        self.has_numbers(more)
            && self.entries.capacity() - self.entries.len() >= more
            && self.packed.capacity() - self.packed.len() >= more
            && self.values.capacity() - self.values.len() >= 32 * more
    }

    /// Whether there are numbers of 32 bits for this number of settlements.
    fn has_numbers(&self, more: usize) -> bool
        requires few { more ≤ 1024 }
        ensures { IsTrue result ↔ (vec_len self.now.packed + more ≤ 2 ^ 32) × (vec_len self.now.values + 32 * more ≤ 2 ^ 32) }
    {
        self.packed.len() <= (1 << 32) - more && self.values.len() <= (1 << 32) - 32 * more
    }

    /// Takes memory for this number of settlements.
    #[inline(never)]
    fn grow(&mut self, more: usize) -> Result<(), AllocError>
        requires few { more ≤ 1024 }
        requires lacking { HasPlaces more self.old → ⊥ }
        ensures ok { OnOk result (HasPlaces more self.new) }
        ensures settlements { settlements_of self.new ≡ settlements_of self.old }
        ensures len { vec_len self.new.entries ≡ vec_len self.old.entries }
        ensures kept { (n : ℕ) → HasPlaces n self.old → HasPlaces n self.new }
    {
        if !self.has_numbers(more) {
            return Err(AllocError);
        }
        self.recently_packed.reserve()?;
        self.recent_values.reserve()?;
        self.entries.reserve(more)?;
        self.packed.reserve(more.max(PACKED_AT_ONCE))?;
        self.values.reserve(32 * more)
    }

    /// Adds the settlement of a handler, if there is room.
    pub fn push(&mut self, handler: HandlerNumber, job: &Job, turns: u32, want: &Want)
        requires room { HasPlaces 1 self.old }
        ensures settlements { settlements_of self.new ≡ settlements_of self.old ++ settlement handler job.now turns want.now ∷ [] }
        ensures len { vec_len self.new.entries ≡ vec_len self.old.entries + 1 }
        ensures kept { (n : ℕ) → HasPlaces (n + 1) self.old → HasPlaces n self.new }
    {
        let entry = LogEntry {
            packed: number_of(
                &mut self.packed,
                &mut self.recently_packed,
                handler,
                job,
                turns,
                want,
            ),
            first_value: place_of(
                &mut self.values,
                &mut self.recent_values,
                job_values(job),
                want_values(want),
            ),
        };
        self.entries.push_reserved(entry);
        self.room = self.room.saturating_sub(1);
    }
}

/// The packed settlement of an entry.
fn packed_at(entry: LogEntry, packed: &[PackedSettlement]) -> &PackedSettlement
    requires { entry.packed < length packed.now }
    ensures { result.now ≡ packed_in packed.now entry }
{
    &packed[entry.packed as usize]
}

/// The settlement of the entry, from the parts of the log.
fn settlement_at(entry: LogEntry, packed: &[PackedSettlement], values: &[Value]) -> Settlement
    requires { IsWithin packed.now (length values.now) entry }
    ensures { result ≡ settlement_in packed.now values.now entry }
{
    packed_at(entry, packed).unpack(&values[entry.first_value as usize..])
}

/// Whether two entries are equal settlements, each with the parts of its log.
fn same_settlement(a: LogEntry, all: Beside<'_>, b: LogEntry, its: Beside<'_>) -> bool
    requires within { IsWithin all.packed.now (length all.values.now) a }
    requires its_within { IsWithin its.packed.now (length its.values.now) b }
    ensures { IsTrue result ↔ settlement_beside all.entry a ≡ settlement_beside its.entry b }
{
    same_told(
        packed_at(a, all.packed),
        &all.values[a.first_value as usize..],
        packed_at(b, its.packed),
        &its.values[b.first_value as usize..],
    )
}
