//! Packed settlements and values that are looked for before they are added, so that what comes again is kept once.
ghost use Rattle.std.specs.Prelude.{◌≡◌, ◌≤◌, ◌+◌, ◌++◌, ◌^◌, IsTrue, Some, drop, length, slice_get, take, vec_capacity, vec_len};
ghost use Rattle.sc_handler.specs.Packed.{packed_of};

use crate::agreement::{is_packed, same_values};
use crate::marks::{settlement_mark, values_mark};
use crate::packed::{PackedSettlement, pack};
use sc_lockpass::HandlerNumber;
use sc_region::{Job, Value, Want};
use std::alloc::{AllocError, Global};

/// The places that are looked at first for a repeated value: the last one for each of a fixed number of hashes.
///
/// No contract says what is found there: it is compared.
#[derive(Drop)]
pub(crate) struct Recent {
    places: Vec<u32>,
}

impl Recent {
    /// No place yet.
    pub(crate) fn new(alloc: Global) -> Recent {
        Recent {
            places: Vec::new(alloc),
        }
    }

    /// Takes the memory that it needs, if it hasn't yet.
    pub(crate) fn reserve(&mut self) -> Result<(), AllocError> {
        if self.places.is_empty() {
            self.places.resize(1024, 0)?;
        }
        Ok(())
    }

    fn get(&self, mark: u64) -> u32 {
        match self.places.get(mark as usize % 1024) {
            Some(place) => *place,
            None => 0,
        }
    }

    fn set(&mut self, mark: u64, place: u32) {
        if let Some(last) = self.places.get_mut(mark as usize % 1024) {
            *last = place;
        }
    }
}

/// The number of these turns of a handler among all that are packed. They are added if they aren't found.
#[tactic(auto, using(crate::proofs::Places::whole_is, crate::proofs::Places::begins_with, crate::proofs::Places::last_at))]
pub(crate) fn number_of(
    all: &mut Vec<PackedSettlement>,
    recent: &mut Recent,
    handler: HandlerNumber,
    job: &Job,
    turns: u32,
    want: &Want,
) -> u32
    requires room { vec_len all.old + 1 ≤ vec_capacity all.old }
    requires numbers { vec_len all.old + 1 ≤ 2 ^ 32 }
    ensures there { slice_get all.new.items result ≡ Some (packed_of handler job.now turns want.now) }
    ensures kept { take (length all.old.items) all.new.items ≡ all.old.items }
    ensures len { vec_len all.new ≤ vec_len all.old + 1 }
    ensures capacity { vec_capacity all.old ≤ vec_capacity all.new }
{
    let mark = settlement_mark(handler, job, turns, want);
    let number = recent.get(mark);
    if let Some(found) = all.get(number as usize)
        && is_packed(found, handler, job, turns, want)
    {
        return number;
    }
    let number = all.len() as u32;
    all.push_reserved(pack(handler, job, turns, want));
    recent.set(mark, number);
    number
}

/// The place of these values among all, with the others after them. They are added if they aren't found.
#[tactic(auto, using(crate::proofs::Places::whole_is, crate::proofs::Places::begins_with_it, crate::proofs::Places::both_lie_behind))]
pub(crate) fn place_of(
    all: &mut Vec<Value>,
    recent: &mut Recent,
    values: &[Value],
    others: &[Value],
) -> u32
    requires few { length values.now ≤ 16 }
    requires few_others { length others.now ≤ 16 }
    requires room { vec_len all.old + 32 ≤ vec_capacity all.old }
    requires numbers { vec_len all.old + 32 ≤ 2 ^ 32 }
    ensures there { take (length values.now + length others.now) (drop result all.new.items) ≡ values.now ++ others.now }
    ensures within { result + (length values.now + length others.now) ≤ length all.new.items }
    ensures kept { take (length all.old.items) all.new.items ≡ all.old.items }
    ensures len { vec_len all.new ≤ vec_len all.old + 32 }
    ensures capacity { vec_capacity all.old ≤ vec_capacity all.new }
{
    let mark = values_mark(values, others);
    let place = recent.get(mark);
    if lie_at(all.as_slice(), place, values, others) {
        return place;
    }
    let place = all.len() as u32;
    append(all, values);
    append(all, others);
    recent.set(mark, place);
    place
}

/// Whether these values are at the place among all, with the others after them.
fn lie_at(all: &[Value], place: u32, values: &[Value], others: &[Value]) -> bool
    requires few { length values.now ≤ 16 }
    requires few_others { length others.now ≤ 16 }
    ensures there { IsTrue result → take (length values.now + length others.now) (drop place all.now) ≡ values.now ++ others.now }
    ensures within { IsTrue result → place + (length values.now + length others.now) ≤ length all.now }
{
    let place = place as usize;
    if all.len() < place || all.len() - place < values.len() + others.len() {
        return false;
    }
    let (front, back) = all[place..].split_at(values.len());
    same_values(front, values) && same_values(&back[..others.len()], others)
}

/// Adds items at the end, if there is room.
fn append<T: Copy>(items: &mut Vec<T>, more: &[T])
    requires { vec_len items.old + length more.now ≤ vec_capacity items.old }
    ensures items { items.new.items ≡ items.old.items ++ more.now }
    ensures len { vec_len items.new ≡ vec_len items.old + length more.now }
    ensures capacity { vec_capacity items.old ≤ vec_capacity items.new }
{
    if more.is_empty() {
        return;
    }
    if more.len() == 1 {
        items.push_reserved(more[0]);
        return;
    }
    append_some(items, more);
}

#[inline(never)]
fn append_some<T: Copy>(items: &mut Vec<T>, more: &[T])
    requires { vec_len items.old + length more.now ≤ vec_capacity items.old }
    ensures items { items.new.items ≡ items.old.items ++ more.now }
    ensures len { vec_len items.new ≡ vec_len items.old + length more.now }
    ensures capacity { vec_capacity items.old ≤ vec_capacity items.new }
{
    let _ = items.extend_from_slice(more);
}
