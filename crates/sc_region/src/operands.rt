//! The operands of a routine, and the values that its postcondition keeps from before the body.
ghost use Rattle.std.specs.Prelude.{◌≡◌, ◌<◌, ◌≤◌, ◌+◌, [], ◌∷◌, ◌++◌, ◌↔◌, IfOk, OnOk, IfSome, IfNone, IsTrue, length, replicate, slice_get, vec_capacity, vec_len};
ghost use Rattle.sc_region.specs.declared.value.Value.TheVariants.{Void};
ghost use Rattle.sc_region.specs.OperandList.{last};

mod equality;
mod reach;

use crate::value::Value;
use std::alloc::{AllocError, Global};
use std::marker::Model;

/// The operands of a routine, at most `depth` of them, whose memory is all there from the start: 16 bytes each.
#[derive(Drop)]
pub struct Operands {
    depth: usize,
    /// How many there are.
    count: usize,
    /// The operands come first, the last one last. The rest is unused memory with old values.
    items: Vec<Value>,
}

impl Model for Operands {
    ghost use Rattle.std.specs.Prelude.{[], ◌≤◌, length, take};
    ghost use Rattle.sc_region.specs.OperandList.{OperandList, operands_onto};

    ghost Value = { OperandList };

    ghost view = { λ o. record { depth = o.depth; values = operands_onto (take o.count o.items.items) [] } };

    ghost invariant = { λ o. (o.count ≤ o.depth) × (o.depth ≤ length o.items.items) };
}

#[tactic(auto, using(crate::proofs::Stacks::filled_length, crate::proofs::Stacks::filled_push, crate::proofs::Stacks::filled_pop))]
impl Operands {
    /// No operands, and no room for any.
    pub(crate) fn empty(alloc: Global) -> Operands
        ensures { result ≡ record { depth = 0; values = [] } }
    {
        Operands {
            depth: 0,
            count: 0,
            items: Vec::new(alloc),
        }
    }

    /// A copy. Its error says that memory ran out.
    pub(crate) fn copy(&self, alloc: Global) -> Result<Operands, AllocError>
        ensures { IfOk result (λ operands. operands ≡ self.now) }
    {
        Ok(Operands {
            depth: self.depth,
            count: self.count,
            items: Vec::from_slice(alloc, &self.items)?,
        })
    }

    /// Removes all operands, and makes room for this number. Its error says that memory ran out.
    pub(crate) fn reset(&mut self, depth: usize) -> Result<(), AllocError>
        ensures { OnOk result (self.new ≡ record { depth = depth; values = [] }) }
    {
        if self.items.len() < depth {
            fill(&mut self.items, depth)?;
        }
        self.depth = depth;
        self.count = 0;
        Ok(())
    }

    /// Removes all operands and returns True if there is memory for this number already; else changes nothing.
    #[inline(always)]
    pub(crate) fn reset_in_place(&mut self, depth: usize) -> bool
        ensures { IsTrue result → self.new ≡ record { depth = depth; values = [] } }
    {
        if self.items.len() < depth {
            return false;
        }
        self.depth = depth;
        self.count = 0;
        true
    }

    /// Whether there is no room for one more.
    #[inline(always)]
    pub fn is_full(&self) -> bool
        ensures { IsTrue result ↔ (self.now.depth ≤ length self.now.values) }
    {
        self.count >= self.depth
    }

    /// One more operand, which takes no memory.
    #[inline(always)]
    pub fn push(&mut self, value: Value)
        requires { length self.old.values < self.old.depth }
        ensures { self.new ≡ record self.old { values = value ∷ self.old.values } }
    {
        self.items[self.count] = value;
        self.count += 1;
    }

    /// The last operand goes, if there is one.
    #[inline(always)]
    pub fn pop(&mut self) -> Option<Value>
        ensures depth { self.new.depth ≡ self.old.depth }
        ensures room { IfSome result (λ value. length self.new.values < self.new.depth) }
        ensures some { IfSome result (λ value. self.old.values ≡ value ∷ self.new.values) }
        ensures none { IfNone result ((self.old.values ≡ []) × (self.new.values ≡ [])) }
    {
        if self.count == 0 {
            None
        } else {
            self.count -= 1;
            Some(self.items[self.count])
        }
    }

    /// The last operand.
    #[inline(always)]
    pub fn last(&self) -> Option<Value>
        ensures { result ≡ last self.now.values }
    {
        if self.count == 0 {
            None
        } else {
            Some(self.items[self.count - 1])
        }
    }
}

/// Fills the list up to this number of values. Its error says that memory ran out. (A function of its own, since it
/// is seldom called: the memory stays from one routine to the next.)
#[inline(never)]
fn fill(items: &mut Vec<Value>, count: usize) -> Result<(), AllocError>
    requires { vec_len items.old ≤ count }
    ensures filled { OnOk result (count ≤ vec_len items.new) }
    ensures longer { vec_len items.old ≤ vec_len items.new }
{
    let more = count - items.len();
    items.reserve(more)?;
    add_voids(items, more);
    Ok(())
}

/// Adds this number of Voids, for which there is room.
#[tactic(auto, using(crate::proofs::FilledSlots::slot_more))]
pub(crate) fn add_voids(items: &mut Vec<Value>, count: usize)
    requires { vec_len items.old + count ≤ vec_capacity items.old }
    ensures { items.new.items ≡ items.old.items ++ replicate count Void }
{
    for _i in 0..count {
        items.push_reserved(Value::Void);
    }
}

/// The values of the `old` expressions of a postcondition, in the order of the text. The memory of `room` of them is there
/// from the start, 16 bytes each; more take memory as they come.
#[derive(Drop)]
pub struct Olds {
    room: usize,
    items: Vec<Value>,
}

impl Model for Olds {
    ghost use Rattle.std.specs.Prelude.{◌≤◌, vec_capacity};
    ghost use Rattle.sc_region.specs.OperandList.{OldList};

    ghost Value = { OldList };

    ghost view = { λ o. record { room = o.room; values = o.items.items } };

    ghost invariant = { λ o. o.room ≤ vec_capacity o.items };
}

impl Olds {
    /// No values, and no room for any.
    pub(crate) fn empty(alloc: Global) -> Olds
        ensures { result ≡ record { room = 0; values = [] } }
    {
        Olds {
            room: 0,
            items: Vec::new(alloc),
        }
    }

    /// A copy. Its error says that memory ran out.
    pub(crate) fn copy(&self, alloc: Global) -> Result<Olds, AllocError>
        ensures { IfOk result (λ olds. olds ≡ self.now) }
    {
        let mut items = Vec::with_capacity(alloc, self.room)?;
        items.extend_from_slice(&self.items)?;
        Ok(Olds {
            room: self.room,
            items,
        })
    }

    /// Removes all values, and makes room for this number. Its error says that memory ran out.
    pub(crate) fn reset(&mut self, room: usize) -> Result<(), AllocError>
        ensures { OnOk result (self.new ≡ record { room = room; values = [] }) }
    {
        empty_for(&mut self.items, room)?;
        self.room = room;
        Ok(())
    }

    /// Removes all values and returns True if there is memory for this number already; else changes nothing.
    #[inline(always)]
    pub(crate) fn reset_in_place(&mut self, room: usize) -> bool
        ensures { IsTrue result → self.new ≡ record { room = room; values = [] } }
    {
        if self.items.capacity() < room {
            return false;
        }
        self.items.clear();
        self.room = room;
        true
    }

    /// Whether there is no room for one more.
    #[inline(always)]
    pub fn is_full(&self) -> bool
        ensures { IsTrue result ↔ (self.now.room ≤ length self.now.values) }
    {
        self.items.len() >= self.room
    }

    /// One more value, which takes no memory.
    #[inline(always)]
    pub fn push(&mut self, value: Value)
        requires { length self.old.values < self.old.room }
        ensures { self.new ≡ record self.old { values = self.old.values ++ value ∷ [] } }
    {
        self.items.push_reserved(value)
    }

    /// The value at the place, from 0.
    pub fn get(&self, place: usize) -> Option<Value>
        ensures { result ≡ slice_get self.now.values place }
    {
        self.items.get(place).copied()
    }
}

/// Removes all values, and makes room for this number. Its error says that memory ran out.
pub(crate) fn empty_for(items: &mut Vec<Value>, count: usize) -> Result<(), AllocError>
    ensures empty { items.new.items ≡ [] }
    ensures room { OnOk result (count ≤ vec_capacity items.new) }
    ensures capacity { vec_capacity items.old ≤ vec_capacity items.new }
{
    items.clear();
    if items.capacity() < count {
        grow(items, count)?;
    }
    Ok(())
}

/// Makes room for this number of further values. Its error says that memory ran out. (A function of its own, since it
/// is seldom called: the memory stays from one routine to the next.)
#[inline(never)]
fn grow(items: &mut Vec<Value>, count: usize) -> Result<(), AllocError>
    ensures items { items.new.items ≡ items.old.items }
    ensures room { OnOk result (count ≤ vec_capacity items.new) }
    ensures capacity { vec_capacity items.old ≤ vec_capacity items.new }
{
    items.reserve(count)
}
