//! What lies deeper among the operands, and an `old` more than there was room for.
ghost use Rattle.std.specs.Prelude.{◌≡◌, ◌≤◌, ◌+◌, ◌++◌, ◌↔◌, [], ◌∷◌, IsTrue, OnOk, OnErr, length, drop, nat_lt, slice_get};
ghost use Rattle.sc_region.specs.Calls.{last_values};
ghost use Rattle.sc_region.specs.OperandList.{last_integers};

use super::{Olds, Operands};
use crate::value::Value;
use std::alloc::AllocError;

#[tactic(auto, using(crate::proofs::Stacks::filled_length))]
impl Operands {
    /// The last two operands, where both are integers, the last one second.
    #[inline(always)]
    pub fn integers(&self) -> Option<(i64, i64)>
        ensures { result ≡ last_integers self.now.values }
    {
        match self.under(1) {
            Some(Value::Integer(left)) => match self.last() {
                Some(Value::Integer(right)) => Some((left, right)),
                _ => None,
            },
            _ => None,
        }
    }

    /// Replaces the last `count` operands, at least one, by the value.
    #[inline(always)]
    pub fn replace(&mut self, count: usize, value: Value)
        requires some { 1 ≤ count }
        requires many { count ≤ length self.old.values }
        ensures { self.new ≡ record self.old { values = value ∷ drop count self.old.values } }
    {
        let left = self.count - count;
        self.items[left] = value;
        self.count = left + 1;
    }

    /// How many operands there are.
    #[inline(always)]
    pub fn len(&self) -> usize
        ensures { result ≡ length self.now.values }
    {
        self.count
    }

    /// The operand below the last `count`.
    #[inline(always)]
    pub fn under(&self, count: usize) -> Option<Value>
        ensures { result ≡ slice_get self.now.values count }
    {
        if count < self.count {
            Some(self.items[self.count - 1 - count])
        } else {
            None
        }
    }

    /// The last `count` operands, in the order of the text.
    #[inline(always)]
    pub(crate) fn last_values(&self, count: usize) -> &[Value]
        requires { count ≤ length self.now.values }
        ensures { result.now ≡ last_values count self.now.values }
    {
        &self.items[self.count - count..self.count]
    }

    /// Whether there is room for this number of further operands.
    #[inline(always)]
    pub fn has_room(&self, count: usize) -> bool
        ensures { IsTrue result ↔ (length self.now.values + count ≤ self.now.depth) }
    {
        self.depth - self.count >= count
    }

    /// Whether there is room for one more after the last `count` are removed.
    #[inline(always)]
    pub fn has_room_under(&self, count: usize) -> bool
        ensures { result ≡ nat_lt (length (drop count self.now.values)) self.now.depth }
    {
        self.count.saturating_sub(count) < self.depth
    }

    /// Removes the last `count` operands.
    #[inline(always)]
    pub fn drop_last(&mut self, count: usize)
        ensures { self.new ≡ record self.old { values = drop count self.old.values } }
    {
        self.count = self.count.saturating_sub(count);
    }
}

impl Olds {
    /// Adds a value. It takes memory only if there is no room left; the room stays as it was. Its error says that
    /// memory ran out, and nothing has changed then.
    pub fn keep(&mut self, value: Value) -> Result<(), AllocError>
        ensures ok { OnOk result (self.new ≡ record self.old { values = self.old.values ++ value ∷ [] }) }
        ensures err { OnErr result (self.new ≡ self.old) }
    {
        if self.is_full() {
            self.items.reserve(1)?;
        }
        self.items.push_reserved(value);
        Ok(())
    }
}
