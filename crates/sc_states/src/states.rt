//! The states that a search has met.
ghost use Rattle.std.specs.Prelude.{◌≡◌, ◌<◌, ◌++◌, ◌∷◌, [], ℕ, IfNone, IfOk, IfSome, OnErr, OnOk, Some, get_or, length, map, reverse, slice_get};
ghost use Rattle.sc_interning.specs.Views.{hashes_of};
ghost use Rattle.sc_states.specs.Distinct.{AreDistinct};
ghost use Rattle.sc_states.specs.Hashes.{hash_of};
ghost use Rattle.sc_states.specs.Orders.{AreEarlier, orders_in};
ghost use Rattle.sc_states.specs.RowViews.{rows_of};

use crate::hashing::hash_of;
use crate::rows::Rows;
use sc_interning::{Index, Probe};
use std::alloc::{AllocError, Global};

/// The states that a search has met, by number in the order in which they were met. No two have the same tuple.
#[derive(Drop)]
pub struct States {
    alloc: Global,
    pub(crate) tuples: Rows<u32>,
    /// The turns that led to each state from the state before it.
    pub(crate) steps: Rows<u16>,
    /// The state before each. That of the first means nothing.
    pub(crate) parents: Vec<u32>,
    index: Index,
    ghost stepped: { length (rows_of steps) ≡ length (rows_of tuples) },
    ghost counted: { length parents.items ≡ length (rows_of tuples) },
    ghost earlier: { AreEarlier parents.items },
    ghost hashed: { map hash_of (rows_of tuples) ≡ hashes_of index },
    ghost distinct: { AreDistinct (rows_of tuples) },
}

impl States {
    ghost use Rattle.sc_states.specs.Views.{numbers_of, orders_of, steps_of, tuples_of};

    /// No states.
    ///
    /// # Errors
    /// Memory ran out.
    pub fn new(alloc: Global) -> Result<States, AllocError>
        ensures tuples { IfOk result (λ states. tuples_of states ≡ []) }
        ensures orders { IfOk result (λ states. orders_of states ≡ []) }
    {
        Ok(States {
            alloc,
            tuples: Rows::new(alloc),
            steps: Rows::new(alloc),
            parents: Vec::new(alloc),
            index: Index::new(alloc)?,
        })
    }

    /// How many there are.
    pub fn len(&self) -> u32
        ensures tuples { result ≡ length (tuples_of self.now) }
        ensures orders { result ≡ length (orders_of self.now) }
        ensures distinct { AreDistinct (tuples_of self.now) }
    {
        self.index.len()
    }

    /// How many numbers all tuples have.
    pub fn number_count(&self) -> u32
        ensures { result ≡ numbers_of self.now }
    {
        self.tuples.total()
    }

    /// How many turns lead to states from those before them.
    pub fn step_count(&self) -> u32
        ensures { result ≡ steps_of self.now }
    {
        self.steps.total()
    }

    /// The tuple of the state with the number.
    pub fn tuple(&self, number: u32) -> &[u32]
        requires { number < length (tuples_of self.now) }
        ensures { slice_get (tuples_of self.now) number ≡ Some result.now }
    {
        self.tuples.row(number)
    }

    /// The number of the state with the tuple, if it was met.
    pub fn find(&self, tuple: &[u32]) -> Option<u32>
        ensures found { IfSome result (λ number. slice_get (tuples_of self.now) number ≡ Some tuple.now) }
        ensures none { IfNone result ((number : ℕ) → slice_get (tuples_of self.now) number ≡ Some tuple.now → ⊥) }
    {
        let sought = Sought {
            states: self,
            tuple,
        };
        self.index.find(hash_of(tuple), &sought)
    }

    /// Keeps a state that was not met before, to which these turns led from the state with the number `parent`. If it is
    /// the first one, they led to it from the opening, and `parent` means nothing.
    ///
    /// # Errors
    /// Memory ran out, or there are more states or turns than a `u32` can number. The states are as they were then.
    pub fn push(&mut self, tuple: &[u32], parent: u32, step: &[u16]) -> Result<(), AllocError>
        requires new { (number : ℕ) → slice_get (tuples_of self.old) number ≡ Some tuple.now → ⊥ }
        requires earlier { 0 < length (tuples_of self.old) → parent < length (tuples_of self.old) }
        ensures tuples { OnOk result (tuples_of self.new ≡ tuples_of self.old ++ tuple.now ∷ []) }
        ensures orders { OnOk result (orders_of self.new ≡ orders_of self.old ++ (get_or (orders_of self.old) parent [] ++ step.now) ∷ []) }
        ensures err_tuples { OnErr result (tuples_of self.new ≡ tuples_of self.old) }
        ensures err_orders { OnErr result (orders_of self.new ≡ orders_of self.old) }
    {
        self.tuples.make_room(tuple.len())?;
        self.steps.make_room(step.len())?;
        self.parents.reserve(1)?;
        self.index.push(hash_of(tuple))?;
        self.tuples.push(tuple);
        self.steps.push(step);
        self.parents.push_reserved(parent);
        Ok(())
    }

    /// The turns that led to the state with the number, from the opening on.
    ///
    /// # Errors
    /// Memory ran out.
    pub fn order(&self, number: u32) -> Result<Vec<u16>, AllocError>
        requires { number < length (tuples_of self.now) }
        ensures { IfOk result (λ turns. turns.items ≡ get_or (orders_of self.now) number []) }
    {
        let mut turns = Vec::new(self.alloc);
        let mut at = number;
        while at > 0 {
            push_reversed(&mut turns, self.steps.row(at))?;
            at = self.parents[at as usize];
        }
        push_reversed(&mut turns, self.steps.row(0))?;
        turns.reverse();
        Ok(turns)
    }
}

/// Adds these turns, the last one first.
fn push_reversed(turns: &mut Vec<u16>, step: &[u16]) -> Result<(), AllocError>
    ensures { OnOk result (turns.new.items ≡ turns.old.items ++ reverse step.now) }
{
    for handler in step.iter().rev() {
        turns.push(*handler)?;
    }
    Ok(())
}

/// A tuple that is looked for.
#[derive(Clone, Copy)]
struct Sought<'s> {
    states: &'s States,
    tuple: &'s [u32],
}

impl Probe for Sought<'_> {
    ghost use Rattle.sc_states.specs.Views.{tuples_of};

    ghost count = { λ s. length (tuples_of s.states.now) };

    ghost Fits = { λ s number. slice_get (tuples_of s.states.now) number ≡ Some s.tuple.now };

    fn fits(&self, number: u32) -> bool {
        self.states.tuple(number) == self.tuple
    }
}
