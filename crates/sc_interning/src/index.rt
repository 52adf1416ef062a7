//! Numbers by hash.
ghost use Rattle.std.specs.Prelude.{◌≡◌, ◌≤◌, ◌<◌, ◌++◌, ◌∷◌, [], ℕ, IfNone, IfOk, IfSome, OnErr, OnOk, Some, length, replicate, slice_get};
ghost use Rattle.sc_interning.specs.Chains.{AreChained, hashes_in};

use crate::probe::Probe;
use std::alloc::{AllocError, Global};

/// How many lists there are at first.
const FIRST_LISTS: usize = 1_024;

/// The hash of a number, and the number after it in its list.
#[derive(Clone, Copy)]
pub(crate) struct Link {
    pub(crate) hash: u32,
    /// One more than the next number in the list, or 0 at the end.
    pub(crate) next: u32,
}

/// The numbers from 0 on, each with a hash, in lists by hash.
#[derive(Drop)]
pub struct Index {
    alloc: Global,
    pub(crate) links: Vec<Link>,
    /// For each list one more than its first number, or 0 if it is empty.
    pub(crate) firsts: Vec<u32>,
    ghost some: { 0 < length firsts.items },
    ghost few: { length links.items < 4294967296 },
    ghost chained: { AreChained (length firsts.items) links.items firsts.items },
}

impl Index {
    ghost use Rattle.sc_interning.specs.Views.{hashes_of};

    /// An index with no number.
    ///
    /// # Errors
    /// Memory ran out.
    pub fn new(alloc: Global) -> Result<Index, AllocError>
        ensures { IfOk result (λ index. hashes_of index ≡ []) }
    {
        Ok(Index {
            alloc,
            links: Vec::new(alloc),
            firsts: empty_lists(alloc, FIRST_LISTS)?,
        })
    }

    /// How many numbers there are.
    pub fn len(&self) -> u32
        ensures { result ≡ length (hashes_of self.now) }
    {
        self.links.len() as u32
    }

    /// The last number of this hash that the probe looks for, or none.
    pub fn find<P: Probe>(&self, hash: u32, probe: &P) -> Option<u32>
        requires { length (hashes_of self.now) ≤ P.count probe.now }
        ensures found { IfSome result (P.Fits probe.now) }
        ensures within { IfSome result (λ number. number < length (hashes_of self.now)) }
        ensures none { IfNone result ((number : ℕ) → slice_get (hashes_of self.now) number ≡ Some hash → P.Fits probe.now number → ⊥) }
    {
        let mut at = self.firsts[hash as usize % self.firsts.len()];
        while at > 0 {
            let link = self.links[(at - 1) as usize];
            if link.hash == hash && probe.fits(at - 1) {
                return Some(at - 1);
            }
            at = link.next;
        }
        None
    }

    /// Adds the next number, with this hash.
    ///
    /// # Errors
    /// Memory ran out, or there are 4,294,967,294 numbers. Nothing is added then.
    pub fn push(&mut self, hash: u32) -> Result<(), AllocError>
        ensures added { OnOk result (hashes_of self.new ≡ hashes_of self.old ++ hash ∷ []) }
        ensures err { OnErr result (hashes_of self.new ≡ hashes_of self.old) }
    {
        if self.links.len() >= self.firsts.len() {
            self.grow()?;
        }
        let number = self.links.len();
        if number >= (u32::MAX - 1) as usize {
            return Err(AllocError);
        }
        let list = hash as usize % self.firsts.len();
        let next = self.firsts[list];
        self.links.push(Link { hash, next })?;
        self.firsts[list] = number as u32 + 1;
        Ok(())
    }

    /// Spreads the numbers over more lists.
    fn grow(&mut self) -> Result<(), AllocError>
        ensures { hashes_of self.new ≡ hashes_of self.old }
    {
        let count = self.links.len() * 2 + FIRST_LISTS;
        let mut firsts = empty_lists(self.alloc, count)?;
        chain(&mut self.links, &mut firsts);
        self.firsts = firsts;
        Ok(())
    }
}

/// Puts each number into its list anew. The lists are empty.
fn chain(links: &mut [Link], firsts: &mut [u32])
    requires some { 0 < length firsts.old }
    requires few { length links.old < 4294967296 }
    requires none { firsts.old ≡ replicate (length firsts.old) 0 }
    ensures chained { AreChained (length firsts.new) links.new firsts.new }
    ensures hashes { hashes_in links.new ≡ hashes_in links.old }
{
    for number in 0..links.len() {
        let hash = links[number].hash;
        let list = hash as usize % firsts.len();
        links[number] = Link {
            hash,
            next: firsts[list],
        };
        firsts[list] = number as u32 + 1;
    }
}

/// This number of empty lists.
fn empty_lists(alloc: Global, count: usize) -> Result<Vec<u32>, AllocError>
    ensures { IfOk result (λ firsts. firsts.items ≡ replicate count 0) }
{
    vec![in alloc; 0; count]
}
