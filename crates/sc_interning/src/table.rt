//! Values by number.
ghost use Rattle.std.specs.Prelude.{◌≡◌, ◌≤◌, ◌<◌, ◌++◌, ◌∷◌, [], ℕ, IfNone, IfOk, IfSome, OnErr, OnOk, Some, length, slice_get};
ghost use Rattle.sc_interning.specs.Views.{hashes_of};

use crate::index::Index;
use crate::probe::Probe;
use std::alloc::{AllocError, Global};

/// Values by number, in the order in which they were pushed. Each has a hash.
#[derive(Drop)]
pub struct Table<V: Drop> {
    pub(crate) values: Vec<V>,
    pub(crate) index: Index,
    ghost hashed: { length (hashes_of index) ≡ length values.items },
}

impl<V: Drop> Table<V> {
    ghost use Rattle.sc_interning.specs.Tables.{hashes_in_table, values_of};

    /// A table with no value.
    ///
    /// # Errors
    /// Memory ran out.
    pub fn new(alloc: Global) -> Result<Table<V>, AllocError>
        ensures values { IfOk result (λ table. values_of table ≡ []) }
        ensures hashes { IfOk result (λ table. hashes_in_table table ≡ []) }
    {
        Ok(Table {
            values: Vec::new(alloc),
            index: Index::new(alloc)?,
        })
    }

    /// How many values there are.
    pub fn len(&self) -> u32
        ensures values { result ≡ length (values_of self.now) }
        ensures hashes { result ≡ length (hashes_in_table self.now) }
    {
        self.index.len()
    }

    /// The value of the number.
    pub fn value(&self, number: u32) -> &V
        requires { number < length (values_of self.now) }
        ensures { slice_get (values_of self.now) number ≡ Some result.now }
    {
        &self.values[number as usize]
    }

    /// All values, in the order of their numbers.
    pub fn values(&self) -> &[V]
        ensures { result.now ≡ values_of self.now }
    {
        &self.values
    }

    /// The number of a value with this hash that the probe looks for, or none.
    pub fn find<P: Probe>(&self, hash: u32, probe: &P) -> Option<u32>
        requires { length (values_of self.now) ≤ P.count probe.now }
        ensures found { IfSome result (P.Fits probe.now) }
        ensures within { IfSome result (λ number. number < length (values_of self.now)) }
        ensures none { IfNone result ((number : ℕ) → slice_get (hashes_in_table self.now) number ≡ Some hash → P.Fits probe.now number → ⊥) }
    {
        self.index.find(hash, probe)
    }

    /// Adds a value with this hash, and returns its number.
    ///
    /// # Errors
    /// Memory ran out, or there are 4,294,967,294 values. Nothing is added then.
    pub fn push(&mut self, value: V, hash: u32) -> Result<u32, AllocError>
        ensures number { IfOk result (λ number. number ≡ length (values_of self.old)) }
        ensures values { OnOk result (values_of self.new ≡ values_of self.old ++ value ∷ []) }
        ensures hashes { OnOk result (hashes_in_table self.new ≡ hashes_in_table self.old ++ hash ∷ []) }
        ensures err_values { OnErr result (values_of self.new ≡ values_of self.old) }
        ensures err_hashes { OnErr result (hashes_in_table self.new ≡ hashes_in_table self.old) }
    {
        let number = self.index.len();
        self.values.reserve(1)?;
        self.index.push(hash)?;
        self.values.push_reserved(value);
        Ok(number)
    }
}
