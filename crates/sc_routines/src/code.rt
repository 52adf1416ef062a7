//! The code of a routine while it is written.

ghost use Rattle.std.specs.Prelude.{◌≡◌, ◌<◌, ◌++◌, [], ◌∷◌, List, OnOk, length, map, slice_set};
ghost use Rattle.sc_code.specs.Operations as plain;
ghost use Rattle.sc_routines.specs.Unlinked.{operation_in, unlinked};

use crate::unlinked::UnlinkedOperation;
use sc_code::TextSite;
use std::alloc::{AllocError, Global};
use std::marker::Model;

/// An operation, and what it was made of.
#[derive(Drop)]
pub struct SitedOperation<'s> {
    pub operation: UnlinkedOperation<'s>,
    pub site: TextSite,
}

/// Operations one after the other, as definitions see them: without what they were made of.
#[derive(Drop)]
pub struct Code<'s> {
    operations: Vec<SitedOperation<'s>>,
}

impl<'s> Model for Code<'s> {
    ghost Value = { List plain.Operation };

    ghost view = { λ c. map operation_in c.operations.items };
}

impl<'s> Code<'s> {
    /// No operation.
    pub(crate) fn new(alloc: Global) -> Self
        ensures { result ≡ [] }
    {
        Code {
            operations: Vec::new(alloc),
        }
    }

    /// How many operations there are.
    pub(crate) fn len(&self) -> usize
        ensures { result ≡ length self.now }
    {
        self.operations.len()
    }

    /// Adds an operation at the end, made of the text at the site.
    pub(crate) fn push(
        &mut self,
        site: TextSite,
        operation: UnlinkedOperation<'s>,
    ) -> Result<(), AllocError>
        ensures { OnOk result (self.new ≡ self.old ++ unlinked operation.entry ∷ []) }
    {
        self.operations.push(SitedOperation { operation, site })?;
        Ok(())
    }

    /// Replaces the operation at the number by one made of the same text.
    pub(crate) fn set(&mut self, place: usize, operation: UnlinkedOperation<'s>)
        requires { place < length self.old }
        ensures { self.new ≡ slice_set self.old place (unlinked operation.entry) }
    {
        let site = self.operations[place].site;
        self.operations[place] = SitedOperation { operation, site };
    }

    /// The operations, and what they were made of.
    pub fn operations(&self) -> &[SitedOperation<'s>]
        ensures { map operation_in result.now ≡ self.now }
    {
        &self.operations
    }
}
