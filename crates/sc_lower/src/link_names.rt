//! The names of a program, each with a number.

ghost use Rattle.std.specs.Prelude.{◌≡◌, ℕ, List, [], Some, IfOk, OnOk, map, slice_get, string_bytes};
ghost use Rattle.sc_code.specs.RequestRoom.{AreDistinct};
ghost use Rattle.sc_lower.specs.Growing.{Extends};

use crate::sums::within_32_bits;
use indexmap::IndexSet;
use sc_code::NameNumber;
use std::alloc::{AllocError, Global};
use std::marker::Model;

/// Names in the order in which they were added, each once. A name is found by hash.
#[derive(Drop)]
pub struct Names<'s> {
    texts: IndexSet<&'s str>,
}

impl<'s> Model for Names<'s> {
    ghost use Rattle.std.specs.Prelude.{ℕ, List, map};
    ghost use Rattle.std.specs.Borrow.{Bor};

    ghost Value = { List (List ℕ) };

    ghost view = { λ names. map (λ (t : Bor (List ℕ)). t.now) names.texts.keys };
}

impl<'s> Names<'s> {
    /// No names.
    pub fn new(alloc: Global) -> Names<'s>
        ensures { result ≡ [] }
    {
        Names {
            texts: IndexSet::new(alloc),
        }
    }

    /// The number of a name, which is added at the end if it is new. It looks once by hash.
    pub fn number(&mut self, text: &'s str) -> Result<NameNumber, AllocError>
        ensures found { IfOk result (λ number. slice_get self.new number ≡ Some text.now) }
        ensures kept { OnOk result (Extends self.old self.new) }
        ensures distinct { AreDistinct self.new }
    {
        let (place, _) = self.texts.insert_full(text)?;
        let number = within_32_bits(place)?;
        Ok(number)
    }

    /// The names, by number.
    pub fn texts(&self, alloc: Global) -> Result<Vec<String>, AllocError>
        ensures { IfOk result (λ texts. map string_bytes texts.items ≡ self.now) }
    {
        let mut texts = Vec::with_capacity(alloc, self.texts.len())?;
        for text in self.texts.as_slice() {
            texts.push(String::from_str(alloc, text)?)?;
        }
        Ok(texts)
    }
}
