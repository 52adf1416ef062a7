//! A text with a table of positions.

ghost use Rattle.std.specs.Prelude.{◌≡◌, ℕ, List, IfOk, string_bytes};
ghost use Rattle.sc_documents.specs.Documents.{IsTable};
ghost use Rattle.sc_documents.specs.Positions as spec;

use crate::position::{Position, advanced, position_of};
use std::alloc::{AllocError, Global};
use std::marker::Model;

/// How many bytes are between two positions of the table.
const STEP: usize = 256;

/// A text in which positions are found fast, also if its lines are long.
#[derive(Drop)]
pub struct Document {
    text: String,
    /// The positions of the first byte, of the one `STEP` after it, and so on.
    marks: Vec<Position>,
}

impl Model for Document {
    ghost Value = { List ℕ };

    ghost view = { λ d. string_bytes d.text };

    ghost invariant = { λ d. IsTable (string_bytes d.text) d.marks.items };
}

impl Document {
    /// The document of this text.
    pub fn of(alloc: Global, text: &str) -> Result<Self, AllocError>
        ensures { IfOk result (λ document. document ≡ text.now) }
    {
        let marks = table_of(alloc, text)?;
        Ok(Document {
            text: String::from_str(alloc, text)?,
            marks,
        })
    }

    /// Its text.
    pub fn text(&self) -> &str
        ensures { result.now ≡ self.now }
    {
        self.text.as_str()
    }

    /// The position of the byte at an offset; that of the end after the end.
    pub fn position_of(&self, offset: usize) -> Position
        ensures { result ≡ spec.position_of self.now offset }
    {
        let index = offset / STEP;
        let start = index * STEP;
        let bytes = self.text.as_bytes();
        match self.marks.get(index) {
            Some(mark) if start <= bytes.len() => advanced(*mark, &bytes[start..], offset - start),
            _ => position_of(self.text.as_str(), offset),
        }
    }
}

/// The table of positions of a text.
#[tactic(auto, using(crate::proofs::Tables::none))]
fn table_of(alloc: Global, text: &str) -> Result<Vec<Position>, AllocError>
    ensures { IfOk result (λ marks. IsTable text.now marks.items) }
{
    let bytes = text.as_bytes();
    let mut marks = Vec::new(alloc);
    let mut mark = Position {
        line: 0,
        character: 0,
    };
    marks.push(mark)?;
    let mut start = 0;
    while bytes.len() - start >= STEP {
        mark = advanced(mark, &bytes[start..], STEP);
        marks.push(mark)?;
        start += STEP;
    }
    Ok(marks)
}
