//! The table of the lines of a source text, and the places that are looked up in it.

ghost use Rattle.std.specs.Prelude.{◌≡◌, ◌<◌, ◌≤◌, IfOk, IfSome, List};
ghost use Rattle.std.specs.List.{All};
ghost use Rattle.std.specs.Option.{option_map};
ghost use Rattle.sc_source.specs.Source as source_spec;
ghost use Rattle.sc_places.specs.Lines as spec;

use crate::lines::{Line, line_before};
use sc_source::source::{Place, Source};
use std::alloc::{AllocError, Global};
use std::marker::Model;

/// A source text with the table of its lines.
#[derive(Drop)]
pub struct Places<'s> {
    source: &'s Source,
    /// From the last line to the first.
    lines: Vec<Line<'s>>,
}

impl<'s> Model for Places<'s> {
    ghost Value = { List source_spec.File };

    ghost view = { λ p. p.source.now };

    ghost invariant = { λ p. All (spec.IsLine p.source.now) p.lines.items };
}

impl<'s> Places<'s> {
    /// The places of this source text.
    pub fn of(alloc: Global, source: &'s Source) -> Result<Self, AllocError>
        ensures { IfOk result (λ places. places ≡ source.now) }
    {
        let mut lines: Vec<Line<'s>> = Vec::new(alloc);
        let length = source.text().len();
        let mut left = length;
        let mut next = None;
        for _ in 0..length {
            let Some(line) = line_before(source, next, left) else {
                break;
            };
            lines.push(line)?;
            left = line.start;
            next = Some(line);
        }
        Ok(Places { source, lines })
    }

    /// The source text.
    pub fn source(&self) -> &'s Source
        ensures { result.now ≡ self.now }
    {
        self.source
    }

    /// The place of the byte at `offset` of the whole text, or None if the text ends before it. The line feed after a
    /// file's text belongs to that file.
    pub fn place_of(&self, offset: usize) -> Option<Place<'s>>
        ensures { option_map source_spec.seen result ≡ source_spec.place_of self.now offset }
    {
        match self.line_of(offset) {
            Some(line) => Some(Place {
                file: line.file,
                line: line.number,
                column: offset - line.start + 1,
            }),
            None => self.source.place_of(offset),
        }
    }

    /// The offset of a byte in its file, from 0, or None if the text ends before it: so many bytes are after the first of
    /// the lines that the file has up to there.
    pub fn byte_of(&self, offset: usize) -> Option<usize> {
        let last = self.number_of(offset);
        let Some(line) = self.lines.get(last) else {
            return None;
        };
        let number = last.saturating_add(line.number).saturating_sub(1);
        match self.lines.get(number) {
            Some(first) => offset.checked_sub(first.start),
            None => None,
        }
    }

    /// The line that has the byte at `offset` of the whole text.
    fn line_of(&self, offset: usize) -> Option<&Line<'s>>
        ensures { IfSome result (λ line. spec.IsLine self.now line.now × (line.now.start ≤ offset) × (offset < line.now.end)) }
    {
        match self.lines.get(self.number_of(offset)) {
            Some(line) if line.start <= offset && offset < line.end => Some(line),
            _ => None,
        }
    }

    /// The number of the last line that begins no later than the byte at `offset`, from the end of the text.
    fn number_of(&self, offset: usize) -> usize {
        self.lines.partition_point(|line| line.start > offset)
    }
}
