//! The source text of a system: the texts of its files, one after the other.

ghost use Rattle.std.specs.Prelude.{◌≡◌, ◌+◌, ◌<◌, ◌≤◌, ◌∷◌, ◌++◌, [], ℕ, List, IfErr, IfOk, IfSome, IsErr, MatchResult, OnOk, OnErr, drop, get_or, length, map, option_map, string_bytes};
ghost use Rattle.std.specs.List.{All};
ghost use Rattle.std.specs.Str.{IsUtf8};
ghost use Rattle.std.specs.Io.KnownBytes.{IsAtEnd};
ghost use Rattle.sc_text.specs.Spelling.{max_source_bytes};
ghost use Rattle.sc_source.specs.Joining.{AreJoined, AreSound, AreTold, FailsForGood, IsFileFault, IsJoinFault, IsReaderFault, TakesAtMost, names_for, no_memory, source_text};
ghost use Rattle.sc_source.specs.Internal.Files.{files_in};
ghost use Rattle.sc_source.specs.Source as spec;

use crate::reading::{FileFault, read_bytes};
use sc_text::MAX_SOURCE_BYTES;
use std::alloc::{AllocError, AllocFailed, Global};
use std::io::Read;
use std::marker::Model;
use std::str;
use thiserror::Error;

/// The source text of a system: the text of each file in order, each with a line feed after it. A byte
/// order mark at the start of a file is no part of its text.
#[derive(Drop)]
pub struct Source {
    text: String,
    files: Vec<SourceFile>,
}

/// Why files have no source text.
#[derive(Debug, Drop, Error)]
#[error("file {file}, counted from 0: {fault}")]
pub struct JoinFault {
    /// The number of the file at fault, from 0.
    pub file: usize,
    pub fault: FileFault,
}

impl From<AllocError> for JoinFault {
    ghost from_gives = { λ _ why. why.fault ≡ no_memory };

    /// Memory ran out before any file.
    fn from(error: AllocError) -> JoinFault {
        JoinFault {
            file: 0,
            fault: FileFault::from(error),
        }
    }
}

impl<T: Drop> From<AllocFailed<T>> for JoinFault {
    ghost from_gives = { λ _ why. why.fault ≡ no_memory };

    fn from(error: AllocFailed<T>) -> JoinFault {
        JoinFault::from(AllocError::from(error))
    }
}

/// A file's name, and the length of its text in bytes.
#[derive(Drop)]
struct SourceFile {
    name: String,
    length: usize,
}

/// A place in the files: the line and the column count from 1, and a column is a byte.
#[derive(Drop)]
pub struct Place<'s> {
    pub file: &'s str,
    pub line: usize,
    pub column: usize,
}

impl Model for Source {
    ghost Value = { List spec.File };

    ghost view = { λ s. files_in (string_bytes s.text) s.files.items };

    ghost invariant = { λ s. (spec.joined (files_in (string_bytes s.text) s.files.items)
        ≡ string_bytes s.text) × (length (string_bytes s.text) ≤ max_source_bytes) };
}

impl Source {
    /// The source text of no file.
    pub fn new(alloc: Global) -> Self
        ensures { result ≡ [] }
    {
        Source {
            text: String::new(alloc),
            files: Vec::new(alloc),
        }
    }

    /// The whole text.
    pub fn text(&self) -> &str
        ensures { result.now ≡ spec.joined self.now }
    {
        self.text.as_str()
    }

    /// The source text of the files that these readers give, which have these names: a file past the names has an
    /// empty one. A text of 1,048,576 bytes is taken, and one byte more is `TooLong`. The fault is the first one, file by
    /// file, and no reader after it is read from.
    pub fn join<R: Read>(
        alloc: Global,
        names: &[&str],
        readers: &mut [R],
    ) -> Result<Self, JoinFault>
        ensures answer { (files : List (List ℕ)) → AreTold (map R.remaining readers.old) files
            → MatchResult result (AreJoined files) (IsJoinFault files) }
        ensures fits { (files : List (List ℕ)) → AreTold (map R.remaining readers.old) files → AreSound files
            → IfErr result (λ why. IsReaderFault why.fault) }
        ensures too_long { (files : List (List ℕ)) → AreTold (map R.remaining readers.old) files
            → max_source_bytes < length (source_text files) → IsErr result }
        ensures named { IfOk result (λ source. spec.names_of source ≡ names_for (map (λ name. name.now) names.now) (length readers.old)) }
        ensures ended { OnOk result (All (λ reader. IsAtEnd (R.remaining reader)) readers.new) }
        ensures unread { IfErr result (λ fault. drop (fault.file + 1) readers.new ≡ drop (fault.file + 1) readers.old) }
        ensures which { IfErr result (λ why. why.file < length readers.old) }
        ensures failed { IfErr result (λ why. FailsForGood why.fault) }
    {
        let mut source = Source::new(alloc);
        for (file, reader) in readers.iter_mut().enumerate() {
            let name = name_at(names, file);
            if let Err(fault) = source.read_file(alloc, name, reader) {
                return Err(JoinFault { file, fault });
            }
        }
        Ok(source)
    }

    /// Reads a file of that name to its end and adds it. Where that fails nothing is added.
    fn read_file<R: Read>(
        &mut self,
        alloc: Global,
        name: &str,
        reader: &mut R,
    ) -> Result<(), FileFault>
        ensures ok { OnOk result (IfSome (R.remaining reader.old) (λ file. IsUtf8 file
            × ((length (spec.unmarked file) < spec.room_after self.old)
            × (self.new ≡ self.old ++ record { name = name.now; text = spec.unmarked file } ∷ [])))) }
        ensures err { IfErr result (λ fault. IfSome (R.remaining reader.old) (λ file. IsFileFault file (spec.room_after self.old) fault)) }
        ensures failed { IfErr result FailsForGood }
        ensures named { OnOk result (spec.names_of self.new ≡ spec.names_of self.old ++ name.now ∷ []) }
        ensures unchanged { OnErr result (self.new ≡ self.old) }
        ensures end { OnOk result (IsAtEnd (R.remaining reader.new)) }
        ensures taken { TakesAtMost (spec.room_after self.old + 3) (R.remaining reader.old) (R.remaining reader.new) }
    {
        let room = MAX_SOURCE_BYTES - self.text.len();
        let bytes = read_bytes(alloc, reader, room)?;
        let text = str::from_utf8(bytes.as_slice())?;
        self.add(alloc, name, text)?;
        Ok(())
    }

    /// The text by itself.
    pub fn into_text(self) -> String
        ensures { string_bytes result ≡ spec.joined self }
    {
        self.text
    }

    /// Adds a file of that name and text. Where memory runs out nothing is added.
    fn add(&mut self, alloc: Global, name: &str, text: &str) -> Result<(), AllocError>
        requires { length (spec.unmarked text.now) < spec.room_after self.old }
        ensures ok { OnOk result (self.new
            ≡ self.old ++ record { name = name.now; text = spec.unmarked text.now } ∷ []) }
        ensures err { OnErr result (self.new ≡ self.old) }
    {
        let text = unmarked(text);
        let name = String::from_str(alloc, name)?;
        let length = text.len();
        self.files.reserve(1)?;
        self.text.reserve(length + 1)?;
        self.text.push_str(text).unwrap();
        self.text.push('\n').unwrap();
        self.files.push(SourceFile { name, length }).unwrap();
        Ok(())
    }

    /// The place of the byte at `offset` of the whole text, or None if the text ends before it. The line feed after a
    /// file's text belongs to that file.
    pub fn place_of(&self, offset: usize) -> Option<Place<'_>>
        ensures { option_map spec.seen result ≡ spec.place_of self.now offset }
    {
        let mut rest = self.text.as_bytes();
        let mut offset = offset;
        for file in &self.files {
            if offset <= file.length {
                return Some(place_after(file.name.as_str(), &rest[..offset]));
            }
            rest = &rest[file.length + 1..];
            offset -= file.length + 1;
        }
        None
    }
}

/// The name of the file of this number, from 0: an empty one past the names.
pub fn name_at<'a>(names: &[&'a str], file: usize) -> &'a str
    ensures { result.now ≡ get_or (map (λ name. name.now) names.now) file [] }
{
    names.get(file).copied().unwrap_or("")
}

const BYTE_ORDER_MARK: &str = "\u{feff}";

/// A text without the byte order mark at its start.
fn unmarked(text: &str) -> &str
    ensures { result.now ≡ spec.unmarked text.now }
{
    text.strip_prefix(BYTE_ORDER_MARK).unwrap_or(text)
}

/// The place of what comes after these bytes of a file.
fn place_after<'s>(file: &'s str, before: &[u8]) -> Place<'s>
    ensures file { result.file.now ≡ file.entry.now }
    ensures line { result.line ≡ spec.line_after before.now }
    ensures column { result.column ≡ spec.column_after before.now }
{
    let mut line = 1;
    let mut column = 1;
    for byte in before {
        if *byte == b'\n' {
            line += 1;
            column = 1;
        } else {
            column += 1;
        }
    }
    Place { file, line, column }
}
