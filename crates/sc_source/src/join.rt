//! The source text of files, one after the other.

ghost use Rattle.std.specs.Prelude.{◌≡◌, ◌<◌, ℕ, List, IfErr, IsErr, MatchResult, OnOk, length, map, string_bytes};
ghost use Rattle.std.specs.List.{All};
ghost use Rattle.std.specs.Io.KnownBytes.{IsAtEnd};
ghost use Rattle.sc_text.specs.Spelling.{max_source_bytes};
ghost use Rattle.sc_source.specs.Joining.{AreSound, AreTold, IsReadersFault, IsSourceFault, source_fault, source_text};

use crate::reading::FileFault;
use crate::source::{JoinFault, Source};
use std::alloc::Global;
use std::io::Read;
use thiserror::Error;

/// Why files have no source text. A file is named by its number, from 0.
#[derive(Clone, Copy, Debug, PartialEq, Eq, Error)]
pub enum SourceFault {
    /// The reader of this file failed.
    #[error("cannot read file {file}, counted from 0")]
    Unreadable { file: usize },
    /// This file isn't UTF-8.
    #[error("file {file}, counted from 0, is not UTF-8")]
    NotUtf8 { file: usize },
    /// The source text would have more than 1,048,576 bytes.
    #[error("the source text has more than 1048576 bytes")]
    SourceTooLong,
    /// Memory ran out.
    #[error("out of memory")]
    OutOfMemory,
}

impl From<JoinFault> for SourceFault {
    ghost from_gives = { λ why fault. fault ≡ source_fault why };

    fn from(why: JoinFault) -> SourceFault {
        let JoinFault { file, fault } = why;
        match fault {
            FileFault::Unreadable(_) => SourceFault::Unreadable { file },
            FileFault::NotUtf8 { offset: _ } => SourceFault::NotUtf8 { file },
            FileFault::TooLong => SourceFault::SourceTooLong,
            FileFault::OutOfMemory => SourceFault::OutOfMemory,
        }
    }
}

/// Joins the texts of the files that these readers give: each without a byte order mark at its start, and with a
/// line feed after it. A text of 1,048,576 bytes is taken.
///
/// The fault is the first one, file by file. A file is `Unreadable` only where its reader failed. The text is
/// too long as soon as its bytes, with the line feed after the file, would be more than 1,048,576: whatever else is
/// wrong with that file, no more of it is read. A file is `NotUtf8` at its end. Readers after the file at fault
/// aren't read from.
pub fn join_sources<R: Read>(alloc: Global, readers: &mut [R]) -> Result<String, SourceFault>
    ensures answer { (files : List (List ℕ)) → AreTold (map R.remaining readers.old) files
        → MatchResult result (λ text. AreSound files × (string_bytes text ≡ source_text files))
        (IsSourceFault readers.old readers.new files) }
    ensures fits { (files : List (List ℕ)) → AreTold (map R.remaining readers.old) files → AreSound files
        → IfErr result IsReadersFault }
    ensures too_long { (files : List (List ℕ)) → AreTold (map R.remaining readers.old) files
        → max_source_bytes < length (source_text files) → IsErr result }
    ensures ended { OnOk result (All (λ reader. IsAtEnd (R.remaining reader)) readers.new) }
{
    Ok(Source::join(alloc, &[], readers)?.into_text())
}
