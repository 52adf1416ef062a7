//! The text of one file, read to its end or until it is too long.

ghost use Rattle.std.specs.Prelude.{◌≡◌, ◌+◌, ◌-◌, ◌<◌, ◌≤◌, ◌++◌, ℕ, List, length, take, IfErr, IfOk, IfSome, IsErr, OnErr, OnOk, string_bytes};
ghost use Rattle.sc_text.specs.Spelling.{max_source_bytes};
ghost use Rattle.std.specs.Io.KnownBytes.{Consumes, IsAtEnd};
ghost use Rattle.sc_source.specs.Source as spec;
ghost use Rattle.sc_source.specs.Joining.{no_memory, not_utf8, FailsForGood, IsReadFault, IsReaderFault, TakesAtMost};
ghost use Rattle.sc_source.specs.Internal.Blocks.{TakesMore};

use std::alloc::{AllocError, Global};
use std::io::{self, ErrorKind, Read};
use std::str::Utf8Error;
use thiserror::Error;

/// Why the text of a file isn't had.
#[derive(Debug, Drop, Error)]
pub enum FileFault {
    /// Its reader failed, with this error.
    #[error("cannot read it: {0}")]
    Unreadable(io::Error),
    /// The text is longer than it may be.
    #[error("it is too long")]
    TooLong,
    /// It isn't UTF-8: the characters end before the byte at this offset of the file.
    #[error("it is not UTF-8 from the byte at {offset} on")]
    NotUtf8 { offset: usize },
    #[error("out of memory")]
    OutOfMemory,
}

impl From<AllocError> for FileFault {
    ghost from_gives = { λ _ fault. fault ≡ no_memory };

    fn from(_error: AllocError) -> FileFault {
        FileFault::OutOfMemory
    }
}

impl From<Utf8Error> for FileFault {
    ghost from_gives = { λ error fault. fault ≡ not_utf8 error };

    fn from(error: Utf8Error) -> FileFault {
        FileFault::NotUtf8 {
            offset: error.valid_up_to(),
        }
    }
}

/// U+FEFF in UTF-8.
const MARK_BYTES: &[u8] = b"\xef\xbb\xbf";

/// The most bytes that are asked of a reader at once.
const BLOCK: usize = 8192;

/// Reads a file to its end, where its text has fewer than `room` bytes; else no further than is needed to
/// see that, which is a byte order mark and `room` bytes at most.
pub fn read_bytes<R: Read>(alloc: Global, reader: &mut R, room: usize) -> Result<Vec<u8>, FileFault>
    requires { room ≤ max_source_bytes }
    ensures short { IfOk result (λ file. length (spec.unmarked file.items) < room) }
    ensures ok { IfOk result (λ file. IfSome (R.remaining reader.old) (λ told. file.items ≡ told)) }
    ensures err { IfErr result (λ fault. IfSome (R.remaining reader.old) (λ told. IsReadFault told room fault)) }
    ensures failed { IfErr result FailsForGood }
    ensures fits { IfSome (R.remaining reader.old) (λ told. length (spec.unmarked told) < room → IfErr result IsReaderFault) }
    ensures too_long { IfSome (R.remaining reader.old) (λ told. room ≤ length (spec.unmarked told) → IsErr result) }
    ensures end { OnOk result (IsAtEnd (R.remaining reader.new)) }
    ensures taken { TakesAtMost (room + 3) (R.remaining reader.old) (R.remaining reader.new) }
{
    let mut bytes = Vec::new(alloc);
    for _ in 0..u64::MAX {
        if least_length(bytes.as_slice()) >= room {
            return Err(FileFault::TooLong);
        }
        let most = room + MARK_BYTES.len() - bytes.len();
        match read_block(reader, &mut bytes, most)? {
            Progress::More => {}
            Progress::End if unmarked(bytes.as_slice()).len() < room => return Ok(bytes),
            Progress::End => return Err(FileFault::TooLong),
        }
    }
    Err(FileFault::Unreadable(io::Error::from(ErrorKind::TimedOut)))
}

/// The first `most` bytes of a file, or all where there are fewer.
pub fn read_beginning<R: Read>(
    alloc: Global,
    reader: &mut R,
    most: usize,
) -> Result<Vec<u8>, FileFault>
    ensures ok { IfOk result (λ beginning. IfSome (R.remaining reader.old) (λ told. beginning.items ≡ take most told)) }
    ensures fault { IfErr result IsReaderFault }
    ensures taken { TakesAtMost most (R.remaining reader.old) (R.remaining reader.new) }
{
    let mut bytes = Vec::new(alloc);
    for _ in 0..u64::MAX {
        if bytes.len() >= most {
            return Ok(bytes);
        }
        let more = most - bytes.len();
        match read_block(reader, &mut bytes, more)? {
            Progress::More => {}
            Progress::End => return Ok(bytes),
        }
    }
    Err(FileFault::Unreadable(io::Error::from(ErrorKind::TimedOut)))
}

/// How far a file is read.
enum Progress {
    /// There may be more.
    More,
    /// To its end.
    End,
}

/// Reads once, at most `most` bytes, and adds them to `bytes`. Where memory runs out nothing is read.
fn read_block<R: Read>(
    reader: &mut R,
    bytes: &mut Vec<u8>,
    most: usize,
) -> Result<Progress, FileFault>
    requires some { 0 < most }
    ensures taken { TakesMore most (R.remaining reader.old) (R.remaining reader.new) bytes.old.items bytes.new.items }
    ensures end { IfOk result (λ progress. progress ≡ Progress.End
        → (bytes.new.items ≡ bytes.old.items) × IsAtEnd (R.remaining reader.new)) }
    ensures err { OnErr result (bytes.new.items ≡ bytes.old.items) }
    ensures fault { IfErr result IsReaderFault }
{
    let mut block = [0; BLOCK];
    let most = most.min(BLOCK);
    bytes.reserve(most)?;
    match reader.read(&mut block[..most]) {
        Ok(0) => Ok(Progress::End),
        Ok(count) => {
            bytes.extend_from_slice(&block[..count]).unwrap();
            Ok(Progress::More)
        }
        Err(error) => match error.kind() {
            ErrorKind::Interrupted => Ok(Progress::More),
            ErrorKind::OutOfMemory => Err(FileFault::OutOfMemory),
            _ => Err(FileFault::Unreadable(error)),
        },
    }
}

/// How long the text of each file is at least that begins with these bytes.
fn least_length(bytes: &[u8]) -> usize
    ensures least { (rest : List ℕ) → result ≤ length (spec.unmarked (bytes.now ++ rest)) }
    ensures near { length bytes.now ≤ result + 3 }
    ensures within { result ≤ length bytes.now }
{
    if MARK_BYTES.starts_with(bytes) {
        0
    } else {
        unmarked(bytes).len()
    }
}

/// The bytes of a file's text: all but a byte order mark at its start.
fn unmarked(bytes: &[u8]) -> &[u8]
    ensures { result.now ≡ spec.unmarked bytes.now }
{
    bytes.strip_prefix(MARK_BYTES).unwrap_or(bytes)
}
