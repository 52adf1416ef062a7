//! Reading a record, block by block.

ghost use Rattle.std.specs.Prelude.{◌≡◌, IfErr, IfOk, IfSome, OnOk};
ghost use Rattle.std.specs.Io.KnownBytes.{IsAtEnd};
ghost use Rattle.sc_audit.specs.Records.{IsRecord, IsRecordText, text_of};
ghost use Rattle.sc_audit.specs.Reading.{IsReadFault, IsReaderFault, ReadsUpTo};
ghost use Rattle.sc_audit.specs.Internal.Steps.{IsKept, ReadsBlock};

use crate::beginning::{Beginning, ReadFault, Record};
use std::alloc::Global;
use std::io::{self, ErrorKind, Read};

/// How many bytes are asked of a reader at once.
const BLOCK: usize = 8192;

/// Reads a record's text to its end. It stops at the first block with a byte that fits no record, so a line that
/// doesn't fit is reported before any later failure of the reader.
pub fn read_record<R: Read>(alloc: Global, reader: &mut R) -> Result<Record, ReadFault>
    ensures limits { IfOk result (λ read. IsRecord read.version read.lines.items) }
    ensures ok { IfOk result (λ read. IfSome (R.remaining reader.old) (λ text. text ≡ text_of read.version read.lines.items)) }
    ensures fits { IfSome (R.remaining reader.old) (λ text. IsRecordText text → IfErr result IsReaderFault) }
    ensures err { IfErr result (IsReadFault (R.remaining reader.old) (R.remaining reader.new)) }
    ensures end { OnOk result (IsAtEnd (R.remaining reader.new)) }
    ensures stops { ReadsUpTo BLOCK (R.remaining reader.old) (R.remaining reader.new) }
{
    let mut beginning = Beginning::new(alloc);
    for _ in 0..u64::MAX {
        match read_block(reader, &mut beginning)? {
            Progress::More => {}
            Progress::End => return beginning.end(),
        }
    }
    Err(ReadFault::Unreadable(io::Error::from(ErrorKind::TimedOut)))
}

/// How far the text is read.
enum Progress {
    /// There may be more.
    More,
    /// To its end.
    End,
}

/// Reads once.
fn read_block<R: Read>(reader: &mut R, beginning: &mut Beginning) -> Result<Progress, ReadFault>
    requires { IsKept beginning.old }
    ensures block { ReadsBlock BLOCK (R.remaining reader.old) (R.remaining reader.new) beginning.old beginning.new result }
    ensures end { IfOk result (λ progress. progress ≡ Progress.End → IsAtEnd (R.remaining reader.new)) }
{
    let mut block = [0; BLOCK];
    match reader.read(&mut block) {
        Ok(0) => Ok(Progress::End),
        Ok(count) => {
            beginning.take_all(&block[..count])?;
            Ok(Progress::More)
        }
        Err(error) => match error.kind() {
            ErrorKind::Interrupted => Ok(Progress::More),
            ErrorKind::OutOfMemory => Err(ReadFault::OutOfMemory),
            _ => Err(ReadFault::Unreadable(error)),
        },
    }
}
