//! The text of a record, block by block.

ghost use Rattle.std.specs.Prelude.{◌≡◌, ◌+◌, ◌<◌, ◌≤◌, ◌++◌, OnErr, OnOk, drop};
ghost use Rattle.std.specs.Io.KnownBytes.{Appends};
ghost use Rattle.sc_lockpass.specs.declared.version.Version.TheVariants.{Two};
ghost use Rattle.arrayvec.specs.ArrayVec.{array_vec_len};
ghost use Rattle.sc_audit.specs.Records.{last_line, line_text, text_of};
ghost use Rattle.sc_audit.specs.Writing.{Writes, WritesBeginning};

use crate::line::RecordLine;
use arrayvec::ArrayVec;
use itoa::{Buffer, Integer, write_digits};
use std::io::{self, ErrorKind, Write};
use thiserror::Error;

/// The writer failed, or took no bytes.
#[derive(Debug, Drop, Error)]
#[error("cannot write the record: {0}")]
pub struct Unwritable(pub io::Error);

/// The first line of what is written.
const FIRST_LINE: &[u8] = b"scoop record 2\n";

/// How many bytes are written at once, at most.
const BLOCK: usize = 65_536;

/// No line is longer, nor is the last one.
const LONGEST: usize = 128;

/// No line but the last one is longer.
const LONGEST_LINE: usize = 48;

/// A part of a record's text.
type Block = ArrayVec<u8, BLOCK>;

/// The last line, alone.
pub type LastLine = ArrayVec<u8, LONGEST>;

/// Writes the text of these lines, of version 2. Where the writer fails, a beginning of the text was written. It isn't
/// flushed.
pub fn write_record<W: Write>(writer: &mut W, lines: &[RecordLine]) -> Result<(), Unwritable>
    ensures ok { OnOk result (Appends (W.contents writer.old) (W.contents writer.new) (text_of Two lines.now)) }
    ensures err { OnErr result (WritesBeginning (W.contents writer.old) (W.contents writer.new) (text_of Two lines.now)) }
{
    let mut block = Block::new();
    block.try_extend_from_slice(FIRST_LINE).unwrap();
    for line in lines {
        make_room(writer, &mut block)?;
        push_line(&mut block, line);
    }
    make_room(writer, &mut block)?;
    push_last_line(&mut block, lines.len());
    write_whole(writer, block.as_slice())
}

/// Adds the text of a line.
fn push_line(block: &mut Block, line: &RecordLine)
    requires { array_vec_len block.old + LONGEST ≤ BLOCK }
    ensures { block.new.items ≡ block.old.items ++ line_text line.now }
{
    if line.handler < 10 && line.turns < 10 {
        push_short_line(block, line.handler as u8, line.turns as u8);
        return;
    }
    let mut text = [0; LONGEST_LINE];
    let from = write_line(&mut text, line);
    block.try_extend_from_slice(&text[from..]).unwrap();
}

/// Writes the text of a line so that it ends with the buffer, from its last byte on, and returns where it starts.
fn write_line(text: &mut [u8; LONGEST_LINE], line: &RecordLine) -> usize
    ensures within { result ≤ LONGEST_LINE }
    ensures written { drop result text.new ≡ line_text line.now }
{
    let end = LONGEST_LINE - 1;
    text[end] = b'\n';
    let turns = write_digits(u64::from(line.turns), text, end);
    let space = turns - 1;
    text[space] = b' ';
    write_digits(u64::from(line.handler), text, space)
}

/// Adds the text of a line whose numbers have one digit each, as most lines of a run of short tasks: it is added at once.
fn push_short_line(block: &mut Block, handler: u8, turns: u8)
    requires room { array_vec_len block.old + LONGEST ≤ BLOCK }
    requires digits { (handler < 10) × (turns < 10) }
    ensures { block.new.items ≡ block.old.items ++ line_text (record { handler = handler; turns = turns }) }
{
    let text = [b'0' + handler, b' ', b'0' + turns, b'\n'];
    block.try_extend_from_slice(&text).unwrap();
}

/// Adds the last line, after `count` others.
pub fn push_last_line<const ROOM: usize>(block: &mut ArrayVec<u8, ROOM>, count: usize)
    requires { array_vec_len block.old + LONGEST ≤ ROOM }
    ensures { block.new.items ≡ block.old.items ++ last_line count }
{
    block.try_extend_from_slice(b"end ").unwrap();
    push_number(block, count);
    block.push(b'\n');
}

/// Adds a number.
fn push_number<I: Integer, const ROOM: usize>(block: &mut ArrayVec<u8, ROOM>, number: I)
    requires { array_vec_len block.old + 40 ≤ ROOM }
    ensures text { block.new.items ≡ block.old.items ++ I.text number }
    ensures short { array_vec_len block.new ≤ array_vec_len block.old + 40 }
{
    let mut buffer = Buffer::new();
    block
        .try_extend_from_slice(buffer.format(number).as_bytes())
        .unwrap();
}

/// Writes the block and empties it, if it has no room for a line.
fn make_room<W: Write>(writer: &mut W, block: &mut Block) -> Result<(), Unwritable>
    ensures ok { OnOk result (Writes (W.contents writer.old) (W.contents writer.new) block.old.items block.new.items) }
    ensures err { OnErr result (WritesBeginning (W.contents writer.old) (W.contents writer.new) block.old.items) }
    ensures room { OnOk result (array_vec_len block.new + LONGEST ≤ BLOCK) }
{
    if block.remaining_capacity() >= LONGEST {
        return Ok(());
    }
    write_whole(writer, block.as_slice())?;
    block.clear();
    Ok(())
}

/// Writes these bytes, by as many calls as the writer needs. If it fails, a beginning of them is written.
pub fn write_whole<W: Write>(writer: &mut W, bytes: &[u8]) -> Result<(), Unwritable>
    ensures ok { OnOk result (Appends (W.contents writer.old) (W.contents writer.new) bytes.now) }
    ensures err { OnErr result (WritesBeginning (W.contents writer.old) (W.contents writer.new) bytes.now) }
{
    let mut rest = bytes;
    for _ in 0..u64::MAX {
        if rest.is_empty() {
            return Ok(());
        }
        match writer.write(rest) {
            Ok(0) => return Err(Unwritable(io::Error::from(ErrorKind::WriteZero))),
            Ok(count) => rest = &rest[count..],
            Err(error) if matches!(error.kind(), ErrorKind::Interrupted) => {}
            Err(error) => return Err(Unwritable(error)),
        }
    }
    Err(Unwritable(io::Error::from(ErrorKind::Interrupted)))
}
