//! Messages as they come and go: a header of lines, an empty line, and a body of as many bytes as the header says.

ghost use Rattle.std.specs.Prelude.{◌≤◌, IfSome, OnOk, length};
ghost use Rattle.std.specs.Io.KnownBytes.{Appends};
ghost use Rattle.sc_language_server.specs.Messages.{framed};

use std::alloc::Global;
use std::io::{self, ErrorKind, Read, Write};

/// The most bytes of a body that are kept: those of the longest text, if each is written by an escape, and as many more.
const MOST_BYTES: u64 = 16_777_216;

/// The most bytes of a header's line that are looked at.
const MOST_OF_LINE: usize = 128;

/// The most bytes that are asked of a reader at once.
const BLOCK: usize = 8192;

/// The name of the line that says how long the body is.
const LENGTH: &[u8] = b"content-length:";

/// What a reader has next.
#[derive(Drop)]
pub enum Incoming {
    /// The body of a message.
    Body(Vec<u8>),
    /// A header that doesn't say how long its body is, or a body that is too long, which is left out.
    Unreadable,
    /// A body for which there was no memory.
    OutOfMemory,
    /// Nothing: it has ended, in a message if need be, or can't be read.
    End,
}

/// What a header says.
#[derive(Drop)]
enum Header {
    /// That the body has so many bytes.
    Length(u64),
    /// Not how many bytes the body has.
    NoLength,
    /// Nothing: the reader ended before.
    End,
}

/// Reads the next message. No more memory is taken than for the bytes that are there, and for those of the longest body.
pub fn read_message<R: Read>(alloc: Global, input: &mut R) -> Incoming {
    match read_header(input) {
        Header::Length(length) => read_body(alloc, input, length),
        Header::NoLength => Incoming::Unreadable,
        Header::End => Incoming::End,
    }
}

/// Reads the lines up to the first empty one. Empty lines before the first line that isn't empty don't count.
fn read_header<R: Read>(input: &mut R) -> Header {
    let mut line = [0; MOST_OF_LINE];
    let mut is_begun = false;
    let mut header = Header::NoLength;
    for _ in 0..u64::MAX {
        let Some(count) = read_line(input, &mut line) else {
            return Header::End;
        };
        let text = line[..count].trim_ascii();
        if !text.is_empty() {
            is_begun = true;
            header = with_line(header, text);
        } else if is_begun {
            return header;
        }
    }
    Header::End
}

/// What a header says with this line after it.
fn with_line(header: Header, line: &[u8]) -> Header {
    match line.split_at_checked(LENGTH.len()) {
        Some((name, value)) if name.eq_ignore_ascii_case(LENGTH) => match number_in(
            value.trim_ascii(),
        ) {
            Some(length) => Header::Length(length),
            None => Header::NoLength,
        },
        _ => header,
    }
}

/// The number that these digits write, if they write one below 2 ^ 64.
fn number_in(digits: &[u8]) -> Option<u64> {
    match str::from_utf8(digits) {
        Ok(text) => text.parse::<u64>().ok(),
        Err(_) => None,
    }
}

/// Reads to the next line feed, and keeps the first bytes before it: how many. None if the reader ends before.
fn read_line<R: Read>(input: &mut R, line: &mut [u8; MOST_OF_LINE]) -> Option<usize>
    ensures { IfSome result (λ count. count ≤ 128) }
{
    let mut count = 0;
    for _ in 0..u64::MAX {
        let mut byte = [0];
        if read_some(input, &mut byte) == 0 {
            return None;
        }
        if byte[0] == b'\n' {
            return Some(count);
        }
        if count < MOST_OF_LINE {
            line[count] = byte[0];
            count += 1;
        }
    }
    None
}

/// Reads a body of so many bytes. One that is too long is read, and not kept.
fn read_body<R: Read>(alloc: Global, input: &mut R, length: u64) -> Incoming {
    let mut body = Vec::new(alloc);
    let mut block = [0; BLOCK];
    let mut left = length;
    let mut is_lacking = false;
    while left > 0 {
        let most = left.min(BLOCK as u64) as usize;
        let count = read_some(input, &mut block[..most]);
        if count == 0 {
            return Incoming::End;
        }
        if length <= MOST_BYTES && body.extend_from_slice(&block[..count]).is_err() {
            is_lacking = true;
        }
        left -= count as u64;
    }
    if length > MOST_BYTES {
        Incoming::Unreadable
    } else if is_lacking {
        Incoming::OutOfMemory
    } else {
        Incoming::Body(body)
    }
}

/// Reads once, and again if that was interrupted: how many bytes, or 0 if there are none.
fn read_some<R: Read>(input: &mut R, block: &mut [u8]) -> usize
    ensures { result ≤ length block.old }
{
    for _ in 0..u64::MAX {
        match input.read(block) {
            Ok(count) => return count,
            Err(error) if error.kind() == ErrorKind::Interrupted => {}
            Err(_) => return 0,
        }
    }
    0
}

/// Writes a body after its header. No memory is taken.
pub fn write_message<W: Write>(out: &mut W, body: &[u8]) -> io::Result<()>
    ensures { OnOk result (Appends (W.contents out.old) (W.contents out.new) (framed body.now)) }
{
    let mut digits = itoa::Buffer::new();
    out.write_all(b"Content-Length: ")?;
    out.write_all(digits.format(body.len()).as_bytes())?;
    out.write_all(b"\r\n\r\n")?;
    out.write_all(body)?;
    out.flush()
}
