//! What is read of a record's text, byte by byte.

ghost use Rattle.std.specs.Prelude.{◌≡◌, ◌≢◌, [], IsErrOf, IsOk, MatchOption};
ghost use Rattle.sc_audit.specs.Internal.Steps.{Ends, GoesOn, IsKept, Takes, TakesAll, line_of, read_of};

use crate::line::RecordLine;
use crate::writing::{LastLine, push_last_line};
use sc_lockpass::{HandlerNumber, Version};
use std::alloc::{AllocFailed, Global};
use std::io;
use thiserror::Error;

/// Why a record isn't read.
#[derive(Debug, Drop, Error)]
pub enum ReadFault {
    /// This line, from 1, is the first that doesn't fit.
    #[error("line {line} is no line of a record")]
    BadRecord { line: usize },
    /// Its reader failed, with this error.
    #[error("cannot read the record: {0}")]
    Unreadable(io::Error),
    #[error("out of memory")]
    OutOfMemory,
}

/// The turns of a run.
#[derive(Drop)]
pub struct Record {
    /// How many handlers there could be.
    pub version: Version,
    /// Which handler took how many turns, in their order.
    pub lines: Vec<RecordLine>,
}

/// What comes next in a record's text.
#[derive(Clone, Copy)]
pub enum Expected {
    /// The rest of `scoop record `: this many bytes are read.
    Title { read: usize },
    /// The version's number.
    VersionNumber,
    /// The end of the first line.
    VersionEnd,
    /// A line, or the last one.
    Line,
    /// More digits of a handler's number, or the space after it.
    Handler { number: u32 },
    /// How many turns the handler takes.
    Turns { handler: HandlerNumber },
    /// More digits of that, or the end of the line.
    MoreTurns { handler: HandlerNumber, number: u32 },
    /// The rest of the last line: this many bytes are read.
    LastLine { read: usize },
    Nothing,
}

/// What is read of a record's text.
#[derive(Drop)]
pub struct Beginning {
    pub version: Version,
    /// The lines that are read whole.
    pub lines: Vec<RecordLine>,
    /// How many turns they are.
    pub turns: u32,
    pub expected: Expected,
}

/// What a record's text begins with.
const TITLE: &[u8] = b"scoop record ";

/// The least digit that a number of turns begins with.
const FIRST_DIGIT: u8 = b'1';

const MOST_LINES: usize = 1_000_000;

const MOST_TURNS: u32 = 10_000_000;

impl Beginning {
    /// Nothing is read yet.
    pub fn new(alloc: Global) -> Self
        ensures kept { IsKept result }
        ensures none { read_of result ≡ [] }
    {
        Beginning {
            version: Version::Two,
            lines: Vec::new(alloc),
            turns: 0,
            expected: Expected::Title { read: 0 },
        }
    }

    /// The line of the next byte, from 1.
    fn line(&self) -> usize
        requires { IsKept self.now }
        ensures { result ≡ line_of self.now }
    {
        match self.expected {
            Expected::Title { .. } | Expected::VersionNumber | Expected::VersionEnd => 1,
            Expected::Nothing => self.lines.len() + 3,
            _ => self.lines.len() + 2,
        }
    }

    /// Goes on with what comes next, or finds that the byte doesn't fit.
    fn go_on(&mut self, next: Option<Expected>) -> Result<(), ReadFault>
        requires { IsKept self.old }
        ensures { MatchOption next (IsErrOf result (ReadFault.BadRecord (line_of self.old)))
            (λ e. IsOk result × (self.new ≡ record self.old { expected = e })) }
    {
        match next {
            Some(expected) => {
                self.expected = expected;
                Ok(())
            }
            None => Err(ReadFault::BadRecord { line: self.line() }),
        }
    }

    /// The text ends here.
    pub fn end(self) -> Result<Record, ReadFault>
        requires { IsKept self }
        ensures { Ends self result }
    {
        if let Expected::Nothing = self.expected {
            return Ok(Record {
                version: self.version,
                lines: self.lines,
            });
        }
        Err(ReadFault::BadRecord { line: self.line() })
    }

    /// Takes the next bytes.
    pub fn take_all(&mut self, bytes: &[u8]) -> Result<(), ReadFault>
        requires { IsKept self.old }
        ensures { TakesAll self.old bytes.now self.new result }
    {
        for byte in bytes {
            self.take(*byte)?;
        }
        Ok(())
    }

    /// Takes the next byte.
    fn take(&mut self, byte: u8) -> Result<(), ReadFault>
        requires { IsKept self.old }
        ensures { Takes self.old byte self.new result }
    {
        let next = match self.expected {
            Expected::Title { read } => self.after_title(read, byte),
            Expected::VersionNumber => return self.take_version(byte),
            Expected::VersionEnd => self.after_version(byte),
            Expected::Line => self.after_lines(byte),
            Expected::Handler { number } => self.after_handler(number, byte),
            Expected::Turns { handler } => self.after_space(handler, byte),
            Expected::MoreTurns { handler, number } if byte == b'\n' => {
                return self.end_line(handler, number);
            }
            Expected::MoreTurns { handler, number } => self.after_turns(handler, number, byte),
            Expected::LastLine { read } => self.after_last_line(read, byte),
            Expected::Nothing => self.after_all(byte),
        };
        self.go_on(next)
    }

    /// What comes next within `scoop record `.
    fn after_title(&self, read: usize, byte: u8) -> Option<Expected>
        requires kept { IsKept self.now }
        requires at { self.now.expected ≡ Expected.Title read }
        ensures { GoesOn self.now byte result }
    {
        if TITLE[read] != byte {
            return None;
        }
        if read + 1 < TITLE.len() {
            Some(Expected::Title { read: read + 1 })
        } else {
            Some(Expected::VersionNumber)
        }
    }

    /// Takes the version's number.
    fn take_version(&mut self, byte: u8) -> Result<(), ReadFault>
        requires kept { IsKept self.old }
        requires at { self.old.expected ≡ Expected.VersionNumber }
        ensures { Takes self.old byte self.new result }
    {
        self.version = match byte {
            b'1' => Version::One,
            b'2' => Version::Two,
            _ => return Err(ReadFault::BadRecord { line: 1 }),
        };
        self.expected = Expected::VersionEnd;
        Ok(())
    }

    /// What may follow the version's number.
    fn after_version(&self, byte: u8) -> Option<Expected>
        requires kept { IsKept self.now }
        requires at { self.now.expected ≡ Expected.VersionEnd }
        ensures { GoesOn self.now byte result }
    {
        if byte == b'\n' {
            Some(Expected::Line)
        } else {
            None
        }
    }

    /// What may follow whole lines.
    fn after_lines(&self, byte: u8) -> Option<Expected>
        requires kept { IsKept self.now }
        requires at { self.now.expected ≡ Expected.Line }
        ensures { GoesOn self.now byte result }
    {
        if byte == b'e' {
            return Some(Expected::LastLine { read: 1 });
        }
        if !byte.is_ascii_digit() || self.lines.len() >= MOST_LINES || self.turns >= MOST_TURNS {
            return None;
        }
        let number = u32::from(byte - b'0');
        Some(Expected::Handler { number })
    }

    /// What may follow digits of a handler's number.
    fn after_handler(&self, number: u32, byte: u8) -> Option<Expected>
        requires kept { IsKept self.now }
        requires at { self.now.expected ≡ Expected.Handler number }
        ensures { GoesOn self.now byte result }
    {
        if byte == b' ' {
            return Some(Expected::Turns {
                handler: number as HandlerNumber,
            });
        }
        if number == 0 || !byte.is_ascii_digit() {
            return None;
        }
        let number = number * 10 + u32::from(byte - b'0');
        if number < u32::from(self.version.most_handlers()) {
            Some(Expected::Handler { number })
        } else {
            None
        }
    }

    /// What may follow a handler's number and a space.
    fn after_space(&self, handler: HandlerNumber, byte: u8) -> Option<Expected>
        requires kept { IsKept self.now }
        requires at { self.now.expected ≡ Expected.Turns handler }
        ensures { GoesOn self.now byte result }
    {
        if byte < FIRST_DIGIT || byte > b'9' {
            return None;
        }
        let number = u32::from(byte - b'0');
        if number <= MOST_TURNS - self.turns {
            Some(Expected::MoreTurns { handler, number })
        } else {
            None
        }
    }

    /// What may follow digits of a number of turns, within the line.
    fn after_turns(&self, handler: HandlerNumber, number: u32, byte: u8) -> Option<Expected>
        requires kept { IsKept self.now }
        requires at { self.now.expected ≡ Expected.MoreTurns handler number }
        requires goes_on { byte ≢ 10 }
        ensures { GoesOn self.now byte result }
    {
        if !byte.is_ascii_digit() {
            return None;
        }
        let number = number * 10 + u32::from(byte - b'0');
        if number <= MOST_TURNS - self.turns {
            Some(Expected::MoreTurns { handler, number })
        } else {
            None
        }
    }

    /// Adds the line that ends here.
    fn end_line(&mut self, handler: HandlerNumber, number: u32) -> Result<(), ReadFault>
        requires kept { IsKept self.old }
        requires at { self.old.expected ≡ Expected.MoreTurns handler number }
        ensures { Takes self.old 10 self.new result }
    {
        let turns = number;
        if self.lines.push(RecordLine { handler, turns }).is_err() {
            return Err(ReadFault::OutOfMemory);
        }
        self.turns += turns;
        self.expected = Expected::Line;
        Ok(())
    }

    /// What comes next within the last line.
    fn after_last_line(&self, read: usize, byte: u8) -> Option<Expected>
        requires kept { IsKept self.now }
        requires at { self.now.expected ≡ Expected.LastLine read }
        ensures { GoesOn self.now byte result }
    {
        let mut line = LastLine::new();
        push_last_line(&mut line, self.lines.len());
        let line = line.as_slice();
        if line[read] != byte {
            return None;
        }
        if read + 1 < line.len() {
            Some(Expected::LastLine { read: read + 1 })
        } else {
            Some(Expected::Nothing)
        }
    }

    /// Nothing follows the last line.
    fn after_all(&self, byte: u8) -> Option<Expected>
        requires kept { IsKept self.now }
        requires at { self.now.expected ≡ Expected.Nothing }
        ensures { GoesOn self.now byte result }
    {
        None
    }
}
