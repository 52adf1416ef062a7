//! Positions in a text, and the offsets that they stand for.

ghost use Rattle.std.specs.Prelude.{◌≡◌, ◌≤◌, ◌<◌, ◌+◌, ◌*◌, ◌^◌, length, drop};
ghost use Rattle.std.specs.Str.{IsCharBoundary};
ghost use Rattle.sc_documents.specs.Positions as spec;

/// A place in a text: a line and a character of it, both from 0. A character is a unit of UTF-16.
#[derive(Clone, Copy)]
pub struct Position {
    pub line: usize,
    pub character: usize,
}

/// What is between two positions.
#[derive(Clone, Copy)]
pub struct Range {
    pub start: Position,
    pub end: Position,
}

/// The offset in bytes of a position. A character after the end of its line is that end, and a line after the last one is the
/// end of the text. Inside of a character it is the character's beginning.
pub fn offset_of(text: &str, position: Position) -> usize
    ensures value { result ≡ spec.offset_of text.now position }
    ensures boundary { IsCharBoundary text.now result }
{
    let text = text.as_bytes();
    let before = bytes_before(text, position.line);
    before + bytes_within(&text[before..], position.character)
}

/// The position of the byte at an offset; that of the end after the end.
pub fn position_of(text: &str, offset: usize) -> Position
    ensures { result ≡ spec.position_of text.now offset }
{
    let first = Position {
        line: 0,
        character: 0,
    };
    advanced(first, text.as_bytes(), offset)
}

/// The position after so many bytes of the text that begins at this position; that of the end if there are fewer.
pub(crate) fn advanced(from: Position, text: &[u8], count: usize) -> Position
    requires lines { from.line + length text.now < 2 ^ 63 }
    requires characters { from.character + 2 * length text.now < 2 ^ 64 }
    ensures { result ≡ spec.advanced from text.now count }
{
    let Position {
        mut line,
        mut character,
    } = from;
    let mut left = count;
    let mut rest = text;
    while let [byte, after @ ..] = rest {
        if left == 0 {
            break;
        }
        if ends_line(rest) {
            line += 1;
            character = 0;
        } else {
            character += units_of(*byte);
        }
        left -= 1;
        rest = after;
    }
    Position { line, character }
}

/// How many bytes come before the line of this number; all if there are fewer lines.
fn bytes_before(text: &[u8], line: usize) -> usize
    ensures value { result ≡ spec.bytes_before line text.now }
    ensures within { result ≤ length text.now }
{
    let mut left = line;
    let mut before = 0;
    let mut rest = text;
    while let [_, after @ ..] = rest {
        if left == 0 {
            break;
        }
        if ends_line(rest) {
            left -= 1;
        }
        before += 1;
        rest = after;
    }
    before
}

/// How many bytes come before this character of the first line; all of the line if it has fewer.
fn bytes_within(text: &[u8], character: usize) -> usize
    ensures value { result ≡ spec.bytes_within character text.now }
    ensures boundary { IsCharBoundary text.now result }
{
    let mut room = character;
    let mut within = 0;
    for byte in text {
        let units = units_of(*byte);
        if is_break(*byte) || room < units {
            break;
        }
        room -= units;
        within += 1;
    }
    within
}

/// Whether a line ends after the first of these bytes.
fn ends_line(text: &[u8]) -> bool
    ensures { result ≡ spec.ends_line text.now }
{
    match text {
        [b'\n', ..] => true,
        [b'\r', b'\n', ..] => false,
        [b'\r', ..] => true,
        _ => false,
    }
}

/// Whether a byte is part of what ends a line.
fn is_break(byte: u8) -> bool
    ensures { result ≡ spec.is_break byte }
{
    byte == b'\n' || byte == b'\r'
}

/// How many units of UTF-16 the character has that begins with this byte. A byte that doesn't begin one has none.
fn units_of(byte: u8) -> usize
    ensures value { result ≡ spec.units_of byte }
    ensures few { result ≤ 2 }
{
    match byte {
        0..=127 => 1,
        128..=191 => 0,
        192..=239 => 1,
        _ => 2,
    }
}
