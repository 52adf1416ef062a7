//! How far the parts of a text go.

ghost use Rattle.std.specs.Prelude.{◌≡◌, ◌≤◌, ◌<◌, false, length, slice_index, IfSome};
ghost use Rattle.std.specs.List.{prefix_len};
ghost use Rattle.sc_text.specs.Characters.{is_comment_part, is_name_part, percent, quote};
ghost use Rattle.sc_text.specs.Reading.Lengths.{closing, integer_end, is_bare};
ghost use Rattle.sc_text.specs.Reading.Front.{number};

use crate::characters::{ends_line, is_comment_part, is_name_part};

/// The greatest integer.
const MAX_INTEGER: u64 = 9_223_372_036_854_775_807;

/// How many letters, digits and underscores the text begins with, and a number that is mixed of them, whatever their case.
pub fn name_ahead(text: &[u8]) -> (usize, usize)
    ensures { result.0 ≡ prefix_len is_name_part text.now }
{
    let mut mixed: u32 = 0;
    for (at, byte) in text.iter().enumerate() {
        if !is_name_part(*byte) {
            return (at, mixed as usize);
        }
        mixed = mixed.wrapping_mul(31).wrapping_add(u32::from(*byte | 32));
    }
    (text.len(), mixed as usize)
}

/// How far the text goes on its first line.
pub fn comment_length(text: &[u8]) -> usize
    ensures value { result ≡ prefix_len is_comment_part text.now }
    ensures within { result ≤ length text.now }
{
    for (at, byte) in text.iter().enumerate() {
        if !is_comment_part(*byte) {
            return at;
        }
    }
    text.len()
}

/// How many characters come before the first percent sign.
pub fn unmarked_length(text: &[u8]) -> usize
    ensures value { result ≡ prefix_len is_bare text.now }
    ensures within { result ≤ length text.now }
    ensures stops { result < length text.now → slice_index text.now result ≡ percent }
{
    for (at, byte) in text.iter().enumerate() {
        if *byte == b'%' {
            return at;
        }
    }
    text.len()
}

/// How many bytes the text's first digits take, with the underscores between two of them.
pub fn integer_length(text: &[u8]) -> usize
    ensures value { result ≡ integer_end 0 0 text.now }
    ensures within { result ≤ length text.now }
{
    let mut end = 0;
    for (at, byte) in text.iter().enumerate() {
        if byte.is_ascii_digit() {
            end = at + 1;
        } else if *byte != b'_' {
            return end;
        }
    }
    end
}

/// The number that the digits write, if it is not above 9223372036854775807.
pub fn number(digits: &[u8]) -> Option<i64>
    ensures { result ≡ number digits.now }
{
    let mut value: u64 = 0;
    for byte in digits {
        if byte.is_ascii_digit() {
            let digit = u64::from(*byte - b'0');
            if value > (MAX_INTEGER - digit) / 10 {
                return None;
            }
            value = 10 * value + digit;
        }
    }
    Some(value as i64)
}

/// The place of the quote that closes a manifest string whose text follows. A percent sign and the character after it
/// count as one.
pub fn closing_quote(text: &[u8]) -> Option<usize>
    ensures value { result ≡ closing 0 false text.now }
    ensures found { IfSome result (λ at. (at < length text.now) × (slice_index text.now at ≡ quote)) }
{
    let mut marked = false;
    for (at, byte) in text.iter().enumerate() {
        if ends_line(*byte) {
            return None;
        }
        if !marked && *byte == b'"' {
            return Some(at);
        }
        marked = !marked && *byte == b'%';
    }
    None
}
