//! The white space and comments between two tokens.

ghost use Rattle.std.specs.Prelude.{◌≡◌, ◌≤◌, ◌++◌, [], length, map, IfOk, OnOk};
ghost use Rattle.std.specs.List.{prefix_len};
ghost use Rattle.sc_text.specs.Characters.{is_comment_part, is_white_space};
ghost use Rattle.sc_format.specs.Gaps as spec;
ghost use Rattle.sc_format.specs.Gaps.{above_text, beside_text, gap_in, gap_of, laid_gap, line_start, remark_in, tidied, trimmed_end, with_first, written};

use crate::layout::{Blank, Lead, Want};
use std::alloc::{AllocError, Global};

/// A comment on a line of its own.
#[derive(Drop)]
pub struct Remark<'a> {
    /// Whether an empty line comes before it.
    pub is_apart: bool,
    pub text: &'a [u8],
}

/// What is between two tokens.
#[derive(Drop)]
pub struct Gap<'a> {
    /// The comment on the line of the token before, or nothing.
    pub beside: &'a [u8],
    /// The other comments.
    pub above: Vec<Remark<'a>>,
    /// Whether an empty line comes before the token after them.
    pub is_apart: bool,
}

fn is_white_space(byte: u8) -> bool
    ensures { result ≡ is_white_space byte }
{
    matches!(byte, b' ' | b'\t' | b'\r' | b'\n')
}

/// How many bytes come before the first line feed.
fn line_length(text: &[u8]) -> usize
    ensures value { result ≡ prefix_len is_comment_part text.now }
    ensures within { result ≤ length text.now }
{
    for (at, byte) in text.iter().enumerate() {
        if *byte == b'\n' {
            return at;
        }
    }
    text.len()
}

/// How much white space the text begins with.
fn white_length(text: &[u8]) -> usize
    ensures value { result ≡ prefix_len is_white_space text.now }
    ensures within { result ≤ length text.now }
{
    for (at, byte) in text.iter().enumerate() {
        if !is_white_space(*byte) {
            return at;
        }
    }
    text.len()
}

/// The length of the text up to the white space at its end.
fn end_of(text: &[u8]) -> usize
    ensures value { result ≡ length (trimmed_end text.now) }
    ensures within { result ≤ length text.now }
{
    let mut end = 0;
    for (at, byte) in text.iter().enumerate() {
        if !is_white_space(*byte) {
            end = at + 1;
        }
    }
    end
}

/// The text without the white space around it.
fn trimmed(text: &[u8]) -> &[u8]
    ensures { result.now ≡ spec.trimmed text.now }
{
    let (_, begun) = text.split_at(white_length(text));
    let (trimmed, _) = begun.split_at(end_of(begun));
    trimmed
}

/// What the text between two tokens has.
pub fn read_gap(alloc: Global, text: &[u8]) -> Result<Gap<'_>, AllocError>
    ensures { IfOk result (λ gap. gap_in gap ≡ gap_of text.now) }
{
    let (first, after) = text.split_at(line_length(text));
    let mut above = Vec::new(alloc);
    let mut is_after_one = false;
    let mut is_after_two = false;
    let mut rest = after;
    while !rest.is_empty() {
        let begun = &rest[1..];
        let (line, more) = begun.split_at(line_length(begun));
        let text = trimmed(line);
        if text.is_empty() {
            is_after_two = is_after_one;
            is_after_one = true;
        } else {
            above.push(Remark {
                is_apart: is_after_one,
                text,
            })?;
            is_after_two = false;
            is_after_one = false;
        }
        rest = more;
    }
    Ok(Gap {
        beside: trimmed(first),
        above,
        is_apart: is_after_two,
    })
}

fn has_comment(gap: &Gap<'_>) -> bool
    ensures { result ≡ spec.has_comment (gap_in gap.now) }
{
    !gap.beside.is_empty() || !gap.above.is_empty()
}

/// Whether the token after the gap is on a line of its own.
fn has_line(want: &Want, gap: &Gap<'_>) -> bool
    ensures { result ≡ spec.has_line want.now (gap_in gap.now) }
{
    matches!(want.lead, Lead::Line) || has_comment(gap)
}

/// Whether an empty line is to be before the first comment, if one is there or not.
fn first_apart(blank: Blank, is_apart: bool) -> bool
    ensures { result ≡ spec.first_apart blank is_apart }
{
    match blank {
        Blank::Never | Blank::Kept => is_apart,
        Blank::Always => true,
        Blank::Start => false,
    }
}

fn keeps_blank(blank: Blank, gap: &Gap<'_>) -> bool
    ensures { result ≡ spec.keeps_blank blank (gap_in gap.now) }
{
    match blank {
        Blank::Never => false,
        Blank::Kept => gap.is_apart,
        Blank::Always => gap.is_apart || gap.above.is_empty(),
        Blank::Start => has_comment(gap) && gap.is_apart,
    }
}

/// Adds a new line with these tabs, after an empty one or not.
fn push_line_start(output: &mut Vec<u8>, indent: usize, is_apart: bool) -> Result<(), AllocError>
    ensures { OnOk result (output.new.items ≡ output.old.items ++ line_start indent is_apart) }
{
    output.push(b'\n')?;
    if is_apart {
        output.push(b'\n')?;
    }
    for _ in 0..indent {
        output.push(b'\t')?;
    }
    Ok(())
}

/// Adds the comment on the line of the token before.
fn push_beside(output: &mut Vec<u8>, text: &[u8]) -> Result<(), AllocError>
    ensures { OnOk result (output.new.items ≡ output.old.items ++ beside_text text.now) }
{
    if !text.is_empty() {
        output.push(b' ')?;
        output.extend_from_slice(text)?;
    }
    Ok(())
}

/// Adds a comment on a line of its own.
fn push_remark(
    output: &mut Vec<u8>,
    indent: usize,
    is_apart: bool,
    text: &[u8],
) -> Result<(), AllocError>
    ensures { OnOk result (output.new.items ≡ output.old.items ++ (line_start indent is_apart ++ text.now)) }
{
    push_line_start(output, indent, is_apart)?;
    output.extend_from_slice(text)
}

/// Adds the comments on lines of their own.
fn push_above(output: &mut Vec<u8>, want: &Want, above: &[Remark<'_>]) -> Result<(), AllocError>
    ensures { OnOk result (output.new.items
        ≡ output.old.items ++ above_text want.now.indent (with_first want.now.blank (map remark_in above.now))) }
{
    let [first, others @ ..] = above else {
        return Ok(());
    };
    let is_apart = first_apart(want.blank, first.is_apart);
    push_remark(output, want.indent, is_apart, first.text)?;
    for remark in others {
        push_remark(output, want.indent, remark.is_apart, remark.text)?;
    }
    Ok(())
}

/// Adds what comes last before the token.
fn push_last(output: &mut Vec<u8>, want: &Want, gap: &Gap<'_>) -> Result<(), AllocError>
    ensures { OnOk result (output.new.items
        ≡ output.old.items ++ spec.last_text want.now (tidied want.now (gap_in gap.now))) }
{
    if has_line(want, gap) {
        push_line_start(output, want.indent, keeps_blank(want.blank, gap))
    } else if matches!(want.lead, Lead::Apart) {
        output.push(b' ')?;
        Ok(())
    } else {
        Ok(())
    }
}

/// Adds the gap between two tokens in its layout.
pub fn push_gap(
    alloc: Global,
    output: &mut Vec<u8>,
    want: &Want,
    text: &[u8],
) -> Result<(), AllocError>
    ensures { OnOk result (output.new.items ≡ output.old.items ++ laid_gap want.now text.now) }
{
    let gap = read_gap(alloc, text)?;
    push_beside(output, gap.beside)?;
    push_above(output, want, &gap.above)?;
    push_last(output, want, &gap)
}
