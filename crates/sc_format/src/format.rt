//! A source text in its layout.

ghost use Rattle.std.specs.Prelude.{◌≡◌, ◌∷◌, ◌<◌, ◌≤◌, [], List, drop, length, IfErr, IfOk};
ghost use Rattle.sc_text.specs.Characters.{line_feed};
ghost use Rattle.sc_text.specs.Spelling.{IsRefused, Lexeme, Spells, StandInOrder, lexemes_of, max_source_bytes};
ghost use Rattle.sc_format.specs.Formatted as spec;
ghost use Rattle.sc_format.specs.Elements.{HaveSame};
ghost use Rattle.sc_format.specs.Formatted.{IsLaidOut, laid_out};
ghost use Rattle.sc_format.specs.Layout.{start};

use crate::gap::push_gap;
use crate::layout::{Blank, Lead, START, State, Want, after, want_of};
use crate::role::{Role, role_of};
use sc_text::{LexFault, Token, lex};
use std::alloc::{AllocError, Global};

/// Whether no token goes on with this byte.
fn ends_token(byte: u8) -> bool
    ensures { result ≡ spec.ends_token byte }
{
    !(byte.is_ascii_alphanumeric() || matches!(byte, b'_' | b'=' | b'/' | b'\\' | b'-'))
}

/// Whether a symbol goes on with nothing.
fn is_whole(byte: u8) -> bool
    ensures { result ≡ spec.is_whole byte }
{
    matches!(byte, b'(' | b'{' | b'.' | b'?' | b'!')
}

/// Whether a token is a symbol that doesn't go on with the next one.
fn is_lone(before: &[u8], word: &[u8]) -> bool
    ensures { result ≡ spec.is_lone before.now word.now }
{
    match (before, word) {
        ([symbol], [first, ..]) => is_whole(*symbol)
            || (*symbol == b'<' && first.is_ascii_alphabetic()),
        _ => false,
    }
}

fn begins_apart(word: &[u8]) -> bool
    ensures { result ≡ spec.begins_apart word.now }
{
    match word {
        [first, ..] => ends_token(*first),
        [] => false,
    }
}

/// Whether two tokens are still two if nothing is between them.
fn may_touch(before: &[u8], word: &[u8]) -> bool
    ensures { result ≡ spec.may_touch before.now word.now }
{
    begins_apart(word) || is_lone(before, word)
}

fn lead_between(lead: Lead, touches: bool) -> Lead
    ensures { result ≡ spec.lead_between lead touches }
{
    match lead {
        Lead::Close if !touches => Lead::Apart,
        _ => lead,
    }
}

/// The white space before a token with this role and text.
fn wanted(state: &State, role: Role, before: &[u8], word: &[u8]) -> Want
    ensures { result ≡ spec.wanted state.now role before.now word.now }
{
    if before.is_empty() {
        return Want {
            lead: Lead::Line,
            indent: 0,
            blank: Blank::Start,
        };
    }
    let want = want_of(state, role);
    Want {
        lead: lead_between(want.lead, may_touch(before, word)),
        ..want
    }
}

/// What comes after the last token.
const LAST: Want = Want {
    lead: Lead::Line,
    indent: 0,
    blank: Blank::Never,
};

/// The source text with a line feed before it.
fn led(alloc: Global, text: &str) -> Result<Vec<u8>, AllocError>
    ensures { IfOk result (λ source. source.items ≡ line_feed ∷ text.now) }
{
    let mut source = Vec::with_capacity(alloc, 1)?;
    source.push(b'\n')?;
    source.extend_from_slice(text.as_bytes())?;
    Ok(source)
}

/// The source text with these tokens in its layout, after a line feed.
fn lay_out(alloc: Global, text: &str, tokens: &[Token]) -> Result<Vec<u8>, AllocError>
    requires { StandInOrder text.now 0 (lexemes_of tokens.now) }
    ensures { IfOk result (λ output. output.items ≡ laid_out text.now (lexemes_of tokens.now)) }
{
    let source = led(alloc, text)?;
    lay_led(alloc, source.as_slice(), tokens)
}

/// The text with these tokens in its layout. The text and each line of the result begin with a line feed.
fn lay_led(alloc: Global, source: &[u8], tokens: &[Token]) -> Result<Vec<u8>, AllocError>
    requires led { 0 < length source.now }
    requires order { StandInOrder (drop 1 source.now) 0 (lexemes_of tokens.now) }
    ensures { IfOk result (λ output. output.items ≡ spec.laid source.now 0 (lexemes_of tokens.now) start []) }
{
    let mut output = Vec::new(alloc);
    let mut state = START;
    let mut from = 0;
    let mut before: &[u8] = &[];
    for token in tokens {
        let start = token.span.start as usize + 1;
        let end = token.span.end as usize + 1;
        let word = &source[start..end];
        let role = role_of(&token.kind);
        let want = wanted(&state, role, before, word);
        push_gap(alloc, &mut output, &want, &source[from..start])?;
        output.extend_from_slice(word)?;
        state = after(&state, role);
        before = word;
        from = end;
    }
    push_gap(alloc, &mut output, &LAST, &source[from..])?;
    Ok(output)
}

/// The source text in the layout of canonical text: the same tokens and comments, in the same order, each line at its
/// depth. Its own layout is itself.
///
/// # Errors
/// The text spells no tokens, as `lex` says, or memory ran out.
pub fn format_text(alloc: Global, text: &str) -> Result<Vec<u8>, LexFault>
    ensures laid { IfOk result (λ output. IsLaidOut text.now output.items) }
    ensures same { IfOk result (λ output. HaveSame text.now output.items) }
    ensures settled { IfOk result (λ output. IsLaidOut output.items output.items) }
    ensures refused { IfErr result (IsRefused text.now) }
    ensures complete { (ts : List Lexeme) → length text.now ≤ max_source_bytes → Spells text.now ts
        → IfErr result (λ e. e ≡ LexFault.OutOfMemory) }
{
    let tokens = lex(alloc, text)?;
    let led = lay_out(alloc, text, tokens.as_slice())?;
    let formatted = Vec::from_slice(alloc, &led[1..])?;
    Ok(formatted)
}
