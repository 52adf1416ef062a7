//! The heading of the feature whose actuals are written at a place.

use crate::class_features::{push_formal, push_heading};
use crate::failure::Failure;
use crate::opening::OpenText;
use crate::probing::{Probe, Probed, probe_earlier, probe_now};
use crate::systems::{CheckedSystem, Place};
use crate::tokens::{Chain, Link, chain_at_end, is_terminal, lexed, word_before};
use crate::written::push_quoted_lines;
use sc_explain_text::{Lines, let_go, system_of, word_at};
use sc_symbols::{Mention, Symbol, symbol_at};
use sc_text::{Span, Terminal, Token, TokenKind};
use sc_tree::{Feature, FeatureKind, System};
use std::alloc::{AllocError, Global};

/// What is written at a place for what isn't written yet: nothing, an actual, or the last actual.
const ENDINGS: [&str; 3] = ["", "scoop_probe", "scoop_probe)"];

/// A call whose actuals are written: the chain of calls before them, and how many commas are between them so far.
#[derive(Clone, Copy)]
struct OpenCall {
    chain: Chain,
    name: Span,
    commas: u64,
}

/// Adds the heading of the feature whose actuals are written at a place; null if there is none, or it isn't known.
pub fn push_signature(
    alloc: Global,
    lines: &mut Lines,
    system: &CheckedSystem,
    texts: &[OpenText],
    place: Place,
) -> Result<(), Failure> {
    let text = match system.joined.parts.get(place.part) {
        Some(part) => part.document.text(),
        None => "",
    };
    let before = text.get(..place.start).unwrap_or("");
    match push_open_call(alloc, lines, system, texts, before, place) {
        Ok(true) => Ok(()),
        Ok(false) => {
            lines.push("null");
            Ok(())
        }
        Err(_) => Err(Failure::OutOfMemory),
    }
}

/// Adds the heading of the feature whose actuals are written after this text. Whether it is known.
fn push_open_call(
    alloc: Global,
    lines: &mut Lines,
    system: &CheckedSystem,
    texts: &[OpenText],
    before: &str,
    place: Place,
) -> Result<bool, AllocError> {
    let Some(tokens) = lexed(alloc, before)? else {
        return Ok(false);
    };
    let Some(call) = open_call(&tokens) else {
        return Ok(false);
    };
    let Some((found, mention)) = called(alloc, system, texts, before, place, call)? else {
        return Ok(false);
    };
    push_called(alloc, lines, &found, mention, call.commas)
}

/// The call whose actuals these tokens end with.
fn open_call(tokens: &[Token]) -> Option<OpenCall> {
    let mut commas = 0u64;
    let mut depth = 0usize;
    let mut rest = tokens;
    while let [before @ .., last] = rest {
        if is_terminal(last, Terminal::CloseParenthesis) {
            depth = depth.saturating_add(1);
        } else if is_terminal(last, Terminal::OpenParenthesis) {
            if depth == 0 {
                return call_of(before, commas);
            }
            depth = depth.saturating_sub(1);
        } else if depth == 0 && is_terminal(last, Terminal::Comma) {
            commas = commas.saturating_add(1);
        } else if ends_actuals(last) {
            return None;
        }
        rest = before;
    }
    None
}

/// Whether a token can't be in an actual.
fn ends_actuals(token: &Token) -> bool {
    match &token.kind {
        TokenKind::Terminal(terminal) => matches!(
            terminal,
            Terminal::Becomes
                | Terminal::Colon
                | Terminal::Semicolon
                | Terminal::Do
                | Terminal::Then
                | Terminal::Else
                | Terminal::Loop
                | Terminal::End
        ),
        _ => false,
    }
}

/// The call whose actuals begin after these tokens.
fn call_of(tokens: &[Token], commas: u64) -> Option<OpenCall> {
    let [.., last] = tokens else {
        return None;
    };
    let TokenKind::Name(_) = &last.kind else {
        return None;
    };
    match chain_at_end(tokens) {
        Some(chain) => Some(OpenCall {
            chain,
            name: last.span,
            commas,
        }),
        None => None,
    }
}

/// What the name of a call means, and the text in which it means that: the text that there is with one of the endings in a place, or
/// else the one that there was, with the call in the place.
fn called(
    alloc: Global,
    system: &CheckedSystem,
    texts: &[OpenText],
    before: &str,
    place: Place,
    call: OpenCall,
) -> Result<Option<(Probed, Mention)>, AllocError> {
    let length = word_before(before.as_bytes());
    let name = Place {
        part: place.part,
        start: call.name.start as usize,
        end: call.name.end as usize,
    };
    let offset = system.joined.offset_of(name);
    for ending in &ENDINGS {
        let kept = if ending.is_empty() { 0 } else { length };
        let word = Place {
            start: place.start.saturating_sub(kept),
            ..place
        };
        if let Some(found) = probe_now(alloc, &system.joined, word, Probe::Text(*ending))? {
            return Ok(mentioned(found, offset));
        }
    }
    called_earlier(alloc, system, texts, before, place, call)
}

/// What the name of a call means in the text that there was, in which the call stands from its beginning up to a place.
fn called_earlier(
    alloc: Global,
    system: &CheckedSystem,
    texts: &[OpenText],
    before: &str,
    place: Place,
    call: OpenCall,
) -> Result<Option<(Probed, Mention)>, AllocError> {
    let (start, end) = (call.chain.begin, call.name.end);
    let whole = Place {
        start: start as usize,
        ..place
    };
    let probe = Probe::Text(word_at(before, Span { start, end }));
    let Some(found) = probe_earlier(alloc, system, texts, whole, probe)? else {
        return Ok(None);
    };
    let offset = found.offset_of(call.name.start.saturating_sub(start));
    Ok(mentioned(found, offset))
}

/// A text with what the name at an offset of it means, if that is known.
fn mentioned(found: Probed, offset: u32) -> Option<(Probed, Mention)> {
    match symbol_at(&found.named.mentions, offset) {
        Some(mention) => Some((found, mention)),
        None => None,
    }
}

/// Adds the heading of the feature that a name means, with the parameter after so many commas. Whether the name means one.
fn push_called(
    alloc: Global,
    lines: &mut Lines,
    found: &Probed,
    mention: Mention,
    commas: u64,
) -> Result<bool, AllocError> {
    let text = found.named.text.as_str();
    let Some(system) = system_of(alloc, text)? else {
        return Ok(false);
    };
    let is_known = match feature_of(&system, mention) {
        Some(feature) => {
            lines.fill_number(
                r#"{"activeParameter":~,"activeSignature":0,"signatures":["#,
                commas,
            );
            push_of_feature(alloc, lines, text, feature);
            lines.push("]}");
            true
        }
        None => false,
    };
    let_go(system);
    Ok(is_known)
}

/// The feature that a name means, if it means one.
fn feature_of(system: &System, mention: Mention) -> Option<&Feature> {
    let Symbol::Feature(class, number) = mention.symbol else {
        return None;
    };
    match system.classes.get(class) {
        Some(class) => class.features.get(number),
        None => None,
    }
}

/// Adds the heading of a feature, and each of its formals.
fn push_of_feature(alloc: Global, lines: &mut Lines, text: &str, feature: &Feature) {
    let mut heading = Lines::new(alloc);
    push_heading(&mut heading, text, feature);
    lines.push(r#"{"label":"#);
    push_quoted_lines(alloc, lines, heading);
    lines.push(r#","parameters":["#);
    if let FeatureKind::Routine(routine) = &feature.kind {
        let mut before = r#"{"label":"#;
        for formal in &routine.formals {
            let mut said = Lines::new(alloc);
            push_formal(&mut said, text, formal);
            lines.push(before);
            push_quoted_lines(alloc, lines, said);
            before = r#"},{"label":"#;
        }
        lines.push(if routine.formals.is_empty() { "" } else { "}" })
    }
    lines.push("]}")
}
