//! Names that are written into a text to find out what they mean there.

use crate::earlier::earlier_text;
use crate::naming::{NamedText, named_text};
use crate::opening::OpenText;
use crate::systems::{CheckedSystem, Joined, Place};
use crate::tokens::{after_last, lexed};
use sc_symbols::{Symbol, symbol_at};
use sc_text::{Span, Terminal, Token, TokenKind};
use std::alloc::{AllocError, Global};

/// The name of a feature that stands for what isn't written yet.
const NAME: &str = "scoop_probe";

/// What is written into a text.
#[derive(Clone, Copy)]
pub enum Probe<'t> {
    /// This text.
    Text(&'t str),
    /// This text, and a name after it.
    Call(&'t str),
    /// A call with all names that the class has before the place.
    Names,
    /// The name of the class.
    Class,
}

/// A text with a probe in it: its names, and where the probe begins and ends.
#[derive(Drop)]
pub struct Probed {
    pub named: NamedText,
    pub start: usize,
    pub end: usize,
}

impl Probed {
    /// Whether a name of the text belongs to the probe.
    pub fn has(&self, span: Span) -> bool {
        self.start <= span.start as usize && span.end as usize <= self.end
    }

    /// Whether the probe is the name of a class.
    pub fn is_class(&self) -> bool {
        let start = u32::try_from(self.start).unwrap_or(u32::MAX);
        match symbol_at(&self.named.mentions, start) {
            Some(mention) => matches!(mention.symbol, Symbol::Class(_)),
            None => false,
        }
    }

    /// The offset of what begins so many bytes after the beginning of the probe.
    pub fn offset_of(&self, after: u32) -> u32 {
        let start = u32::try_from(self.start).unwrap_or(u32::MAX);
        start.saturating_add(after)
    }
}

/// The text of a system with a probe in a place, if its names are known.
pub fn probe_now(
    alloc: Global,
    joined: &Joined,
    place: Place,
    probe: Probe,
) -> Result<Option<Probed>, AllocError> {
    let start = joined.offset_of(place) as usize;
    let length = place.end.saturating_sub(place.start);
    let end = start.saturating_add(length);
    probe_in(alloc, joined.text.as_str(), start, end, probe)
}

/// The text that a system had when its names were known last, with a probe in a place, if its names are known.
pub fn probe_earlier(
    alloc: Global,
    system: &CheckedSystem,
    texts: &[OpenText],
    place: Place,
    probe: Probe,
) -> Result<Option<Probed>, AllocError> {
    let (text, start, end) = earlier_text(alloc, system, texts, place)?;
    probe_in(alloc, text.as_str(), start, end, probe)
}

/// The text of a system with a probe in a place, or else the text that it had before, if the names of one of them are known.
pub fn probe_anywhere(
    alloc: Global,
    system: &CheckedSystem,
    texts: &[OpenText],
    place: Place,
    probe: Probe,
) -> Result<Option<Probed>, AllocError> {
    match probe_now(alloc, &system.joined, place, probe)? {
        Some(found) => Ok(Some(found)),
        None => probe_earlier(alloc, system, texts, place, probe),
    }
}

/// A text with a probe between two offsets, apart from what is around it, if its names are known.
fn probe_in(
    alloc: Global,
    text: &str,
    start: usize,
    end: usize,
    probe: Probe,
) -> Result<Option<Probed>, AllocError> {
    let Some(before) = text.get(..start) else {
        return Ok(None);
    };
    let Some(after) = text.get(end..) else {
        return Ok(None);
    };
    let mut probed = String::from_str(alloc, before)?;
    probed.push_str(" ")?;
    let start = probed.len();
    push_probe(alloc, &mut probed, before, probe)?;
    let end = probed.len();
    probed.push_str(" ")?;
    probed.push_str(after)?;
    match named_text(alloc, probed.as_str())? {
        Some(named) => Ok(Some(Probed { named, start, end })),
        None => Ok(None),
    }
}

/// Adds a probe to what is before it.
fn push_probe(
    alloc: Global,
    probed: &mut String,
    before: &str,
    probe: Probe,
) -> Result<(), AllocError> {
    match probe {
        Probe::Text(text) => probed.push_str(text),
        Probe::Call(text) => {
            probed.push_str(text)?;
            probed.push_str(NAME)
        }
        Probe::Names => match lexed(alloc, before)? {
            Some(tokens) => push_names(probed, after_last(&tokens, Terminal::Class)),
            None => Ok(()),
        },
        Probe::Class => match lexed(alloc, before)? {
            Some(tokens) => push_first(probed, after_last(&tokens, Terminal::Class)),
            None => Ok(()),
        },
    }
}

/// Adds a call with the names among these tokens, which goes on as any name can.
fn push_names(probed: &mut String, tokens: &[Token]) -> Result<(), AllocError> {
    probed.push_str(NAME)?;
    let mut before = " (";
    for token in tokens {
        if let TokenKind::Name(name) = &token.kind {
            probed.push_str(before)?;
            probed.push_str(name.as_str())?;
            before = ", ";
        }
    }
    probed.push_str(").")?;
    probed.push_str(NAME)
}

/// Adds the name that is the first of these tokens.
fn push_first(probed: &mut String, tokens: &[Token]) -> Result<(), AllocError> {
    match tokens {
        [token, ..] => match &token.kind {
            TokenKind::Name(name) => probed.push_str(name.as_str()),
            _ => Ok(()),
        },
        [] => Ok(()),
    }
}
