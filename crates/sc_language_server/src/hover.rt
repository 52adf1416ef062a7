//! What is said of a place.

use crate::declarations::ReadText;
use crate::failure::Failure;
use crate::naming::name_at;
use crate::outline::read_outline;
use crate::systems::{CheckedSystem, Joined, Place};
use crate::written::{push_place, push_quoted};
use sc_explain_text::{Lines, find, let_go};
use sc_symbols::Mention;
use std::alloc::{AllocError, Global};

/// Adds what the code of the refusal at a place means, or what the name there means; null if nothing is said of it.
pub fn push_hover(
    alloc: Global,
    lines: &mut Lines,
    system: &CheckedSystem,
    place: Place,
) -> Result<(), Failure> {
    if push_page(alloc, lines, system, place) {
        return Ok(());
    }
    match name_at(alloc, &system.joined, place)? {
        Some((_, mention)) => match declared_at(alloc, &system.joined, mention) {
            Ok(declared) => {
                let place = system.joined.place_of(Some(mention.span));
                push_said(alloc, lines, &system.joined, place, declared.as_slice())
            }
            Err(_) => return Err(Failure::OutOfMemory),
        },
        None => lines.push("null"),
    }
    Ok(())
}

/// Adds what the code of the refusal at a place means, if something is refused there.
fn push_page(alloc: Global, lines: &mut Lines, system: &CheckedSystem, place: Place) -> bool {
    for finding in &system.findings {
        if finding.touches(place)
            && let Some(code) = finding.code
            && let Some(page) = find(code.code())
        {
            let said = page.trim_end().as_bytes();
            push_said(alloc, lines, &system.joined, finding.place, said);
            return true;
        }
    }
    false
}

/// Adds what is said of a place.
fn push_said(alloc: Global, lines: &mut Lines, joined: &Joined, place: Place, said: &[u8]) {
    lines.push(r#"{"contents":{"kind":"plaintext","value":"#);
    push_quoted(alloc, lines, str::from_utf8(said).unwrap_or(""));
    lines.push(r#"},"range":"#);
    push_place(lines, joined, place);
    lines.push("}")
}

/// The declaration of what a name means.
fn declared_at(alloc: Global, joined: &Joined, mention: Mention) -> Result<Vec<u8>, AllocError> {
    let mut lines = Lines::new(alloc);
    let text = joined.text.as_str();
    if let Some((system, tokens)) = read_outline(alloc, text)? {
        let read = ReadText {
            text,
            tokens: &tokens,
            system: &system,
        };
        read.push_meaning(&mut lines, mention);
        let_go(system);
    }
    lines.finish()
}
