//! The layout of a document.

ghost use Rattle.std.specs.Prelude.{IfOk, IfSome};
ghost use Rattle.sc_language_server.specs.Layouts.{IsLayoutOf};

use crate::written::{push_quoted, push_range};
use sc_documents::Document;
use sc_explain_text::{Lines, let_go, system_of};
use sc_format::format_text;
use sc_text::LexFault;
use std::alloc::{AllocError, Global};

/// Adds the change that puts a document in its layout: none if it is in it, and null if it spells no system.
pub fn push_layout(alloc: Global, lines: &mut Lines, document: &Document) {
    match layout_of(alloc, document.text()) {
        Ok(None) => lines.push("null"),
        Ok(Some(new)) => push_change(alloc, lines, document, new.as_slice()),
        Err(_) => lines.lack(),
    }
}

/// The layout of a text, if it spells a system.
fn layout_of(alloc: Global, text: &str) -> Result<Option<Vec<u8>>, AllocError>
    ensures { IfOk result (λ layout. IfSome layout (λ new. IsLayoutOf text.now new.items)) }
{
    let Some(system) = system_of(alloc, text)? else {
        return Ok(None);
    };
    let_go(system);
    match format_text(alloc, text) {
        Ok(new) => Ok(Some(new)),
        Err(LexFault::OutOfMemory) => Err(AllocError),
        Err(_) => Ok(None),
    }
}

/// Adds the change that writes this text in place of a document's, if it differs.
fn push_change(alloc: Global, lines: &mut Lines, document: &Document, new: &[u8]) {
    let text = document.text();
    let new = str::from_utf8(new).unwrap_or(text);
    if new == text {
        return lines.push("[]");
    }
    lines.push(r#"[{"newText":"#);
    push_quoted(alloc, lines, new);
    lines.push(r#","range":"#);
    push_range(lines, document, 0, text.len());
    lines.push("}]")
}
