//! The classes and features of a document.

use crate::written::{push_quoted, push_range};
use sc_documents::Document;
use sc_explain_text::{Lines, let_go, system_of, word_at};
use sc_text::{Span, Terminal, Token, TokenKind, lex};
use sc_tree::{Class, Feature, FeatureKind, System};
use std::alloc::{AllocError, Global};

/// What is asked of a document's classes and features.
#[derive(Clone, Copy)]
pub enum Outline {
    /// Their names and places.
    Symbols,
    /// Where they begin and end.
    Folds,
}

/// A class or a feature: its number in the protocol's list of kinds, its name, and all of it.
#[derive(Clone, Copy)]
struct Entry {
    kind: u64,
    name: Span,
    whole: Span,
}

/// Adds what is asked of the classes and features of a document, or null if it spells no system.
pub fn push_outline(alloc: Global, lines: &mut Lines, document: &Document, asked: Outline) {
    match read_outline(alloc, document.text()) {
        Ok(None) => lines.push("null"),
        Ok(Some((system, tokens))) => {
            lines.push("[");
            let mut before = "";
            for class in &system.classes {
                before = match asked {
                    Outline::Symbols => {
                        push_class(alloc, lines, document, class, &tokens, before);
                        ","
                    }
                    Outline::Folds => push_folds(lines, document, class, &tokens, before),
                }
            }
            lines.push("]");
            let_go(system)
        }
        Err(_) => lines.lack(),
    }
}

/// The system of a text, and its tokens, if it spells one.
pub fn read_outline(alloc: Global, text: &str) -> Result<Option<(System, Vec<Token>)>, AllocError> {
    let Some(system) = system_of(alloc, text)? else {
        return Ok(None);
    };
    match lex(alloc, text) {
        Ok(tokens) => Ok(Some((system, tokens))),
        Err(_) => {
            let_go(system);
            Err(AllocError)
        }
    }
}

/// Adds the symbol of a class, with those of its features, after this separator.
fn push_class(
    alloc: Global,
    lines: &mut Lines,
    document: &Document,
    class: &Class,
    tokens: &[Token],
    before: &str,
) {
    lines.push(before);
    lines.push(r#"{"children":["#);
    let mut between = "{";
    for index in 0..class.features.len() {
        lines.push(between);
        let entry = entry_of(&class.features[index], tokens, limit_of(class, index));
        push_symbol(alloc, lines, document, entry);
        between = ",{";
    }
    lines.push("],");
    push_symbol(alloc, lines, document, class_entry(class))
}

/// Adds what can be folded of a class, after this separator, and returns the separator of what follows.
fn push_folds(
    lines: &mut Lines,
    document: &Document,
    class: &Class,
    tokens: &[Token],
    before: &'static str,
) -> &'static str {
    let mut before = push_fold(lines, document, class.span, before);
    for index in 0..class.features.len() {
        let feature = &class.features[index];
        if let FeatureKind::Routine(_) = &feature.kind {
            let entry = entry_of(feature, tokens, limit_of(class, index));
            before = push_fold(lines, document, entry.whole, before);
        }
    }
    before
}

fn class_entry(class: &Class) -> Entry {
    Entry {
        kind: 5,
        name: class.name.span,
        whole: class.span,
    }
}

/// The offset that the feature of this number ends before: that of the next one's name, or of the last `end` of the class.
fn limit_of(class: &Class, index: usize) -> u32 {
    match class.features.get(index.saturating_add(1)) {
        Some(next) => next.name.span.start,
        None => class.span.end.saturating_sub(1),
    }
}

/// A feature that ends before this offset.
fn entry_of(feature: &Feature, tokens: &[Token], limit: u32) -> Entry {
    let name = feature.name.span;
    let (kind, end) = match &feature.kind {
        FeatureKind::Attribute(declared) => (8, declared.span.end),
        FeatureKind::Routine(_) => (6, last_end(tokens, limit)),
    };
    Entry {
        kind,
        name,
        whole: Span {
            start: name.start,
            end: end.max(name.end),
        },
    }
}

/// Where the last `end` ends that ends up to this offset.
fn last_end(tokens: &[Token], limit: u32) -> u32 {
    let count = tokens.partition_point(|token| token.span.end <= limit);
    for token in tokens.get(..count).unwrap_or(&[]).iter().rev() {
        if let TokenKind::Terminal(Terminal::End) = &token.kind {
            return token.span.end;
        }
    }
    0
}

/// Adds the members of a symbol after the first brace, and the last brace.
fn push_symbol(alloc: Global, lines: &mut Lines, document: &Document, entry: Entry) {
    let Entry { kind, name, whole } = entry;
    lines.fill_number(r#""kind":~,"name":"#, kind);
    push_quoted(alloc, lines, word_at(document.text(), name));
    lines.push(r#","range":"#);
    push_range(lines, document, whole.start as usize, whole.end as usize);
    lines.push(r#","selectionRange":"#);
    push_range(lines, document, name.start as usize, name.end as usize);
    lines.push("}")
}

/// Adds the lines that a part of a document begins and ends in, after this separator, if they are two. Returns the separator of
/// what follows.
fn push_fold(
    lines: &mut Lines,
    document: &Document,
    whole: Span,
    before: &'static str,
) -> &'static str {
    let first = document.position_of(whole.start as usize).line;
    let last = document.position_of(whole.end as usize).line;
    if first == last {
        return before;
    }
    lines.push(before);
    lines.fill_number(r#"{"endLine":~"#, last as u64);
    lines.fill_number(r#","startLine":~}"#, first as u64);
    ","
}
