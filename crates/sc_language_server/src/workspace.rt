//! The classes and features of all that an editor has open.

use crate::name_requests::push_location;
use crate::systems::{CheckedSystem, Joined};
use crate::written::push_quoted;
use sc_explain_text::{Lines, let_go, system_of, word_at};
use sc_text::Span;
use sc_tree::System;
use std::alloc::Global;

/// Adds the classes and features of these systems whose names have this in them. The letter case doesn't count.
pub fn push_found(alloc: Global, lines: &mut Lines, systems: &[CheckedSystem], query: &str) {
    let Ok(query) = query.to_ascii_lowercase(alloc) else {
        return lines.lack();
    };
    lines.push("[");
    let mut is_first = true;
    for system in systems {
        let joined = &system.joined;
        match system_of(alloc, joined.text.as_str()) {
            Ok(Some(read)) => {
                is_first = push_found_in(alloc, lines, joined, &read, query.as_str(), is_first);
                let_go(read)
            }
            Ok(None) => {}
            Err(_) => lines.lack(),
        }
    }
    lines.push("]")
}

/// Adds those of one system. True if what follows is the first of all, as it is before this system if `is_first`.
fn push_found_in(
    alloc: Global,
    lines: &mut Lines,
    joined: &Joined,
    system: &System,
    query: &str,
    is_first: bool,
) -> bool {
    let mut is_first = is_first;
    for class in &system.classes {
        if class.name.as_str().contains(query) {
            push_symbol(alloc, lines, joined, class.name.span, 5, is_first);
            is_first = false;
        }
        for feature in &class.features {
            if feature.name.as_str().contains(query) {
                push_symbol(alloc, lines, joined, feature.name.span, 6, is_first);
                is_first = false;
            }
        }
    }
    is_first
}

/// Adds a class or a feature of this number in the protocol's list of kinds, after a comma if it isn't the first.
fn push_symbol(
    alloc: Global,
    lines: &mut Lines,
    joined: &Joined,
    name: Span,
    kind: u64,
    is_first: bool,
) {
    if !is_first {
        lines.push(",")
    }
    lines.fill_number(r#"{"kind":~,"location":"#, kind);
    push_location(alloc, lines, joined, name);
    lines.push(r#","name":"#);
    push_quoted(alloc, lines, word_at(joined.text.as_str(), name));
    lines.push("}")
}
