//! What tags the types of a document's entities have got, if that isn't written.

use crate::declarations::ReadText;
use crate::failure::Failure;
use crate::naming::named_text;
use crate::outline::read_outline;
use crate::systems::{Joined, Place};
use crate::tokens::is_terminal;
use crate::written::{push_end, push_quoted_lines};
use sc_explain_text::{Lines, let_go, word_at};
use sc_rules::Role;
use sc_rules::entity_types::{EntityType, Tag};
use sc_symbols::{Mention, Symbol};
use sc_text::{Span, Terminal, Token, TokenKind};
use std::alloc::{AllocError, Global};

/// Adds the types of the entities that are declared in a part of a document, of those whose type or tag isn't written.
pub fn push_hints(
    alloc: Global,
    lines: &mut Lines,
    joined: &Joined,
    place: Place,
) -> Result<(), Failure> {
    lines.push("[");
    if push_known(alloc, lines, joined, place).is_err() {
        return Err(Failure::OutOfMemory);
    }
    lines.push("]");
    Ok(())
}

/// Adds them if the names of the system are known.
fn push_known(
    alloc: Global,
    lines: &mut Lines,
    joined: &Joined,
    place: Place,
) -> Result<(), AllocError> {
    let Some(named) = named_text(alloc, joined.text.as_str())? else {
        return Ok(());
    };
    let Some((system, tokens)) = read_outline(alloc, named.text.as_str())? else {
        return Ok(());
    };
    let read = ReadText {
        text: named.text.as_str(),
        tokens: &tokens,
        system: &system,
    };
    push_all(alloc, lines, joined, &read, &named.mentions, place);
    let_go(system);
    Ok(())
}

/// Adds those of these names.
fn push_all(
    alloc: Global,
    lines: &mut Lines,
    joined: &Joined,
    read: &ReadText,
    mentions: &[Mention],
    range: Place,
) {
    let mut before = "";
    for mention in mentions {
        if let Symbol::Entity(role, Some(given)) = mention.symbol
            && mention.span == mention.declaration
        {
            let name = joined.place_of(Some(mention.span));
            if name.touches(range) && is_told(read.tokens, mention.span, role, given) {
                let mut label = Lines::new(alloc);
                let word = word_at(read.text, mention.span);
                read.push_type(&mut label, word, role, given);
                lines.push(before);
                push_hint(alloc, lines, joined, name, label);
                before = ",";
            }
        }
    }
}

/// Whether the tag of an entity that is declared at a place isn't written: that of each name of a separate block, of the name of an
/// object test without a type, and of a formal whose tag is its own handler.
fn is_told(tokens: &[Token], name: Span, role: Role, given: EntityType) -> bool {
    match role {
        Role::Block => true,
        Role::Test => !has_tested_type(tokens, name),
        Role::Formal => matches!(given.tag, Tag::With(_)) && !has_handler(tokens, name),
        Role::Local => false,
    }
}

/// Whether the object test that gives a name has a type: a brace follows the last `attached` before the name.
fn has_tested_type(tokens: &[Token], name: Span) -> bool {
    let mut is_typed = false;
    let mut rest = tokens;
    while let [token, after @ ..] = rest {
        if token.span.start >= name.start {
            break;
        }
        if is_terminal(token, Terminal::Attached) {
            is_typed = match after {
                [brace, ..] => is_terminal(brace, Terminal::OpenBrace),
                [] => false,
            };
        }
        rest = after;
    }
    is_typed
}

/// Whether the type of a formal names a handler: `<` comes before the end of its declaration.
fn has_handler(tokens: &[Token], name: Span) -> bool {
    for token in tokens {
        if token.span.start > name.start
            && let TokenKind::Terminal(terminal) = &token.kind
        {
            match terminal {
                Terminal::Less => return true,
                Terminal::Semicolon | Terminal::CloseParenthesis => return false,
                _ => {}
            }
        }
    }
    false
}

/// Adds the hint after a name.
fn push_hint(alloc: Global, lines: &mut Lines, joined: &Joined, name: Place, label: Lines) {
    lines.push(r#"{"kind":1,"label":"#);
    push_quoted_lines(alloc, lines, label);
    lines.push(r#","position":"#);
    push_end(lines, joined, name);
    lines.push("}")
}
