//! What can be written at a place.

use crate::class_features::{
    Calling, class_at, class_of_mention, class_of_result, feature_at, push_features,
};
use crate::declarations::ReadText;
use crate::failure::Failure;
use crate::naming::is_own_root;
use crate::opening::OpenText;
use crate::probing::{Probe, Probed, probe_anywhere, probe_earlier, probe_now};
use crate::systems::{CheckedSystem, Place};
use crate::tokens::{Chain, Link, chain_at_end, is_terminal, lexed, word_after, word_before};
use crate::written::push_item;
use sc_class::{ClassId, Tables, tables};
use sc_explain_text::{Lines, let_go, system_of, word_at};
use sc_symbols::{Mention, Symbol, symbol_at};
use sc_text::{Span, Terminal, Token};
use sc_tree::System;
use std::alloc::{AllocError, Global};

/// The words of the language.
const WORDS: &str =
    "and as attached check class create Current detachable do else elseif end ensure False feature from \
     if implies indexing inherit invariant is local loop not note old or print redefine require Result \
     separate then True until Void xor";

/// The classes that every system has and that a type may name.
const BUILT_IN: &str = "ANY BOOLEAN INTEGER";

/// Adds what can be written at a place, as a list: nothing in a comment or in a manifest string.
pub fn push_completion(
    alloc: Global,
    lines: &mut Lines,
    system: &CheckedSystem,
    texts: &[OpenText],
    place: Place,
) -> Result<(), Failure> {
    lines.push("[");
    if let Some(part) = system.joined.parts.get(place.part)
        && let Some((before, after)) = part.document.text().split_at_checked(place.start)
    {
        let length = word_before(before.as_bytes());
        let word = Place {
            part: place.part,
            start: place.start.saturating_sub(length),
            end: place.start.saturating_add(word_after(after.as_bytes())),
        };
        let before = before.get(..word.start).unwrap_or("");
        if push_items(alloc, lines, system, texts, before, word).is_err() {
            return Err(Failure::OutOfMemory);
        }
    }
    lines.push("]");
    Ok(())
}

/// Adds what can stand in place of a word, before which a document has this text.
fn push_items(
    alloc: Global,
    lines: &mut Lines,
    system: &CheckedSystem,
    texts: &[OpenText],
    before: &str,
    word: Place,
) -> Result<(), AllocError> {
    let line = last_line(before);
    let Some(tokens) = lexed(alloc, line)? else {
        return Ok(());
    };
    if is_in_comment(line, &tokens) {
        return Ok(());
    }
    match tokens.as_slice() {
        [others @ .., dot] if is_terminal(dot, Terminal::Dot) => match chain_at_end(others) {
            Some(chain) => push_called(alloc, lines, system, texts, line, word, chain),
            None => Ok(()),
        },
        _ => push_plain(alloc, lines, system, texts, word),
    }
}

/// The part of a text after its last line feed.
fn last_line(text: &str) -> &str {
    match text.rsplit_once('\n') {
        Some((_, line)) => line,
        None => text,
    }
}

/// Whether a line with these tokens ends with a comment.
fn is_in_comment(line: &str, tokens: &[Token]) -> bool {
    let start = match tokens {
        [.., last] => last.span.end as usize,
        [] => 0,
    };
    line.get(start..).unwrap_or("").contains("--")
}

/// Adds the features that can be called after the chain of calls and the dot that a line ends with, in place of a word.
fn push_called(
    alloc: Global,
    lines: &mut Lines,
    system: &CheckedSystem,
    texts: &[OpenText],
    line: &str,
    word: Place,
    chain: Chain,
) -> Result<(), AllocError> {
    let written = line.get(chain.begin as usize..).unwrap_or("");
    let place = Place {
        start: word.start.saturating_sub(written.len()),
        ..word
    };
    let probe = Probe::Call(written);
    let Some(found) = probe_anywhere(alloc, system, texts, place, probe)? else {
        return Ok(());
    };
    let Some(read) = system_of(alloc, found.named.text.as_str())? else {
        return Ok(());
    };
    push_of_chain(alloc, lines, &found, &read, chain);
    let_go(read);
    Ok(())
}

/// Adds the features that can be called after a chain of calls.
fn push_of_chain(alloc: Global, lines: &mut Lines, found: &Probed, system: &System, chain: Chain) {
    let Ok(tables) = tables(alloc, system, &found.named.root) else {
        return lines.lack();
    };
    let calling = if chain.is_created {
        Calling::Creation
    } else {
        Calling::AfterTarget
    };
    let text = found.named.text.as_str();
    if let Some(class) = class_of_chain(&tables, found, system, chain) {
        push_features(alloc, lines, text, &tables, class, calling, "")
    }
}

/// The class of the objects that a chain of calls gives, if it is known.
fn class_of_chain(
    tables: &Tables,
    found: &Probed,
    system: &System,
    chain: Chain,
) -> Option<ClassId> {
    let number = class_at(system, found.start);
    match chain.last {
        Link::Current => Some(ClassId::Declared(number)),
        Link::Result => match system.classes.get(number) {
            Some(class) => class_of_result(tables, feature_at(&class.features, found.start)),
            None => None,
        },
        Link::Name(span) => {
            let offset = found.offset_of(span.start.saturating_sub(chain.begin));
            match symbol_at(&found.named.mentions, offset) {
                Some(mention) => class_of_mention(tables, mention),
                None => None,
            }
        }
    }
}

/// Adds the words of the language, and the names that can stand in place of a word: of classes if it is a type, and else of entities
/// and of features of the class.
fn push_plain(
    alloc: Global,
    lines: &mut Lines,
    system: &CheckedSystem,
    texts: &[OpenText],
    word: Place,
) -> Result<(), AllocError> {
    push_words(lines);
    let joined = &system.joined;
    let before_word = Place {
        end: word.start,
        ..word
    };
    for place in &[word, before_word] {
        if let Some(found) = probe_now(alloc, joined, *place, Probe::Names)? {
            return push_scope(alloc, lines, &found);
        }
    }
    if let Some(found) = probe_now(alloc, joined, word, Probe::Class)?
        && found.is_class()
    {
        return push_classes(alloc, lines, found.named.text.as_str());
    }
    if let Some(found) = probe_earlier(alloc, system, texts, word, Probe::Names)? {
        return push_scope(alloc, lines, &found);
    }
    let nowhere = Place {
        part: word.part,
        start: 0,
        end: 0,
    };
    match probe_earlier(alloc, system, texts, nowhere, Probe::Text(""))? {
        Some(found) => push_classes(alloc, lines, found.named.text.as_str()),
        None => Ok(()),
    }
}

/// Adds the words of the language.
fn push_words(lines: &mut Lines) {
    let mut is_first = true;
    for word in WORDS.split(' ') {
        lines.push(if is_first { "" } else { "," });
        lines.fill_name(r#"{"kind":14,"label":"~"}"#, word);
        is_first = false;
    }
}

/// Adds the classes of a text, and those that every system has.
fn push_classes(alloc: Global, lines: &mut Lines, text: &str) -> Result<(), AllocError> {
    let Some(system) = system_of(alloc, text)? else {
        return Ok(());
    };
    for class in &system.classes {
        if !is_own_root(class.name.as_str()) {
            push_class(lines, word_at(text, class.name.span))
        }
    }
    let_go(system);
    for name in BUILT_IN.split(' ') {
        push_class(lines, name)
    }
    Ok(())
}

/// Adds the item of a class.
fn push_class(lines: &mut Lines, name: &str) {
    lines.fill_name(r#",{"kind":7,"label":"~"}"#, name)
}

/// Adds the entities that a probe has found, and the features of the class that it is in.
fn push_scope(alloc: Global, lines: &mut Lines, found: &Probed) -> Result<(), AllocError> {
    let text = found.named.text.as_str();
    let Some(system) = system_of(alloc, text)? else {
        return Ok(());
    };
    push_entities(alloc, lines, found, &system);
    push_own_features(alloc, lines, found, &system);
    let_go(system);
    Ok(())
}

/// Adds the entities that a probe has found, each once.
fn push_entities(alloc: Global, lines: &mut Lines, found: &Probed, system: &System) {
    let read = ReadText {
        text: found.named.text.as_str(),
        tokens: &[],
        system,
    };
    let mut shown = Vec::new(alloc);
    for mention in &found.named.mentions {
        if found.has(mention.span)
            && let Symbol::Entity(_, _) = mention.symbol
            && !is_among(mention.declaration, &shown)
        {
            lines.push(",");
            push_entity(alloc, lines, &read, *mention);
            if shown.push(mention.declaration).is_err() {
                lines.lack()
            }
        }
    }
}

/// Whether a place is one of these.
fn is_among(span: Span, spans: &[Span]) -> bool {
    for other in spans {
        if *other == span {
            return true;
        }
    }
    false
}

/// Adds the item of an entity.
fn push_entity(alloc: Global, lines: &mut Lines, read: &ReadText, mention: Mention) {
    let mut meaning = Lines::new(alloc);
    read.push_meaning(&mut meaning, mention);
    push_item(alloc, lines, meaning, 6, word_at(read.text, mention.span))
}

/// Adds the features of the class that a probe is in.
fn push_own_features(alloc: Global, lines: &mut Lines, found: &Probed, system: &System) {
    let Ok(tables) = tables(alloc, system, &found.named.root) else {
        return lines.lack();
    };
    let text = found.named.text.as_str();
    let class = ClassId::Declared(class_at(system, found.start));
    push_features(alloc, lines, text, &tables, class, Calling::Plain, ",")
}
