//! The features of a class, as they can be used at a place.

use crate::written::push_item;
use sc_class::{ClassId, FeatureEntry, Tables};
use sc_explain_text::{Lines, word_at};
use sc_symbols::{Mention, Symbol};
use sc_tree::{Declaration, DeclaredType, Feature, FeatureKind, Name, System};
use std::alloc::Global;

/// How a feature is called.
#[derive(Clone, Copy)]
pub enum Calling {
    /// Without a target.
    Plain,
    /// After a target.
    AfterTarget,
    /// To create an object.
    Creation,
}

/// The class that a place of a text lies in: the last one that begins no later.
pub fn class_at(system: &System, offset: usize) -> usize {
    let mut found = 0;
    for number in 0..system.classes.len() {
        if system.classes[number].span.start as usize <= offset {
            found = number;
        }
    }
    found
}

/// The feature that a place of a class lies in: the last one whose name is before it.
pub fn feature_at(features: &[Feature], offset: usize) -> Option<&Feature> {
    let mut found = None;
    for feature in features {
        if feature.name.span.start as usize <= offset {
            found = Some(feature);
        }
    }
    found
}

/// The class of the objects that a name means, if that is known.
pub fn class_of_mention(tables: &Tables, mention: Mention) -> Option<ClassId> {
    match mention.symbol {
        Symbol::Class(_) => None,
        Symbol::Entity(_, given) => match given {
            Some(given) => Some(given.class),
            None => None,
        },
        Symbol::Feature(class, number) => match tables.class(class) {
            Some(class) => class_of_result(tables, class.features.get(number)),
            None => None,
        },
    }
}

/// The class of the objects that a feature gives, if it gives any.
pub fn class_of_result(tables: &Tables, feature: Option<&Feature>) -> Option<ClassId> {
    let Some(feature) = feature else {
        return None;
    };
    let declared = match &feature.kind {
        FeatureKind::Attribute(declared) => declared,
        FeatureKind::Routine(routine) => match &routine.result_type {
            Some(declared) => declared,
            None => return None,
        },
    };
    tables.type_class(declared.class.as_str())
}

/// Adds the features of a class that can be called so, each after a comma but for the first one, which comes after this separator.
pub fn push_features(
    alloc: Global,
    lines: &mut Lines,
    text: &str,
    tables: &Tables,
    class: ClassId,
    calling: Calling,
    separator: &str,
) {
    let Ok(entries) = tables.features(alloc, class) else {
        return lines.lack();
    };
    let mut before = separator;
    for entry in &entries {
        if is_callable(tables, class, entry, calling) {
            lines.push(before);
            push_feature(alloc, lines, text, entry.feature);
            before = ",";
        }
    }
}

/// Whether a feature of a class can be called so.
fn is_callable(tables: &Tables, class: ClassId, entry: &FeatureEntry, calling: Calling) -> bool {
    match (calling, class) {
        (Calling::Plain, _) => true,
        (Calling::AfterTarget, _) => !is_hidden(&entry.feature.exports),
        (Calling::Creation, ClassId::Declared(number)) => {
            tables.is_creator(number, entry.feature.name.as_str())
        }
        _ => false,
    }
}

/// Whether a feature is exported to no class.
fn is_hidden(exports: &[Name]) -> bool {
    match exports {
        [first, ..] => first.as_str() == "none",
        [] => false,
    }
}

/// Adds the item of a feature.
fn push_feature(alloc: Global, lines: &mut Lines, text: &str, feature: &Feature) {
    let mut heading = Lines::new(alloc);
    push_heading(&mut heading, text, feature);
    let kind = match &feature.kind {
        FeatureKind::Attribute(_) => 5,
        FeatureKind::Routine(_) => 2,
    };
    let name = word_at(text, feature.name.span);
    push_item(alloc, lines, heading, kind, name)
}

/// Adds a feature's name, its formals and its type.
pub fn push_heading(lines: &mut Lines, text: &str, feature: &Feature) {
    lines.push(word_at(text, feature.name.span));
    match &feature.kind {
        FeatureKind::Attribute(declared) => push_type(lines, text, declared),
        FeatureKind::Routine(routine) => {
            push_formals(lines, text, &routine.formals);
            if let Some(declared) = &routine.result_type {
                push_type(lines, text, declared)
            }
        }
    }
}

/// Adds formals in parentheses.
fn push_formals(lines: &mut Lines, text: &str, formals: &[Declaration]) {
    let mut before = " (";
    for formal in formals {
        lines.push(before);
        push_formal(lines, text, formal);
        before = "; ";
    }
    lines.push(if formals.is_empty() { "" } else { ")" })
}

/// Adds a formal with its type.
pub fn push_formal(lines: &mut Lines, text: &str, formal: &Declaration) {
    lines.push(word_at(text, formal.name.span));
    push_type(lines, text, &formal.declared_type)
}

/// Adds a type after a colon.
fn push_type(lines: &mut Lines, text: &str, declared: &DeclaredType) {
    lines.push(": ");
    lines.push_flat(word_at(text, declared.span))
}
