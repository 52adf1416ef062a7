//! What a redefinition lacks.

use crate::declared::{
    class_around, declared_in, feature_around, feature_named, inherits, parent_of, routine_of,
};
use sc_explain_text::{Lines, word_at};
use sc_text::Span;
use sc_tree::{Class, Feature, Name};

/// Adds how a feature is declared that has the name of one of an ancestor or an heir, if the one at fault does, or else
/// that it may have this name, which is known nowhere in the text.
pub fn push_other_name(lines: &mut Lines, text: &str, classes: &[Class], span: Span, fresh: &str) {
    if let Some((_, class)) = class_around(classes, span)
        && let Some(feature) = feature_around(class, span)
        && feature.name.span == span
    {
        for other in classes {
            if other.span != class.span
                && let Some(known) = declared_in(other, feature.name.as_str())
            {
                if inherits(classes, class, other) {
                    return push_for_heir(lines, text, class, known, feature);
                }
                if inherits(classes, other, class) {
                    return push_for_heir(lines, text, other, feature, known);
                }
            }
        }
    }
    lines.fill_name(
        "help: choose another name, as `~`: each stands for one thing in a routine and its class\n",
        fresh,
    )
}

/// Adds how a class declares a feature again that it inherits.
fn push_for_heir(lines: &mut Lines, text: &str, heir: &Class, inherited: &Feature, own: &Feature) {
    if routine_of(inherited).is_none() || routine_of(own).is_none() {
        return lines.push(
            "help: give it another name: an attribute isn't redefined, and redefines nothing\n",
        );
    }
    if let Some(parent) = heir.parents.first() {
        lines.fill(
            "help: to redefine it, ~ says so: `inherit ~ redefine ~ end`\n",
            &[
                word_at(text, heir.name.span),
                word_at(text, parent.name.span),
                word_at(text, own.name.span),
            ],
        )
    }
}

/// Adds what a redefinition at fault lacks, if it is known.
pub fn push_unfit(lines: &mut Lines, classes: &[Class], span: Span) {
    let Some((_, class)) = class_around(classes, span) else {
        return;
    };
    lines.push(match feature_around(class, span) {
        Some(feature) if feature.name.span == span => help_for_feature(classes, class, feature),
        _ => help_for_listed(classes, class, span),
    })
}

/// What helps with a name under `redefine`.
fn help_for_listed(classes: &[Class], class: &Class, span: Span) -> &'static str {
    let Some(name) = listed_at(class, span) else {
        return "help: a name under `redefine` is one of the parent's routines\n";
    };
    if inherited(classes, class, name).is_none() {
        "help: the parent has no such feature: leave it out under `redefine`\n"
    } else if declared_in(class, name.as_str()).is_none() {
        "help: the class declares no feature of this name: declare one, or leave it out under `redefine`\n"
    } else {
        "help: a name stands once under `redefine`\n"
    }
}

/// What helps with a feature that redefines another.
fn help_for_feature(classes: &[Class], class: &Class, feature: &Feature) -> &'static str {
    let Some(routine) = routine_of(feature) else {
        return "help: an attribute redefines nothing: give it another name\n";
    };
    if let Some(known) = inherited(classes, class, &feature.name)
        && routine_of(known).is_none()
    {
        return "help: an attribute isn't redefined: give the routine another name\n";
    }
    if routine.precondition.is_empty() && routine.postcondition.is_empty() {
        "help: a redefinition has formals of the same names and types, and a result that conforms, or none as well\n"
    } else {
        "help: a redefinition keeps the contract that it inherits: leave `require` and `ensure` out\n"
    }
}

/// The name at this place under `redefine`.
fn listed_at(class: &Class, span: Span) -> Option<&Name> {
    for parent in class.parents.iter() {
        for name in parent.redefined.iter() {
            if name.span == span {
                return Some(name);
            }
        }
    }
    None
}

/// The feature of this name that a class inherits.
fn inherited<'s>(classes: &'s [Class], class: &Class, name: &Name) -> Option<&'s Feature> {
    match parent_of(classes, class) {
        None => None,
        Some(parent) => feature_named(classes, parent, name.as_str()),
    }
}
