//! Which name was meant where one isn't known.

use crate::walk::Walk;
use crate::words::class_name;
use sc_class::ClassId;
use sc_explain_text::{Lines, is_slip, push_instead_of, push_meant, push_near_word};
use sc_tree::Feature;
use sc_typing::Entity;
use std::alloc::Global;

impl<'s> Walk<'s> {
    /// Adds that the class has no feature of the name at fault, and which was meant.
    pub(crate) fn push_lacking(&self, lines: &mut Lines, class: ClassId) {
        let spot = self.search.spot;
        let class_name = class_name(spot.text, self.routine.tables, class);
        lines.fill_name("the class `~` has no feature ", class_name);
        spot.say(lines, "`~`\n");
        if !push_instead_of(lines, spot.name) {
            self.push_near_feature(lines, class);
        }
    }

    /// Adds that nothing is known of the name at fault, and a name that is known there and near to it, or what is written in
    /// place of what it shows. Returns whether there is either.
    pub(crate) fn push_unknown(&self, lines: &mut Lines) -> bool {
        let spot = self.search.spot;
        spot.say(lines, "nothing that is known here has the name `~`\n");
        let is_told = push_instead_of(lines, spot.name)
            || push_near_entity(lines, &self.names, spot.name)
            || self.push_near_feature(lines, ClassId::Declared(self.routine.class));
        if is_told {
            return true;
        }
        push_near_word(lines, spot.name);
        is_near_word(self.routine.alloc, spot.name)
    }

    /// Adds a feature of the class whose name is near to the one at fault, and whether there is one: its own in the order of
    /// the text, then its parent's.
    fn push_near_feature(&self, lines: &mut Lines, class: ClassId) -> bool {
        let tables = self.routine.tables;
        for number in tables.ancestors(class) {
            if let Some(class) = tables.class(*number)
                && push_near_among(lines, &class.features, self.search.spot.name)
            {
                return true;
            }
        }
        false
    }
}

/// Whether a word that every class knows is near to this one.
fn is_near_word(alloc: Global, word: &str) -> bool {
    let mut lines = Lines::new(alloc);
    push_near_word(&mut lines, word);
    !lines.is_empty()
}

/// Adds the first of these names that is near to one, and whether there is one.
fn push_near_entity(lines: &mut Lines, names: &[Entity<'_>], name: &str) -> bool {
    for known in names {
        if is_slip(known.name.as_bytes(), name.as_bytes()) {
            push_meant(lines, known.name);
            return true;
        }
    }
    false
}

/// Adds the first of these features whose name is near to one, and whether there is one.
fn push_near_among(lines: &mut Lines, features: &[Feature], name: &str) -> bool {
    for feature in features {
        let known = feature.name.as_str();
        if is_slip(known.as_bytes(), name.as_bytes()) {
            push_meant(lines, known);
            return true;
        }
    }
    false
}
