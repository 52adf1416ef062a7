//! Declarations that a help changes or adds.

use crate::class_heads::beginning_of;
use crate::declared::{both_around, feature_named, routine_of};
use crate::edits::{Said, quoted_after};
use crate::fresh::{has_word, is_part_of_name};
use sc_explain_text::{Lines, word_at};
use sc_text::Span;
use sc_tree::{Class, Feature, FeatureKind};

impl<'s> Said<'s> {
    /// Adds a local of the name at fault, of the type that the help says: before the first one, or before the body of the routine.
    pub(crate) fn push_local(self, lines: &mut Lines, classes: &[Class]) -> Option<Span> {
        let Some((_, class)) = self.type_said() else {
            return None;
        };
        let Some((_, feature)) = both_around(classes, self.span) else {
            return None;
        };
        let Some(routine) = routine_of(feature) else {
            return None;
        };
        let (template, place) = match routine.locals.first() {
            Some(first) => ("~: ~", first.name.span),
            None => {
                let head = Span {
                    start: feature.name.span.end,
                    end: self.span.start,
                };
                let Some(body) = keyword_in(self.text, head, &["local", "do"]) else {
                    return None;
                };
                if word_at(self.text, body).eq_ignore_ascii_case("local") {
                    return None;
                }
                ("local ~: ~", body)
            }
        };
        lines.fill(template, &[word_at(self.text, self.span), class]);
        self.push_break(lines, place.start);
        Some(beginning_of(place))
    }

    /// What a help says before a type, and the type, with which it ends.
    fn type_said(self) -> Option<(&'s str, &'s str)> {
        match self.help.strip_suffix('`') {
            Some(help) => help.rsplit_once('`'),
            None => None,
        }
    }

    /// Adds what separates an addition from what stands at this place: the end of its line and the blanks before that, if it is
    /// the first in a line, or else a blank.
    pub(crate) fn push_break(self, lines: &mut Lines, place: u32) {
        let before = self.text.get(..place as usize).unwrap_or("");
        let blanks = match before.rsplit_once('\n') {
            Some((_, blanks)) if blanks.trim_start().is_empty() => blanks,
            _ => return lines.push(" "),
        };
        lines.push("\n");
        lines.push(blanks)
    }

    /// Adds the type that the help says for the variable that is assigned the part at fault, in place of the declared one.
    pub(crate) fn push_wider_type(self, lines: &mut Lines, classes: &[Class]) -> Option<Span> {
        let Some((said, wider)) = self.type_said() else {
            return None;
        };
        let Some((_, named)) = said.split_once(" taken where `") else {
            return None;
        };
        let Some((name, _)) = named.split_once('`') else {
            return None;
        };
        let Some(span) = type_of_variable(classes, self.span, name) else {
            return None;
        };
        let declared = word_at(self.text, span);
        match wider {
            "detachable" if declared.starts_with("attached") || declared.starts_with('!') => {
                return None;
            }
            "detachable" => lines.fill_name("detachable ~", declared),
            _ => lines.push(wider),
        }
        Some(span)
    }

    /// Adds the name that the help says, in place of that of a formal or of a name in the body, if the routine has the old one
    /// nowhere else. (A name that is used there could be meant for either.)
    pub(crate) fn push_other_name(self, lines: &mut Lines, classes: &[Class]) -> Option<Span> {
        let Some(name) = quoted_after(self.help, "choose another name, as `") else {
            return None;
        };
        let Some((class, feature)) = both_around(classes, self.span) else {
            return None;
        };
        let Span { start, end } = self.span;
        let begin = feature.name.span.end;
        let old = word_at(self.text, self.span).as_bytes();
        let front = self.between(begin, start);
        let rest = self.between(end, end_of(class, feature));
        if begin > start
            || has_word(front.as_bytes(), old)
            || has_word(rest.as_bytes(), old)
            || name == ".."
        {
            return None;
        }
        lines.push(name);
        Some(self.span)
    }
}

/// The type that a local, the result or an attribute of this name is declared with, as it is known at a part of these classes.
fn type_of_variable(classes: &[Class], part: Span, name: &str) -> Option<Span> {
    let Some((class, feature)) = both_around(classes, part) else {
        return None;
    };
    let Some(routine) = routine_of(feature) else {
        return None;
    };
    for local in routine.locals.iter() {
        if local.name.text.eq_ignore_ascii_case(name) {
            return Some(local.declared_type.span);
        }
    }
    match (&routine.result_type, feature_named(classes, class, name)) {
        (Some(given), _) if name.eq_ignore_ascii_case("result") => Some(given.span),
        (_, Some(known)) => match &known.kind {
            FeatureKind::Attribute(declared) => Some(declared.span),
            FeatureKind::Routine(_) => None,
        },
        _ => None,
    }
}

/// The beginning of the next feature of a class after this one, or else the end of the class.
fn end_of(class: &Class, feature: &Feature) -> u32 {
    for other in class.features.iter() {
        if other.name.span.start > feature.name.span.start {
            return other.name.span.start;
        }
    }
    class.span.end
}

/// The first of these words in a part of a text, outside of comments.
pub(crate) fn keyword_in(text: &str, part: Span, words: &[&str]) -> Option<Span> {
    let mut start = part.start;
    let mut is_comment = false;
    let mut is_dash = false;
    for end in part.start..part.end.saturating_add(1) {
        let byte = text.as_bytes().get(end as usize);
        if !is_part_of_name(byte) {
            let word = Span { start, end };
            if !is_comment && is_among(words, word_at(text, word)) {
                return Some(word);
            }
            start = end.saturating_add(1);
        }
        let was_dash = is_dash;
        is_dash = matches!(byte, Some(b'-'));
        is_comment = is_comment && !matches!(byte, Some(b'\n')) || is_dash && was_dash;
    }
    None
}

/// Whether a word is one of these, in any letter case.
fn is_among(words: &[&str], word: &str) -> bool {
    for known in words {
        if known.eq_ignore_ascii_case(word) {
            return true;
        }
    }
    false
}
