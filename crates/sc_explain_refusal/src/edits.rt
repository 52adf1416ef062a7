//! What helps say to write, and where: an edit for each help that says both.
//!
//! It is read off the help as it is printed, so the edit and the sentence can't differ. If a help says no place, the place is
//! looked up: signs and words of other languages (`spellings`), the instruction around a part (`enclosing`), what is declared
//! (`declaring`), and the heads of classes (`class_heads`).

use crate::spellings::last_word_before;
use sc_explain_text::{Lines, Related, is_slip, word_at};
use sc_rules::{RefusalCode, Rule};
use sc_text::Span;
use sc_tree::Class;
use std::alloc::{AllocError, Global};

/// A change of a text: what is written in place of a part of it.
#[derive(Drop)]
pub struct Edit {
    /// The part; an empty one if the text is written before what stands there.
    pub span: Span,
    text: Vec<u8>,
}

impl Edit {
    /// What is written.
    pub fn text(&self) -> &str {
        str::from_utf8(self.text.as_slice()).unwrap_or("")
    }
}

/// What is said of a refusal of a text.
#[derive(Clone, Copy)]
pub(crate) struct Said<'s> {
    pub text: &'s str,
    /// The part at fault.
    pub span: Span,
    /// What is said of it before the help.
    pub message: &'s str,
    /// What helps, after the word.
    pub help: &'s str,
    pub related: Option<Related>,
}

/// The edit that the help with a refusal for this reason tells of, in a text with these classes, if it says what to write and
/// where.
///
/// # Errors
///
/// That memory ran out.
pub(crate) fn edit_of(
    alloc: Global,
    classes: &[Class],
    code: RefusalCode,
    said: Said<'_>,
) -> Result<Option<Edit>, AllocError> {
    let mut lines = Lines::new(alloc);
    let Some(span) = said.push_edit(&mut lines, classes, code) else {
        return Ok(None);
    };
    let text = lines.finish()?;
    Ok(Some(Edit { span, text }))
}

/// What a help has in backquotes after these words, with which it begins.
pub(crate) fn quoted_after<'h>(help: &'h str, words: &str) -> Option<&'h str> {
    let Some(rest) = help.strip_prefix(words) else {
        return None;
    };
    match rest.split_once('`') {
        Some((quoted, _)) => Some(quoted),
        None => None,
    }
}

impl<'s> Said<'s> {
    /// Adds what the help says to write. The part in whose place it is written; if there is none, what was added means nothing.
    fn push_edit(self, lines: &mut Lines, classes: &[Class], code: RefusalCode) -> Option<Span> {
        if let Some(meant) = quoted_after(self.help, "did you mean `") {
            lines.push(meant);
            return self.slip_for(meant);
        }
        match code {
            RefusalCode::BadCharacter => self.push_spelling(lines),
            RefusalCode::NotInGrammar if self.related.is_some() => self.push_else_if(lines),
            RefusalCode::NotInGrammar => self.push_spelling(lines),
            RefusalCode::DuplicateFeature if self.help.starts_with("to redefine it") => {
                self.push_redefinition(lines, classes)
            }
            RefusalCode::DuplicateFeature => self.push_other_name(lines, classes),
            RefusalCode::BadRedefinition => self.listed_in_vain(classes),
            RefusalCode::NoRoot => self.push_creator(lines, classes),
            RefusalCode::LeftOut => self.class_mark(classes),
            RefusalCode::Rule(rule) => self.push_by_rule(lines, classes, rule),
            _ => None,
        }
    }

    /// Adds what the help with a rule that fails says to write, and returns the part in whose place it is written.
    fn push_by_rule(self, lines: &mut Lines, classes: &[Class], rule: Rule) -> Option<Span> {
        match rule {
            Rule::UnknownName if self.help.starts_with("declare it") => self.push_local(
                lines, classes,
            ),
            Rule::UnknownName => self.push_spelling(lines),
            Rule::WrongArity => self.actuals(),
            Rule::AssignType if !self.help.starts_with("ask ") => self.push_wider_type(
                lines, classes,
            ),
            Rule::ArgumentType
            | Rule::AssignType
            | Rule::TargetDetachable
            | Rule::TargetUncontrolled => self.push_asked(lines, classes),
            Rule::NotBoolean => self.push_quoted(lines, "compare it: `"),
            Rule::NotCreation => {
                self.push_quoted(lines, "name a procedure that it lists: `create ")
            }
            Rule::TagName => self.push_unmarked_type(lines),
            Rule::NotExported => self.current_before(),
            Rule::OldPlace => self.old_before(),
            _ => None,
        }
    }

    /// The part at fault, or else the last of the three words before it, that is a slip of the pen for this word.
    fn slip_for(self, meant: &str) -> Option<Span> {
        let mut span = self.span;
        for _ in 0..4_usize {
            if is_slip(meant.as_bytes(), word_at(self.text, span).as_bytes()) {
                return Some(span);
            }
            span = last_word_before(self.text, span.start);
        }
        None
    }

    /// Adds what the help has in backquotes after these words, in place of the part at fault, if nothing is left out in it.
    fn push_quoted(self, lines: &mut Lines, words: &str) -> Option<Span> {
        match quoted_after(self.help, words) {
            Some(quoted) if !quoted.contains("..") => {
                lines.push(quoted);
                Some(self.span)
            }
            _ => None,
        }
    }

    /// Adds `elseif`, in place of an `else if` that needs an `end` of its own.
    fn push_else_if(self, lines: &mut Lines) -> Option<Span> {
        let Some(Related { what, span }) = self.related else {
            return None;
        };
        if !what.starts_with("`else if` begins") {
            return None;
        }
        lines.push("elseif");
        let word = last_word_before(self.text, span.start);
        Some(Span {
            start: word.start,
            end: span.end,
        })
    }

    /// Adds the class of the type at fault, in place of its marks too.
    fn push_unmarked_type(self, lines: &mut Lines) -> Option<Span> {
        if !self.help.starts_with("INTEGER and BOOLEAN stand without") {
            return None;
        }
        let class = last_word_before(self.text, self.span.end);
        lines.push(word_at(self.text, class));
        Some(self.span)
    }

    /// The actuals after the name at fault, with their parentheses, if it is to stand without and they are on its line.
    fn actuals(self) -> Option<Span> {
        if !self.help.starts_with("it stands without parentheses") {
            return None;
        }
        let start = self.span.end;
        let mut end = start;
        let mut depth = 0_usize;
        for byte in self.text.as_bytes().get(start as usize..).unwrap_or(&[]) {
            end = end.saturating_add(1);
            match *byte {
                b'(' => depth = depth.saturating_add(1),
                b')' if depth == 1 => return Some(Span { start, end }),
                b')' => depth = depth.saturating_sub(1),
                b'\n' | b'-' => return None,
                _ => {}
            }
        }
        None
    }

    /// The `Current.` before the name at fault, if that is to be called without a target.
    fn current_before(self) -> Option<Span> {
        let end = self.span.start;
        let start = end.saturating_sub(8);
        let target = self.between(start, end);
        if target.eq_ignore_ascii_case("Current.")
            && self.help.starts_with("it is called without")
        {
            Some(Span { start, end })
        } else {
            None
        }
    }

    /// The `old` at fault, if it is to be left out, with the blanks after it.
    fn old_before(self) -> Option<Span> {
        let start = self.span.start;
        let word = start.saturating_add(3);
        let end = self.next_token(word);
        if self.help.starts_with("leave ") {
            Some(Span { start, end })
        } else {
            None
        }
    }

    /// The text between two places.
    pub(crate) fn between(self, start: u32, end: u32) -> &'s str {
        word_at(self.text, Span { start, end })
    }

    /// The first place from this one on at which no blank stands.
    pub(crate) fn next_token(self, place: u32) -> u32 {
        let mut next = place;
        for byte in self.text.as_bytes().get(place as usize..).unwrap_or(&[]) {
            if !byte.is_ascii_whitespace() {
                break;
            }
            next = next.saturating_add(1);
        }
        next
    }
}
