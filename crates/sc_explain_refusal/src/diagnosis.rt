//! What is said of one refusal, or of each of several.

use crate::class_helps::{push_left_out, push_near_class};
use crate::declared::{other_class, other_entity};
use crate::edits::{Edit, Said, edit_of};
use crate::fresh::Fresh;
use crate::redefinition::{push_other_name, push_unfit};
use crate::root::explain_root;
use crate::sentences::text_of;
use crate::site::{Found, Search};
use crate::words::{Spot, fill_part, part_of};
use sc_class::{ClassFault, Root, Tables, tables};
use sc_explain_text::{
    Lines, Related, explain_character, explain_grammar, let_go, system_of, word_at,
};
use sc_frontend::Refused;
use sc_rules::{RefusalCode, Rule};
use sc_text::Span;
use sc_tree::{Class, System};
use std::alloc::{AllocError, Global};

/// What is said of a refusal: lines of text, another place, if one goes with the fault, and what the help says to write, if it
/// says what and where.
#[derive(Drop)]
pub struct Diagnosis {
    pub lines: Vec<u8>,
    pub related: Option<Related>,
    pub edit: Option<Edit>,
}

impl Diagnosis {
    /// Its sentence, and what helps: nothing if it isn't known.
    pub fn sentence_and_help(&self) -> (&str, &str) {
        let lines = str::from_utf8(self.lines.as_slice()).unwrap_or("");
        match lines.split_once("\nhelp: ") {
            Some((sentence, help)) => (sentence, help.trim_end()),
            None => (lines.trim_end(), ""),
        }
    }
}

/// What is said of this refusal of a text that is run from this root: a sentence, and a line that begins with `help: ` where
/// something helps.
///
/// # Errors
///
/// That memory ran out.
pub fn diagnose(
    alloc: Global,
    text: &str,
    root: &Root,
    refused: Refused,
) -> Result<Diagnosis, AllocError> {
    let mut told = diagnose_all(alloc, text, root, &[refused])?;
    match told.pop() {
        Some(diagnosis) => Ok(diagnosis),
        None => Err(AllocError),
    }
}

/// What is said of each of these refusals of a text that is run from this root, in their order. The text is read once.
///
/// # Errors
///
/// That memory ran out.
pub fn diagnose_all(
    alloc: Global,
    text: &str,
    root: &Root,
    refused: &[Refused],
) -> Result<Vec<Diagnosis>, AllocError> {
    if refused.is_empty() {
        return Ok(Vec::new(alloc));
    }
    match system_of(alloc, text)? {
        Some(system) => {
            let told = diagnose_in(alloc, text, root, &system, refused);
            let_go(system);
            told
        }
        None => diagnose_each(alloc, text, root, &[], None, refused),
    }
}

/// What is said of each of these refusals of a text that spells this system.
fn diagnose_in(
    alloc: Global,
    text: &str,
    root: &Root,
    system: &System,
    refused: &[Refused],
) -> Result<Vec<Diagnosis>, AllocError> {
    let classes = &system.classes;
    match tables(alloc, system, root) {
        Ok(tables) => diagnose_each(alloc, text, root, classes, Some(&tables), refused),
        Err(ClassFault::OutOfMemory) => Err(AllocError),
        Err(_) => diagnose_each(alloc, text, root, classes, None, refused),
    }
}

/// What is said of each of these refusals of a text that has these classes, with these tables if the classes have no fault.
fn diagnose_each(
    alloc: Global,
    text: &str,
    root: &Root,
    classes: &[Class],
    tables: Option<&Tables<'_>>,
    refused: &[Refused],
) -> Result<Vec<Diagnosis>, AllocError> {
    let known = Known {
        root,
        classes,
        tables,
        fresh: Fresh::of(text),
    };
    let mut told = Vec::new(alloc);
    for one in refused {
        let refusal = Refusal {
            text,
            code: one.code,
            span: one.span.unwrap_or(NOWHERE),
        };
        told.push(refusal.diagnosis(alloc, known)?)?;
    }
    Ok(told)
}

/// The part that is at fault where none is.
const NOWHERE: Span = Span { start: 0, end: 0 };

/// What is known of a text.
#[derive(Clone, Copy)]
struct Known<'k> {
    /// What it is run from.
    root: &'k Root,
    /// The classes of its system.
    classes: &'k [Class],
    /// The tables of its system, if nothing is at fault in its classes.
    tables: Option<&'k Tables<'k>>,
    /// Names that aren't known in it.
    fresh: Fresh<'k>,
}

/// The refusal of a text, and the part that is at fault.
#[derive(Clone, Copy)]
struct Refusal<'s> {
    text: &'s str,
    code: RefusalCode,
    span: Span,
}

impl<'s> Refusal<'s> {
    /// What is said of it.
    fn diagnosis(&self, alloc: Global, known: Known<'s>) -> Result<Diagnosis, AllocError> {
        let mut lines = Lines::new(alloc);
        let related = self.tell(alloc, &mut lines, known);
        let mut diagnosis = Diagnosis {
            lines: lines.finish()?,
            related,
            edit: None,
        };
        diagnosis.edit = self.edit(alloc, known.classes, &diagnosis)?;
        Ok(diagnosis)
    }

    /// What the help with it says to write, if it says what and where.
    fn edit(
        &self,
        alloc: Global,
        classes: &[Class],
        diagnosis: &Diagnosis,
    ) -> Result<Option<Edit>, AllocError> {
        let (message, help) = diagnosis.sentence_and_help();
        let said = Said {
            text: self.text,
            span: self.span,
            message,
            help,
            related: diagnosis.related,
        };
        edit_of(alloc, classes, self.code, said)
    }

    /// Adds what is said of it. Another place, if one goes with the fault.
    fn tell(&self, alloc: Global, lines: &mut Lines, known: Known<'s>) -> Option<Related> {
        let classes = known.classes;
        match self.code {
            RefusalCode::BadCharacter => {
                explain_character(lines, self.text, self.span);
                None
            }
            RefusalCode::NotInGrammar => explain_grammar(lines, self.text, self.span),
            RefusalCode::NoRoot => {
                explain_root(lines, self.text, classes, known.root);
                None
            }
            RefusalCode::Rule(rule) => self.tell_of_rule(alloc, lines, known, rule),
            code => {
                self.push_sentence(lines);
                self.push_class_helps(lines, known, code);
                self.other_declaration(classes)
            }
        }
    }

    /// Adds what the classes tell of the part at which a rule fails, or else the sentence. (Every class has `print`,
    /// so if that isn't known, its place is one that no class gives it.)
    fn tell_of_rule(
        &self,
        alloc: Global,
        lines: &mut Lines,
        known: Known<'s>,
        rule: Rule,
    ) -> Option<Related> {
        let Refusal { text, span, .. } = *self;
        let name = word_at(text, span);
        let is_unknown = matches!(rule, Rule::UnknownName);
        let is_print = is_unknown && name.eq_ignore_ascii_case("print");
        let related = match known.tables {
            Some(tables) if !is_print => {
                let search = Search {
                    rule,
                    spot: Spot::of(text, span, known.fresh),
                    found: Found::Nothing,
                };
                search.push_told(alloc, lines, tables)
            }
            _ => None,
        };
        if lines.is_empty() {
            self.push_sentence(lines);
            if is_unknown {
                push_near_class(lines, text, known.classes, name)
            }
        }
        related
    }

    /// Adds what helps where the classes are at fault.
    fn push_class_helps(&self, lines: &mut Lines, known: Known<'s>, code: RefusalCode) {
        let Refusal { text, span, .. } = *self;
        let Known { classes, fresh, .. } = known;
        match code {
            RefusalCode::UnknownParent => {
                push_near_class(lines, text, classes, word_at(text, span))
            }
            RefusalCode::DuplicateFeature => push_other_name(
                lines,
                text,
                classes,
                span,
                fresh.first,
            ),
            RefusalCode::BadRedefinition => push_unfit(lines, classes, span),
            RefusalCode::LeftOut => push_left_out(lines, text, classes, span),
            _ => {}
        }
    }

    /// The other declaration of the name at fault, if that is what is at fault.
    fn other_declaration(&self, classes: &[Class]) -> Option<Related> {
        let name = word_at(self.text, self.span);
        let other = match self.code {
            RefusalCode::DuplicateClass => other_class(classes, name, self.span),
            RefusalCode::DuplicateFeature | RefusalCode::BadRedefinition => {
                other_entity(classes, name, self.span)
            }
            _ => None,
        };
        match other {
            None => None,
            Some(span) => Some(Related {
                what: "the name stands here too",
                span,
            }),
        }
    }

    /// Adds the sentence, and what helps where something does in general.
    fn push_sentence(&self, lines: &mut Lines) {
        let part = part_of(self.text, self.span);
        let template = match self.code {
            RefusalCode::Rule(Rule::ResultType) if part.eq_ignore_ascii_case("result") => {
                "`~` stands in a function alone\n"
            }
            RefusalCode::Rule(Rule::TagName) => text_of_tag(part),
            code => text_of(code),
        };
        fill_part(lines, template, part)
    }
}

/// What is said of a declared type with a mark or a tag that it can't have, and what helps.
fn text_of_tag(declared: &str) -> &'static str {
    if declared.split_once("<").is_some() {
        "`~` has a tag that it can't have here\n\
         help: a tag names an attached formal of the same routine, of a type `separate C`\n"
    } else {
        "`~` has a mark that it can't have here\n\
         help: INTEGER and BOOLEAN stand without `detachable` and `separate`\n"
    }
}
