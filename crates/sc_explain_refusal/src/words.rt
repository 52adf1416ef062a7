//! The part at fault and types, as sentences name them.

use crate::fresh::Fresh;
use crate::site::Place;
use sc_class::{ClassId, Tables};
use sc_explain_text::{Lines, word_at};
use sc_rules::entity_types::{EntityType, Reserved, Tag};
use sc_rules::{Context, Role};
use sc_text::Span;
use sc_tree::Declaration;
use sc_typing::Entity;

/// The part of a text that is at fault, and where it stands.
#[derive(Clone, Copy)]
pub struct Spot<'s> {
    pub text: &'s str,
    pub span: Span,
    /// The name at fault.
    pub name: &'s str,
    /// The part, if it can be shown; else nothing.
    pub part: &'s str,
    /// The part of the class's text that it belongs to.
    pub context: Context,
    /// Its position in a body.
    pub place: Place,
    /// Names that aren't known in the text.
    pub fresh: Fresh<'s>,
}

impl<'s> Spot<'s> {
    /// This part of a text, as an instruction of a body would stand there.
    pub fn of(text: &'s str, span: Span, fresh: Fresh<'s>) -> Spot<'s> {
        Spot {
            text,
            span,
            name: word_at(text, span),
            part: part_of(text, span),
            context: Context::Body,
            place: Place::Instruction,
            fresh,
        }
    }

    /// Adds a text on the part at fault, which takes the place of `~`.
    pub fn say(self, lines: &mut Lines, template: &str) {
        fill_part(lines, template, self.part)
    }

    /// The part of the text at fault, or a word in its place.
    pub fn shown(self) -> &'s str {
        if self.part.is_empty() {
            ".."
        } else {
            self.part
        }
    }
}

/// A type with the names that its declaration has.
#[derive(Clone, Copy)]
pub struct NamedType<'s> {
    pub entity_type: EntityType,
    pub class: &'s str,
    /// The formal or the block whose handler it names, if it does.
    pub handler: &'s str,
}

/// Adds a type in quotes, as it is declared, and the words after it.
pub fn push_type(lines: &mut Lines, named: NamedType<'_>, behind: &str) {
    let template = template_of(named.entity_type);
    match named.entity_type.tag {
        Tag::With(_) => lines.fill(template, &[named.handler, named.class]),
        _ => lines.fill_name(template, named.class),
    }
    lines.push(behind)
}

/// How a type is declared, with `~` for its class, and before that for the name whose handler it names, if it does.
fn template_of(given: EntityType) -> &'static str {
    let is_of_void = matches!(given.class, ClassId::None);
    match (given.tag, given.attached || is_of_void) {
        (Tag::Own, true) => "`~`",
        (Tag::Own, false) => "`detachable ~`",
        (Tag::Any, true) => "`separate ~`",
        (Tag::Any, false) => "`detachable separate ~`",
        (Tag::With(_), true) => "`separate <~.handler> ~`",
        (Tag::With(_), false) => "`detachable separate <~.handler> ~`",
        (Tag::None, _) if is_of_void => "`~`",
        (Tag::None, true) => "`~` of a handler that isn't known here",
        (Tag::None, false) => "`detachable ~` of a handler that isn't known here",
    }
}

/// The name of a class, as its text has it.
pub fn class_name<'s>(text: &'s str, tables: &Tables<'_>, class: ClassId) -> &'s str {
    match class {
        ClassId::Any => "ANY",
        ClassId::None => "NONE",
        ClassId::Integer => "INTEGER",
        ClassId::Boolean => "BOOLEAN",
        ClassId::Declared(number) => match tables.class(number) {
            None => "..",
            Some(class) => part_of(text, class.name.span),
        },
    }
}

/// The name of the formal or the block whose handler a tag names, if it names one's.
pub fn handler_name<'s>(
    text: &'s str,
    formals: &[Declaration],
    names: &[Entity<'s>],
    tag: Tag,
) -> &'s str {
    match tag {
        Tag::With(Reserved::Formal(number)) => match formals.get(number) {
            None => "..",
            Some(formal) => part_of(text, formal.name.span),
        },
        Tag::With(Reserved::BlockName(number)) => name_of_block(names, number),
        _ => "",
    }
}

/// The block's name at a number, counted from the outermost block.
fn name_of_block<'n>(names: &[Entity<'n>], number: usize) -> &'n str {
    let mut left = number;
    for known in names {
        if matches!(known.role, Role::Block) {
            if left == 0 {
                return known.name;
            }
            left -= 1;
        }
    }
    ".."
}

/// The text of a part, if it is short, on one line, and closes what it opens; else nothing.
pub fn part_of(text: &str, span: Span) -> &str {
    let part = word_at(text, span);
    if part.len() > 60 || !is_closed(part) {
        ""
    } else {
        part
    }
}

/// Whether the text is on one line, and its parentheses are closed and opened in it. (A part at fault may begin or
/// end inside of parentheses.)
fn is_closed(part: &str) -> bool {
    let mut depth = 0_usize;
    for byte in part.as_bytes() {
        match *byte {
            b'(' => depth = depth.saturating_add(1),
            b')' if depth == 0 => return false,
            b')' => depth -= 1,
            b'\n' => return false,
            _ => {}
        }
    }
    depth == 0
}

/// Adds a text in which this part of another takes the place of each `~`. If there is no part to show, `this` takes
/// that of "`~`", and `..` that of another `~`.
pub fn fill_part(lines: &mut Lines, template: &str, part: &str) {
    if !part.is_empty() {
        return lines.fill(template, &[part, part]);
    }
    match template.split_once("`~`") {
        None => lines.push(template),
        Some((before, behind)) => {
            lines.push(before);
            lines.push("this");
            lines.fill_name(behind, "..")
        }
    }
}
