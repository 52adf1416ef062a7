//! What is said of a part at fault, and what helps, with the types and names that were found there.

use crate::site::Place;
use crate::types::Mismatch;
use crate::words::{NamedType, Spot, fill_part, part_of, push_type};
use sc_class::ClassId;
use sc_explain_text::Lines;
use sc_rules::entity_types::{EntityType, Tag};
use sc_rules::{Context, Role};
use sc_text::Span;
use sc_tree::Declaration;
use sc_typing::Formals;

/// What helps where an invariant asks for more than it may.
pub const OWN_ATTRIBUTES: &str =
    "help: an invariant is a formula over attributes of its own object\n";

/// What is between a type and another to which it doesn't conform.
#[derive(Clone, Copy)]
pub enum Between {
    /// It is that of Void, and the other is attached.
    Void,
    /// It is detachable, and the other is attached.
    Mark,
    /// It is of another handler.
    Tag,
    /// More than one of these, or something else.
    More,
}

/// A class, and the first procedure that it lists under `create`, if it does so.
#[derive(Clone, Copy)]
pub struct Maker<'s> {
    pub class: ClassId,
    pub name: &'s str,
    pub first: Option<&'s str>,
}

impl<'s> Spot<'s> {
    /// Adds that the part is of this type, and the words after that.
    pub fn push_given(self, lines: &mut Lines, given: NamedType<'s>, behind: &str) {
        self.say(lines, "`~` is of type ");
        push_type(lines, given, behind)
    }

    /// Adds what is wrong with a head of this type of a separate block, and what helps.
    pub fn push_head(self, lines: &mut Lines, given: NamedType<'s>) {
        let wanted = ", and a separate block takes an attached reference\n";
        self.push_given(lines, given, wanted);
        if !given.entity_type.attached {
            self.push_question(lines, given, true)
        }
    }

    /// Adds how many actuals these formals take, and how many are given, if that differs, and what helps.
    pub fn push_arity(self, lines: &mut Lines, formals: Formals<'_>, given: usize) {
        let taken = match formals {
            Formals::Declared(formals) => formals.len(),
            Formals::Printed => 1,
        };
        if taken == given {
            return;
        }
        let template = match taken {
            0 => "no actuals",
            1 => "1 actual",
            _ => "~ actuals",
        };
        self.say(lines, "`~` takes ");
        lines.fill_number(template, taken as u64);
        let template = match given {
            0 => ", and is given none\n",
            _ => ", and is given ~\n",
        };
        lines.fill_number(template, given as u64);
        match (formals, taken) {
            (Formals::Printed, _) => {}
            (Formals::Declared(_), 0) => {
                lines.fill_name("help: it stands without parentheses: `~`\n", self.name)
            }
            (Formals::Declared(formals), _) => {
                let declared = declared_part(self.text, formals);
                if !declared.is_empty() {
                    lines.fill("help: it is declared so: `~ (~)`\n", &[self.name, declared])
                }
            }
        }
    }

    /// Adds that the part is of this type, and BOOLEAN is wanted, and what makes it one.
    pub fn push_no_boolean(self, lines: &mut Lines, given: NamedType<'s>) {
        self.push_given(lines, given, ", and BOOLEAN is wanted here\n");
        let template = match given.entity_type.class {
            ClassId::Integer => "help: compare it: `~ /= 0`\n",
            _ if !given.entity_type.attached => "help: compare it: `~ /= Void`\n",
            _ => return,
        };
        lines.fill_name(template, self.shown())
    }

    /// Adds that a local of this type would take what is assigned.
    pub fn push_local(self, lines: &mut Lines, given: NamedType<'s>) {
        lines.fill_name(
            "help: declare it, as `local ~` or as an attribute, of type ",
            self.name,
        );
        push_type(lines, given, "\n")
    }

    /// Adds that what is assigned isn't assignable, by what it means, and what helps.
    pub fn push_fixed(self, lines: &mut Lines, role: Option<Role>) {
        let said = match role {
            Some(Role::Formal) => "`~` is a formal, and nothing is assigned to one\n",
            Some(_) => "`~` names an object here, and nothing is assigned to it\n",
            None => {
                "`~` is a routine, and nothing is assigned to one\n\
                 help: `Result` is what a function gives, and an attribute or a local keeps a value\n"
            }
        };
        self.say(lines, said);
        if role.is_some() {
            let local = self.fresh.first;
            lines.fill(
                "help: use a local: declare `~` under `local`, and begin with `~ := ~`\n",
                &[local, local, self.name],
            )
        }
    }

    /// Adds which types don't fit, with this text on what would be taken, and what helps by what alone is between them.
    pub fn push_unfit(
        self,
        lines: &mut Lines,
        mismatch: Mismatch,
        given: NamedType<'s>,
        taken: NamedType<'s>,
        between: Between,
        taking: &str,
    ) {
        let taker = part_of(self.text, mismatch.taker);
        self.push_given(lines, given, "");
        fill_part(lines, taking, taker);
        push_type(lines, taken, "\n");
        match (between, mismatch.missing) {
            (Between::More, _) => {}
            (Between::Void, _) => lines.fill_name(
                "help: Void is taken where `~` is declared `detachable`\n",
                taker,
            ),
            (Between::Mark, _) => self.push_question(lines, given, true),
            (Between::Tag, Some(missing)) => lines.fill(
                "help: there is no actual for `~`, on whose handler `~` lies\n",
                &[part_of(self.text, missing), taker],
            ),
            (Between::Tag, None) => push_wider(lines, taken, taker),
        }
    }

    /// Adds what is wrong with a target of this type, and what helps.
    pub fn push_target(self, lines: &mut Lines, given: NamedType<'s>) {
        if given.entity_type.attached {
            self.say(lines, "`~` may lie on a handler that isn't reserved\n");
            self.push_reservation(lines, given)
        } else {
            self.say(lines, "`~` may be Void\n");
            let is_reserved = matches!(given.entity_type.tag, Tag::Own | Tag::With(_));
            self.push_question(lines, given, is_reserved)
        }
    }

    /// Adds how it is asked whether the part at fault is Void, which is of this type, where that is enough, and else how it is
    /// reserved too.
    pub fn push_question(self, lines: &mut Lines, given: NamedType<'s>, is_enough: bool) {
        let is_own = matches!(given.entity_type.tag, Tag::Own);
        let template = match (self.context, self.place) {
            (Context::Invariant, _) => OWN_ATTRIBUTES,
            (Context::Body | Context::Check, Place::Until) if is_own => {
                "help: let a function ask: `if attached ~ as ~ then Result := .. end`\n"
            }
            (Context::Body | Context::Check, Place::Condition) if is_enough => {
                "help: ask first: `attached ~ as ~ and then ..`\n"
            }
            (Context::Body | Context::Check, _) if is_enough => {
                "help: ask first: `if attached ~ as ~ then .. end`\n"
            }
            (Context::Body | Context::Check, _) => {
                "help: ask first, and reserve it: `if attached ~ as ~ then separate ~ as ~ do .. end end`\n"
            }
            _ if is_own => {
                "help: let a function of the class ask: `if attached ~ as ~ then Result := .. end`\n"
            }
            _ => return self.push_formal(lines, given),
        };
        let name = self.fresh.first;
        lines.fill(template, &[self.shown(), name, name, self.fresh.second])
    }

    /// Adds how the handler of the part at fault is reserved, where that is of this type.
    fn push_reservation(self, lines: &mut Lines, given: NamedType<'s>) {
        match self.context {
            Context::Body | Context::Check => {}
            Context::Invariant => return lines.push(OWN_ATTRIBUTES),
            _ => return self.push_formal(lines, given),
        }
        let name = self.fresh.first;
        match self.place {
            Place::Until => lines.fill(
                "help: let a function reserve it each time: `f (~: separate ~): BOOLEAN do Result := .. end`\n",
                &[name, given.class],
            ),
            Place::Condition => lines.fill(
                "help: reserve it, and ask inside: `separate ~ as ~ do .. end`\n",
                &[self.shown(), name],
            ),
            Place::Instruction => lines.fill(
                "help: reserve it: `separate ~ as ~ do .. end`\n",
                &[self.shown(), name],
            ),
        }
    }

    /// Adds that a contract calls what is reserved for a formal.
    fn push_formal(self, lines: &mut Lines, given: NamedType<'s>) {
        if self.shown().eq_ignore_ascii_case("result") {
            return lines.push(
                "help: leave the clause out: in a contract the handlers of formals alone are reserved\n",
            );
        }
        lines.fill_name(
            "help: take it as an attached formal, which is reserved: `~` of type ",
            self.fresh.first,
        );
        let attached = EntityType {
            attached: true,
            ..given.entity_type
        };
        push_type(
            lines,
            NamedType {
                entity_type: attached,
                ..given
            },
            "\n",
        )
    }

    /// Adds that no object of this class is made without a procedure, and how one is made.
    pub fn push_unmade(self, lines: &mut Lines, maker: Maker<'s>) {
        let said = match maker.class {
            ClassId::Declared(_) => "the class `~` has a `create` list\n",
            _ => "the class `~` is no class of which objects are created\n",
        };
        lines.fill_name(said, maker.name);
        match maker.first {
            None => lines.fill_name(help_of_making(maker.class), self.name),
            Some(first) => lines.fill(
                "help: name a procedure that it lists: `create ~.~`\n",
                &[self.name, first],
            ),
        }
    }

    /// Adds that no object of this class is made by what is named, and how one is made.
    pub fn push_unlisted(self, lines: &mut Lines, maker: Maker<'s>) {
        self.say(lines, "`~` isn't in the `create` list of the class ");
        lines.fill_name("`~`\n", maker.name);
        match maker.first {
            None => lines.fill_name(help_of_making(maker.class), self.name),
            Some(first) => lines.fill(
                "help: it lists `~`, and takes `~` once that is listed too\n",
                &[first, self.name],
            ),
        }
    }
}

/// The text of these formals, if it can be shown; else nothing.
fn declared_part<'s>(text: &'s str, formals: &[Declaration]) -> &'s str {
    match (formals.first(), formals.last()) {
        (Some(first), Some(last)) => part_of(
            text,
            Span {
                start: first.name.span.start,
                end: last.declared_type.span.end,
            },
        ),
        _ => "",
    }
}

/// Adds how an entity of this type is declared to take objects of other handlers.
fn push_wider(lines: &mut Lines, taken: NamedType<'_>, taker: &str) {
    let template = "help: objects of other handlers are taken where `~` is declared ";
    lines.fill_name(template, taker);
    let wider = EntityType {
        tag: Tag::Any,
        ..taken.entity_type
    };
    push_type(
        lines,
        NamedType {
            entity_type: wider,
            ..taken
        },
        "\n",
    )
}

/// How an object is made of a class that lists no procedure under `create`.
fn help_of_making(class: ClassId) -> &'static str {
    match class {
        ClassId::Declared(_) => {
            "help: `create` takes the variable alone, or the class lists it: `create ~`\n"
        }
        ClassId::Integer => "help: an INTEGER begins as 0, and is assigned\n",
        ClassId::Boolean => "help: a BOOLEAN begins as False, and is assigned\n",
        _ => "help: make an object of a class of your own, and assign it\n",
    }
}
