//! The types that a rule compares at a part of the text.

ghost use Rattle.std.specs.Prelude.{◌≡◌, false, IfSome};
ghost use Rattle.sc_rules.specs.Positions.{is_condition};
ghost use Rattle.sc_class.specs.SystemIn.{system_in};
ghost use Rattle.sc_explain_refusal.specs.Mismatch.{IsMismatch};

use crate::walk::Walk;
use sc_class::{ClassId, Tables};
use sc_explain_text::Lines;
use sc_rules::entity_types::{EntityType, Known, Reserved, Tag, combine_argument, conforms};
use sc_rules::{Context, Fault, Position};
use sc_text::Span;
use sc_tree::{Declaration, Expr, Variable};
use sc_typing::{
    Assignee, CheckFault, JudgedActual, Typing, declared_type, judged_type, variable_span,
};
use std::alloc::{AllocError, Global};

/// What is given, and what would be taken.
#[derive(Clone, Copy)]
pub struct Compared {
    pub given: EntityType,
    pub taken: EntityType,
}

/// Types that don't fit, and the name of what takes the one and is given the other.
#[derive(Clone, Copy)]
pub struct Mismatch {
    pub types: Compared,
    pub taker: Span,
    /// The place of the name of the formal that the tag of the taker names, if there is no actual for that one.
    pub missing: Option<Span>,
}

/// The types, where the one doesn't conform to the other.
fn compare(tables: &Tables, given: EntityType, taken: EntityType) -> Option<Compared>
    ensures { IfSome result (IsMismatch (system_in tables.now)) }
{
    let is_taken = conforms(tables, given, taken);
    if is_taken {
        return None;
    }
    Some(Compared { given, taken })
}

/// The type that a formal of this declared type takes among these actuals, after a target of this type. The lines are
/// incomplete if memory runs out.
fn type_taken(
    alloc: Global,
    lines: &mut Lines,
    found: &[JudgedActual],
    target: EntityType,
    declared: EntityType,
) -> EntityType {
    let mut known = Vec::new(alloc);
    for actual in found {
        let handler = match judged_type(actual.judged) {
            Some(actual) => Known::of(actual.tag),
            None => Known::Neither,
        };
        if known.push(handler).is_err() {
            lines.lack();
        }
    }
    combine_argument(target, declared, &known)
}

/// The place of the name of the formal that the tag of this type names, if it is none of the first `actuals` ones.
fn missing_formal(formals: &[Declaration], declared: EntityType, actuals: usize) -> Option<Span> {
    if let Tag::With(Reserved::Formal(number)) = declared.tag
        && number >= actuals
        && let Some(formal) = formals.get(number)
    {
        Some(formal.name.span)
    } else {
        None
    }
}

/// The type of what was judged, if it has one. The lines lack something where memory ran out.
pub fn type_found(lines: &mut Lines, judged: Result<Typing, CheckFault>) -> Option<EntityType> {
    match type_judged(judged) {
        Ok(Ok(found)) => found,
        Ok(Err(_)) => None,
        Err(_) => {
            lines.lack();
            None
        }
    }
}

/// The type of what was judged, or the rule that fails there. Faults of a check go here alone: each function in which one goes
/// proves once more that it may.
pub fn type_judged(
    judged: Result<Typing, CheckFault>,
) -> Result<Result<Option<EntityType>, Fault>, AllocError> {
    match judged {
        Ok(typing) => Ok(Ok(typing.entity_type)),
        Err(CheckFault::Refused(fault)) => Ok(Err(fault)),
        Err(CheckFault::OutOfMemory) => Err(AllocError),
    }
}

/// The type of the actual at a number, if it has one.
pub fn type_of_actual(found: &[JudgedActual], number: usize) -> Option<EntityType> {
    match found.get(number) {
        None => None,
        Some(actual) => judged_type(actual.judged),
    }
}

impl<'s> Walk<'s> {
    /// The types of the right side of an assignment and of its left side, if they don't conform.
    pub(crate) fn assigned_types(
        &self,
        lines: &mut Lines,
        variable: &Variable,
        value: &Expr,
    ) -> Option<Mismatch>
        ensures { IfSome result (λ it. IsMismatch (system_in self.now.routine.tables.now) it.types) }
    {
        if let Some(taken) = self.type_of_variable(variable)
            && let Some(given) = self.type_of(lines, Context::Body, Position::Source, value)
            && let Some(types) = compare(self.routine.tables, given, taken)
        {
            Some(Mismatch {
                types,
                taker: variable_span(variable),
                missing: None,
            })
        } else {
            None
        }
    }

    /// The types of the head of a separate block and of what a block takes, if they don't conform.
    pub(crate) fn head_types(&self, lines: &mut Lines, value: &Expr) -> Option<Compared>
        ensures { IfSome result (IsMismatch (system_in self.now.routine.tables.now)) }
    {
        let taken = EntityType {
            attached: true,
            tag: Tag::Any,
            class: ClassId::Any,
        };
        match self.type_of(lines, Context::Body, Position::Plain, value) {
            None => None,
            Some(given) => compare(self.routine.tables, given, taken),
        }
    }

    /// The types of an actual that has this type and this number and of its formal, if they don't conform.
    pub(crate) fn passed_types(
        &self,
        lines: &mut Lines,
        found: &[JudgedActual],
        target: EntityType,
        formals: &[Declaration],
        number: usize,
        given: EntityType,
    ) -> Option<Mismatch>
        ensures { IfSome result (λ it. IsMismatch (system_in self.now.routine.tables.now) it.types) }
    {
        let tables = self.routine.tables;
        let Some(formal) = formals.get(number) else {
            return None;
        };
        let Some(declared) = declared_type(tables, formals, &formal.declared_type) else {
            return None;
        };
        let taken = type_taken(self.routine.alloc, lines, found, target, declared);
        match compare(tables, given, taken) {
            None => None,
            Some(types) => Some(Mismatch {
                types,
                taker: formal.name.span,
                missing: missing_formal(formals, declared, found.len()),
            }),
        }
    }

    /// The type of an expression at this position, which is no condition's, if it has one.
    pub(crate) fn type_of(
        &self,
        lines: &mut Lines,
        context: Context,
        position: Position,
        e: &Expr,
    ) -> Option<EntityType>
        requires { is_condition position ≡ false }
    {
        type_found(
            lines,
            self.routine.expression(context, position, &self.names, e),
        )
    }

    /// The type of an entity that is assigned or created, if it has one.
    pub(crate) fn type_of_variable(&self, variable: &Variable) -> Option<EntityType> {
        match self.routine.assignee(&self.names, variable) {
            Assignee::Local(found) | Assignee::Attribute(found) => found,
            Assignee::Unknown | Assignee::NotAssignable => None,
        }
    }
}
