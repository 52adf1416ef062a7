//! A place of a routine, in words.

use crate::places::written;
use sc_code::{Assertion, SiteKind};
use sc_explain_text::{Lines, binary_spelling};
use sc_model::Cause;
use sc_source::source::Source;
use sc_text::Span;
use sc_tree::UnaryOperator;

/// Adds what is at a place of this kind of a routine whose handler failed there with this cause.
pub fn push_site(lines: &mut Lines, source: &Source, kind: SiteKind, cause: Cause) {
    lines.fill_name(of_kind(kind, cause), name_at(source, kind))
}

/// The name or the operator at a place of this kind, if it has one.
fn name_at(source: &Source, kind: SiteKind) -> &str {
    match kind {
        SiteKind::Name(name) | SiteKind::Call(name) => written(source, name.span()),
        SiteKind::Unary(operator) => unary_spelling(operator),
        SiteKind::Binary(operator) => binary_spelling(operator),
        _ => "",
    }
}

/// Adds the clause of this tag, or of none.
pub fn push_clause(lines: &mut Lines, source: &Source, tag: Option<Span>) {
    match tag {
        None => lines.push("a clause"),
        Some(tag) => lines.fill_name("the clause `~`", written(source, tag)),
    }
}

/// That a clause is false, with `~` for its class, unless that is reported anyway.
pub fn false_clause(assertion: Assertion, is_told: bool) -> &'static str {
    match (assertion, is_told) {
        (Assertion::Check, _) => " of the `check` is false",
        (Assertion::Precondition, true) => " of the precondition is false",
        (Assertion::Precondition, false) => " of the precondition from ~ is false",
        (Assertion::Postcondition, true) => " of the postcondition is false",
        (Assertion::Postcondition, false) => " of the postcondition from ~ is false",
    }
}

/// What is at a place of this kind, with `~` for its name.
fn of_kind(kind: SiteKind, cause: Cause) -> &'static str {
    match (kind, cause) {
        (SiteKind::Name(_) | SiteKind::Call(_), Cause::UnsetEntity) => "`~` is read",
        (SiteKind::Name(_) | SiteKind::Call(_), Cause::VoidTarget) => {
            "the call of `~`, whose target is Void"
        }
        (SiteKind::Name(_) | SiteKind::Call(_), _) => "the call of `~`",
        (SiteKind::Unary(_) | SiteKind::Binary(_), _) => "the operator `~`",
        (SiteKind::End, Cause::UnsetEntity) => "Result is Void at the end",
        (SiteKind::End, _) => "at the end",
        (SiteKind::Result, _) => "Result is read",
        (SiteKind::ObjectTest, _) => "the object test",
        (SiteKind::Old | SiteKind::Keep, _) => "the value of before",
        (SiteKind::Local, _) => "the local",
        (SiteKind::Assignment, _) => "the assignment",
        (SiteKind::Creation | SiteKind::Created, _) => "the creation",
        (SiteKind::Print, _) => "`print`",
        (SiteKind::Condition | SiteKind::Jump, _) => "the condition",
        (SiteKind::Until, _) => "the `until`",
        (SiteKind::Block, _) => "the separate block",
        (SiteKind::BlockEnd, _) => "the end of the separate block",
        (SiteKind::Start, _) => "the beginning",
        _ => "this value",
    }
}

fn unary_spelling(operator: UnaryOperator) -> &'static str {
    match operator {
        UnaryOperator::Not => "not",
        UnaryOperator::Old => "old",
        UnaryOperator::Plus => "+",
        UnaryOperator::Minus => "-",
    }
}
