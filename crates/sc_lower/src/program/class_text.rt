//! The places of classes in the text, for what is shown to people about their objects.

use sc_class::Tables;
use sc_code::{ClassText, ClauseText};
use sc_text::Span;
use sc_tree::Clause;
use std::alloc::{AllocError, Global};

/// Where a part is that isn't there.
const NOWHERE: Span = Span { start: 0, end: 0 };

/// The place of the class at the number.
pub fn class_text(alloc: Global, tables: &Tables, class: usize) -> Result<ClassText, AllocError> {
    let (span, name, own): (Span, Span, &[Clause]) = match tables.classes().get(class) {
        Some(declared) => (declared.span, declared.name.span, &declared.invariant),
        None => (NOWHERE, NOWHERE, &[]),
    };
    let mut invariant = Vec::with_capacity(alloc, own.len())?;
    for clause in own {
        invariant.push(clause_text(clause))?;
    }
    Ok(ClassText {
        span,
        name,
        invariant,
    })
}

/// The place of a clause.
fn clause_text(clause: &Clause) -> ClauseText {
    let condition = clause.condition.span();
    let tag = match &clause.tag {
        Some(tag) => Some(tag.span),
        None => None,
    };
    ClauseText {
        span: Span {
            start: tag.unwrap_or(condition).start,
            end: condition.end,
        },
        tag,
    }
}
