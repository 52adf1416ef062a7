//! What the operations of calls and clauses were made of.

use sc_code::{Assertion, NameSpan, SiteKind, TextSite};
use sc_text::Span;
use sc_tree::{Call, Clause};

/// The site of a call's own operation. An entity may be read by a name that has no target.
pub fn call_site(call: &Call) -> TextSite {
    let name = NameSpan::of(call.name.span);
    let kind = match &call.target {
        None => SiteKind::Name(name),
        Some(_) => SiteKind::Call(name),
    };
    TextSite {
        span: call.span,
        kind,
    }
}

/// The site of the operation that tests a clause: from its tag to the end of its condition.
pub fn clause_site(assertion: Assertion, clause: &Clause) -> TextSite {
    let condition = clause.condition.span();
    match &clause.tag {
        None => TextSite {
            span: condition,
            kind: SiteKind::Clause(assertion, None),
        },
        Some(tag) => TextSite {
            span: Span {
                start: tag.span.start,
                end: condition.end,
            },
            kind: SiteKind::Clause(assertion, Some(NameSpan::of(tag.span))),
        },
    }
}
