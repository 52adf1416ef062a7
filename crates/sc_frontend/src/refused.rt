//! For which reason a text is refused, and where.

ghost use Rattle.std.specs.Prelude.{◌≡◌};
ghost use Rattle.sc_frontend.specs.Refusals as spec;

use crate::rejection::Rejection;
use sc_class::ClassFault;
use sc_parse::ParseFault;
use sc_rules::{Fault, RefusalCode};
use sc_text::{LexFault, Span};

/// Why a text is refused: the reason, which has a code and a name, and the part of the text at fault, if there is one.
#[derive(Clone, Copy)]
pub struct Refused {
    pub code: RefusalCode,
    pub span: Option<Span>,
}

impl Refused {
    /// Why a text is refused that is rejected so, if that has a code. A program that would be too long has none, and
    /// running out of memory is no refusal.
    pub fn by(rejection: &Rejection) -> Option<Refused>
        ensures { result ≡ spec.refused_by rejection.now }
    {
        match rejection {
            Rejection::Text(fault) => by_characters(fault),
            Rejection::Grammar(fault) => by_tokens(*fault),
            Rejection::Classes(fault) => by_classes(*fault),
            Rejection::Rules(fault) => Some(by_rule(*fault)),
            Rejection::CodeTooLong | Rejection::OutOfMemory => None,
        }
    }
}

/// Why a text is refused that spells no tokens.
fn by_characters(fault: &LexFault) -> Option<Refused>
    ensures { result ≡ spec.by_characters fault.now }
{
    match fault {
        LexFault::BadCharacter { span } => refused_at(RefusalCode::BadCharacter, *span),
        LexFault::UnclosedString { span } => refused_at(RefusalCode::UnclosedString, *span),
        LexFault::BadEscape { span } => refused_at(RefusalCode::BadEscape, *span),
        LexFault::IntegerTooLarge { span } => refused_at(RefusalCode::IntegerTooLarge, *span),
        LexFault::SourceTooLong => refused_anywhere(RefusalCode::SourceTooLong),
        LexFault::OutOfMemory => None,
    }
}

/// Why a text is refused whose tokens spell no system.
fn by_tokens(fault: ParseFault) -> Option<Refused>
    ensures { result ≡ spec.by_tokens fault }
{
    match fault {
        ParseFault::NotInGrammar { span } => refused_at(RefusalCode::NotInGrammar, span),
        ParseFault::TooDeep { span } => refused_at(RefusalCode::TooDeep, span),
        ParseFault::OutOfMemory => None,
    }
}

/// Why a text is refused that has this class fault.
pub(crate) fn by_classes(fault: ClassFault) -> Option<Refused>
    ensures { result ≡ spec.by_classes fault }
{
    match fault {
        ClassFault::DuplicateClass { span } => refused_at(RefusalCode::DuplicateClass, span),
        ClassFault::UnknownParent { span } => refused_at(RefusalCode::UnknownParent, span),
        ClassFault::Cycle { span } => refused_at(RefusalCode::Cycle, span),
        ClassFault::DuplicateFeature { span } => refused_at(RefusalCode::DuplicateFeature, span),
        ClassFault::BadRedefinition { span } => refused_at(RefusalCode::BadRedefinition, span),
        ClassFault::NoRoot => refused_anywhere(RefusalCode::NoRoot),
        ClassFault::Limit => refused_anywhere(RefusalCode::Limit),
        ClassFault::LeftOut { what: _, span } => refused_at(RefusalCode::LeftOut, span),
        ClassFault::OutOfMemory => None,
    }
}

/// Why a text is refused in which a rule fails.
pub(crate) fn by_rule(fault: Fault) -> Refused
    ensures { result ≡ spec.by_rule fault }
{
    Refused {
        code: RefusalCode::Rule(fault.rule),
        span: Some(fault.span),
    }
}

/// The refusal of a part of the text.
fn refused_at(code: RefusalCode, span: Span) -> Option<Refused>
    ensures { result ≡ spec.refused_at code span }
{
    Some(Refused {
        code,
        span: Some(span),
    })
}

/// The refusal of the whole text.
fn refused_anywhere(code: RefusalCode) -> Option<Refused>
    ensures { result ≡ spec.refused_anywhere code }
{
    Some(Refused { code, span: None })
}
