//! The form of a class's invariant (ECMA-367, 8.9).

ghost use Rattle.std.specs.Prelude.{◌≡◌, true};
ghost use Rattle.sc_tree.specs.Plain as plain;
ghost use Rattle.sc_tree.specs.View.{expr_of, exprs_of, kind_of, name_of, tag_of, target_of};
ghost use Rattle.sc_rules.specs.SystemRules as rules;
ghost use Rattle.sc_rules.specs.JudgingSystem as judging_system;
ghost use Rattle.sc_typing.specs.Views.{entry_if_any};
ghost use Rattle.sc_class.specs.SystemIn.{system_in};
ghost use Rattle.sc_check.specs.Internal.Parts as parts;

use sc_class::{ClassId, FeatureEntry, Tables};
use sc_rules::Rule;
use sc_rules::entity_types::EntityType;
use sc_text::Span;
use sc_tree::{Call, Clause, Expr, FeatureKind};
use sc_typing::{CheckFault, declared_type, refusal, required};

/// The type of an attribute, which is none where its declaration is faulty.
#[tactic(auto, unfolding(sc_tree::specs::View::kind_of))]
fn attribute_type_of(tables: &Tables, kind: &FeatureKind) -> Option<Option<EntityType>>
    ensures { result ≡ rules.attribute_type_of (system_in tables.now) (kind_of kind.now) }
{
    match kind {
        FeatureKind::Attribute(declared) => Some(declared_type(tables, &[], declared)),
        FeatureKind::Routine(_) => None,
    }
}

/// The type of the feature that is found, if it is an attribute.
#[tactic(auto, unfolding(sc_tree::specs::View::feature_of))]
fn attribute_type_in(tables: &Tables, entry: Option<FeatureEntry>) -> Option<Option<EntityType>>
    ensures { result ≡ rules.attribute_type_in (system_in tables.now) (entry_if_any entry.entry) }
{
    match entry {
        None => None,
        Some(entry) => attribute_type_of(tables, &entry.feature.kind),
    }
}

/// The type of the class's attribute of this name, if there is one.
fn attribute_type_named(tables: &Tables, class: usize, name: &str) -> Option<Option<EntityType>>
    ensures { result ≡ rules.attribute_type_named (system_in tables.now) class name.now }
{
    attribute_type_in(tables, tables.feature(ClassId::Declared(class), name))
}

/// Whether it is INTEGER or BOOLEAN, or may be as far as is known.
fn is_value_type(attribute: Option<Option<EntityType>>) -> bool
    ensures { result ≡ rules.is_value_type true attribute }
{
    match attribute {
        None => false,
        Some(None) => true,
        Some(Some(attribute)) => attribute.is_expanded(),
    }
}

/// Whether it is a type of references, or may be as far as is known.
fn is_reference_type(attribute: Option<Option<EntityType>>) -> bool
    ensures { result ≡ rules.is_reference_type true attribute }
{
    match attribute {
        None => false,
        Some(None) => true,
        Some(Some(attribute)) => !attribute.is_expanded(),
    }
}

/// Whether it is `Void`.
#[tactic(auto, unfolding(sc_tree::specs::View::expr_of))]
fn is_void(e: &Expr) -> bool
    ensures { result ≡ parts.is_void (expr_of e.now) }
{
    matches!(e, Expr::Void(_))
}

/// Whether it is the name alone of an attribute that may be of INTEGER or BOOLEAN.
#[tactic(auto, unfolding(sc_rules::specs::SystemRules::is_formula_where))]
fn is_value_attribute(tables: &Tables, class: usize, call: &Call) -> bool
    ensures { result ≡ rules.may_be_formula (system_in tables.now) class
        (plain.Call call.now.span (target_of call.now.target) (name_of call.now.name)
        (exprs_of call.now.actuals.items)) }
{
    match &call.target {
        Some(_) => false,
        None => match call.actuals.as_slice() {
            [] => is_value_type(attribute_type_named(tables, class, call.name.as_str())),
            [_, ..] => false,
        },
    }
}

/// Whether the call is the name alone of an attribute that may be of references.
fn is_reference_call(tables: &Tables, class: usize, call: &Call) -> bool
    ensures { result ≡ rules.is_reference_attribute true (system_in tables.now) class
        (plain.Call call.now.span (target_of call.now.target) (name_of call.now.name)
        (exprs_of call.now.actuals.items)) }
{
    match &call.target {
        Some(_) => false,
        None => match call.actuals.as_slice() {
            [] => is_reference_type(attribute_type_named(tables, class, call.name.as_str())),
            [_, ..] => false,
        },
    }
}

/// Whether it is the name alone of an attribute that may be of references.
#[tactic(auto, unfolding(sc_tree::specs::View::expr_of))]
fn is_reference_attribute(tables: &Tables, class: usize, e: &Expr) -> bool
    ensures { result ≡ rules.is_reference_attribute true (system_in tables.now) class (expr_of e.now) }
{
    match e {
        Expr::Call(call) => is_reference_call(tables, class, call),
        Expr::Integer(_, _) | Expr::Boolean(_, _) => false,
        Expr::Void(_) | Expr::Current(_) | Expr::Result(_) => false,
        Expr::Unary(_, _, _) | Expr::Binary(_, _, _, _) | Expr::ObjectTest(_, _, _, _) => false,
    }
}

/// Whether it is a formula over the attributes of the class, or would be one were they declared without fault.
#[tactic(auto, unfolding(sc_rules::specs::SystemRules::is_formula_where, sc_tree::specs::View::expr_of))]
pub fn may_be_formula(tables: &Tables, class: usize, e: &Expr) -> bool
    ensures { result ≡ rules.may_be_formula (system_in tables.now) class (expr_of e.now) }
{
    match e {
        Expr::Integer(_, _) | Expr::Boolean(_, _) => true,
        Expr::Call(call) => is_value_attribute(tables, class, call),
        Expr::Unary(_, operator, operand) => {
            !operator.is_old() && may_be_formula(tables, class, operand)
        }
        Expr::Binary(_, operator, left, right) => {
            if is_void(right) {
                operator.is_equality() && is_reference_attribute(tables, class, left)
            } else {
                may_be_formula(tables, class, left) && may_be_formula(tables, class, right)
            }
        }
        Expr::Void(_) | Expr::Current(_) | Expr::Result(_) => false,
        Expr::ObjectTest(_, _, _, _) => false,
    }
}

/// The place of a clause: from its tag, if it has one, to the end of its condition.
pub fn clause_span(clause: &Clause) -> Span
    ensures { result ≡ rules.clause_span (tag_of clause.now.tag) (expr_of clause.now.condition) }
{
    match &clause.tag {
        None => clause.condition.span(),
        Some(tag) => Span {
            start: tag.span.start,
            end: clause.condition.span().end,
        },
    }
}

/// Whether the rule comes after the one on the form of an invariant's clause.
fn is_late(rule: Rule) -> bool
    ensures { result ≡ judging_system.is_late rule }
{
    match rule {
        Rule::ImpureContract | Rule::PreconditionArgument | Rule::NotExported => true,
        Rule::ObjectTestPlace | Rule::OldPlace | Rule::VoidUse => true,
        _ => false,
    }
}

/// Whether two places are equal.
pub fn is_same_span(one: Span, other: Span) -> bool
    ensures { result ≡ judging_system.is_same_span one other }
{
    one.start == other.start && one.end == other.end
}

/// Judges the form of a clause, after its expression, but before a later rule that fails at the same place.
pub fn judge_form(
    is_formula: bool,
    span: Span,
    judged: Result<(), CheckFault>,
) -> Result<(), CheckFault>
    ensures { parts.JudgesForm is_formula span judged result }
{
    match judged {
        Ok(()) => required(is_formula, Rule::InvariantForm, span),
        Err(CheckFault::OutOfMemory) => Err(CheckFault::OutOfMemory),
        Err(CheckFault::Refused(fault)) => {
            if !is_formula && (is_same_span(fault.span, span) && is_late(fault.rule)) {
                Err(refusal(Rule::InvariantForm, span))
            } else {
                Err(CheckFault::Refused(fault))
            }
        }
    }
}
