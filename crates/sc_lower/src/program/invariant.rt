//! Class invariants as formulas.

ghost use Rattle.std.specs.Prelude.{◌≡◌, ◌≤◌, ◌<◌, Some, length, map, IfOk, IfSome};
ghost use Rattle.std.specs.Option.{option_map};
ghost use Rattle.sc_formula.specs.Plain.{plain_term, plain_formula};
ghost use Rattle.sc_tree.specs.View.{expr_of};
ghost use Rattle.sc_model.specs.Invariants as m;
ghost use Rattle.sc_model.specs.Values.{default_of};
ghost use Rattle.sc_routines.specs.Parts.{call_in};
ghost use Rattle.sc_lower.specs.AttributeBindings.{binding_of};
ghost use Rattle.sc_lower.specs.Formulas as over;
ghost use Rattle.sc_code.specs.Attributes.{known_formulas};

use crate::program::attributes::{Attribute, find};
use crate::program::operators;
use sc_class::ClassId;
use sc_formula::{ArithmeticOperator, Comparison, Connective, Formula, Term};
use sc_tree::{BinaryOperator, Call, Clause, Expr, UnaryOperator};
use std::alloc::{AllocError, Global};

/// The clauses as formulas over these attributes, or None if one is no formula.
#[tactic(auto, using(crate::proofs::Views::expr_views, sc_formula::proofs::Plain::plain_trees))]
pub fn clauses(
    alloc: Global,
    attributes: &[Attribute<'_>],
    clauses: &[Clause],
) -> Result<Option<Vec<Formula>>, AllocError>
    requires { length attributes.now ≤ 256 }
    ensures { IfOk result (λ formulas. option_map (λ formulas. map plain_formula formulas.items) formulas ≡ over.clauses_over attributes.now clauses.now) }
{
    let mut formulas = Vec::with_capacity(alloc, clauses.len())?;
    for clause in clauses {
        let Some(formula) = formula(alloc, attributes, &clause.condition)? else {
            return Ok(None);
        };
        formulas.push(formula)?;
    }
    Ok(Some(formulas))
}

/// The expression as a formula over these attributes, or None if it is none. It recurses as deep as the expression.
#[tactic(auto, using(crate::proofs::Views::expr_views, sc_formula::proofs::Plain::plain_trees))]
fn formula(
    alloc: Global,
    attributes: &[Attribute<'_>],
    expression: &Expr,
) -> Result<Option<Formula>, AllocError>
    requires { length attributes.now ≤ 256 }
    ensures { IfOk result (λ formula. option_map plain_formula formula ≡ m.formula_of (map binding_of attributes.now) (expr_of expression.now)) }
{
    match expression {
        Expr::Boolean(_, truth) => Ok(Some(Formula::Constant(*truth))),
        Expr::Call(call) => Ok(call_formula(attributes, call)),
        Expr::Unary(_, operator, operand) => {
            let operand = formula(alloc, attributes, operand)?;
            unary_formula(alloc, *operator, operand)
        }
        Expr::Binary(_, operator, left, right) => {
            if let Expr::Void(_) = &**right {
                return Ok(void_formula(*operator, void_test(attributes, left)));
            }
            if let Some(compared) = comparison(alloc, attributes, *operator, left, right)? {
                return Ok(Some(compared));
            }
            let Some(connective) = operators::connective(*operator) else {
                return Ok(None);
            };
            let left = formula(alloc, attributes, left)?;
            let right = formula(alloc, attributes, right)?;
            connected(alloc, left, connective, right)
        }
        Expr::Integer(..)
        | Expr::Void(_)
        | Expr::Current(_)
        | Expr::Result(_)
        | Expr::ObjectTest(..) => Ok(None),
    }
}

/// A comparison of two terms over these attributes, or None if it is none.
#[tactic(auto, using(crate::proofs::Views::expr_views, sc_formula::proofs::Plain::plain_trees))]
fn comparison(
    alloc: Global,
    attributes: &[Attribute<'_>],
    operator: BinaryOperator,
    left: &Expr,
    right: &Expr,
) -> Result<Option<Formula>, AllocError>
    requires { length attributes.now ≤ 256 }
    ensures { IfOk result (λ formula. option_map plain_formula formula ≡ over.comparison_over attributes.now operator left.now right.now) }
{
    let Some(comparison) = operators::comparison(operator) else {
        return Ok(None);
    };
    let left = term(alloc, attributes, left)?;
    let right = term(alloc, attributes, right)?;
    Ok(compared(left, comparison, right))
}

/// A call as a formula over these attributes: the name of one that is a truth value.
#[tactic(auto, using(crate::proofs::Views::expr_views, crate::proofs::Formulas::calls, sc_formula::proofs::Plain::plain_trees))]
fn call_formula(attributes: &[Attribute<'_>], call: &Call) -> Option<Formula>
    requires { length attributes.now ≤ 256 }
    ensures { option_map plain_formula result ≡ m.formula_of (map binding_of attributes.now) (call_in call.now) }
{
    match &call.target {
        None => match call.actuals.as_slice() {
            [] => {
                let (number, class) = find(attributes, call.name.as_str())?;
                boolean_attribute(number, class)
            }
            [_, ..] => None,
        },
        Some(_) => None,
    }
}

/// The number of the attribute that is compared with Void.
#[tactic(auto, using(crate::proofs::Views::expr_views, crate::proofs::Formulas::calls))]
fn void_test(attributes: &[Attribute<'_>], expression: &Expr) -> Option<usize>
    ensures number { result ≡ m.void_test (map binding_of attributes.now) (expr_of expression.now) }
    ensures within { IfSome result (λ number. number < length attributes.now) }
{
    match expression {
        Expr::Call(call) => call_void_test(attributes, call),
        Expr::Integer(..)
        | Expr::Boolean(..)
        | Expr::Void(_)
        | Expr::Current(_)
        | Expr::Result(_)
        | Expr::Unary(..)
        | Expr::Binary(..)
        | Expr::ObjectTest(..) => None,
    }
}

/// The number of the attribute whose name the call is.
#[tactic(auto, using(crate::proofs::Views::expr_views, crate::proofs::Formulas::calls))]
fn call_void_test(attributes: &[Attribute<'_>], call: &Call) -> Option<usize>
    ensures number { result ≡ m.void_test (map binding_of attributes.now) (call_in call.now) }
    ensures within { IfSome result (λ number. number < length attributes.now) }
{
    match &call.target {
        None => match call.actuals.as_slice() {
            [] => {
                let (number, _) = find(attributes, call.name.as_str())?;
                Some(number)
            }
            [_, ..] => None,
        },
        Some(_) => None,
    }
}

/// A comparison with Void of the attribute of the number.
#[tactic(auto, using(sc_formula::proofs::Plain::plain_trees))]
fn void_formula(operator: BinaryOperator, number: Option<usize>) -> Option<Formula>
    requires { IfSome number (λ number. number < 256) }
    ensures { option_map plain_formula result ≡ m.void_formula operator number }
{
    let number = number?;
    match operator {
        BinaryOperator::Equal => Some(Formula::IsVoid(number as u8)),
        BinaryOperator::NotEqual => Some(Formula::NotVoid(number as u8)),
        _ => None,
    }
}

/// The expression as a term over these attributes, or None if it is none. It recurses as deep as the expression.
#[tactic(auto, using(crate::proofs::Views::expr_views, sc_formula::proofs::Plain::plain_trees))]
fn term(
    alloc: Global,
    attributes: &[Attribute<'_>],
    expression: &Expr,
) -> Result<Option<Term>, AllocError>
    requires { length attributes.now ≤ 256 }
    ensures { IfOk result (λ term. option_map plain_term term ≡ m.term_of (map binding_of attributes.now) (expr_of expression.now)) }
{
    match expression {
        Expr::Integer(_, number) => Ok(Some(Term::Integer(*number))),
        Expr::Call(call) => Ok(call_term(attributes, call)),
        Expr::Unary(_, operator, operand) => {
            let operand = term(alloc, attributes, operand)?;
            unary_term(alloc, *operator, operand)
        }
        Expr::Binary(_, operator, left, right) => {
            let Some(operator) = operators::arithmetic(*operator) else {
                return Ok(None);
            };
            let left = term(alloc, attributes, left)?;
            let right = term(alloc, attributes, right)?;
            calculated(alloc, left, operator, right)
        }
        Expr::Boolean(..)
        | Expr::Void(_)
        | Expr::Current(_)
        | Expr::Result(_)
        | Expr::ObjectTest(..) => Ok(None),
    }
}

/// A call as a term over these attributes: the name of one that is an integer.
#[tactic(auto, using(crate::proofs::Views::expr_views, crate::proofs::Formulas::calls, sc_formula::proofs::Plain::plain_trees))]
fn call_term(attributes: &[Attribute<'_>], call: &Call) -> Option<Term>
    requires { length attributes.now ≤ 256 }
    ensures { option_map plain_term result ≡ m.term_of (map binding_of attributes.now) (call_in call.now) }
{
    match &call.target {
        None => match call.actuals.as_slice() {
            [] => {
                let (number, class) = find(attributes, call.name.as_str())?;
                integer_attribute(number, class)
            }
            [_, ..] => None,
        },
        Some(_) => None,
    }
}

/// The attribute of the number as a formula, if it is a truth value.
#[tactic(auto, using(crate::proofs::Views::expr_views, sc_formula::proofs::Plain::plain_trees))]
fn boolean_attribute(number: usize, class: ClassId) -> Option<Formula>
    requires { number < 256 }
    ensures { option_map plain_formula result ≡ m.boolean_numbered number (default_of class) }
{
    match class {
        ClassId::Boolean => Some(Formula::Attribute(number as u8)),
        ClassId::Any | ClassId::None | ClassId::Integer | ClassId::Declared(_) => None,
    }
}

/// The attribute of the number as a term, if it is an integer.
#[tactic(auto, using(crate::proofs::Views::expr_views, sc_formula::proofs::Plain::plain_trees))]
fn integer_attribute(number: usize, class: ClassId) -> Option<Term>
    requires { number < 256 }
    ensures { option_map plain_term result ≡ m.integer_numbered number (default_of class) }
{
    match class {
        ClassId::Integer => Some(Term::Attribute(number as u8)),
        ClassId::Any | ClassId::None | ClassId::Boolean | ClassId::Declared(_) => None,
    }
}

#[tactic(auto, using(crate::proofs::Views::expr_views, sc_formula::proofs::Plain::plain_trees))]
fn unary_formula(
    alloc: Global,
    operator: UnaryOperator,
    operand: Option<Formula>,
) -> Result<Option<Formula>, AllocError>
    ensures { IfOk result (λ formula. option_map plain_formula formula ≡ m.unary_formula operator (option_map plain_formula operand)) }
{
    match (operator, operand) {
        (UnaryOperator::Not, Some(operand)) => Ok(Some(Formula::not(alloc, operand)?)),
        _ => Ok(None),
    }
}

#[tactic(auto, using(crate::proofs::Views::expr_views, sc_formula::proofs::Plain::plain_trees))]
fn unary_term(
    alloc: Global,
    operator: UnaryOperator,
    operand: Option<Term>,
) -> Result<Option<Term>, AllocError>
    ensures { IfOk result (λ term. option_map plain_term term ≡ m.unary_term operator (option_map plain_term operand)) }
{
    match (operator, operand) {
        (UnaryOperator::Plus, Some(operand)) => Ok(Some(Term::identity(alloc, operand)?)),
        (UnaryOperator::Minus, Some(operand)) => Ok(Some(Term::opposite(alloc, operand)?)),
        _ => Ok(None),
    }
}

#[tactic(auto, using(crate::proofs::Views::expr_views, sc_formula::proofs::Plain::plain_trees))]
fn compared(left: Option<Term>, comparison: Comparison, right: Option<Term>) -> Option<Formula>
    ensures { option_map plain_formula result ≡ m.comparison_formula (Some comparison) (option_map plain_term left) (option_map plain_term right) }
{
    match (left, right) {
        (Some(left), Some(right)) => Some(Formula::Compared(left, comparison, right)),
        _ => None,
    }
}

#[tactic(auto, using(crate::proofs::Views::expr_views, sc_formula::proofs::Plain::plain_trees))]
fn connected(
    alloc: Global,
    left: Option<Formula>,
    connective: Connective,
    right: Option<Formula>,
) -> Result<Option<Formula>, AllocError>
    ensures { IfOk result (λ formula. option_map plain_formula formula ≡ over.connected connective left right) }
{
    match (left, right) {
        (Some(left), Some(right)) => Ok(Some(Formula::connected(alloc, left, connective, right)?)),
        _ => Ok(None),
    }
}

#[tactic(auto, using(crate::proofs::Views::expr_views, sc_formula::proofs::Plain::plain_trees))]
fn calculated(
    alloc: Global,
    left: Option<Term>,
    operator: ArithmeticOperator,
    right: Option<Term>,
) -> Result<Option<Term>, AllocError>
    ensures { IfOk result (λ term. option_map plain_term term ≡ m.arithmetic_term (Some operator) (option_map plain_term left) (option_map plain_term right)) }
{
    match (left, right) {
        (Some(left), Some(right)) => Ok(Some(Term::arithmetic(alloc, left, operator, right)?)),
        _ => Ok(None),
    }
}
