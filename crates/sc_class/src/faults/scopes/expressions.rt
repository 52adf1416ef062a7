//! Expressions: where the name of an object test clashes.

ghost use Rattle.std.specs.Prelude.{◌≡◌, ◌++◌, OnOk, map};
ghost use Rattle.sc_tree.specs.View.{expr_of, target_of, exprs_of, clause_of, head_of};
ghost use Rattle.sc_class.specs.Faults.Scopes.{tests_of};
ghost use Rattle.sc_class.specs.Internal.Places.{union};
ghost use Rattle.sc_class.specs.Internal.ScopeSearch as search;

use crate::faults::places::Places;
use crate::faults::scopes::features::Features;
use crate::faults::scopes::names::{declare, find_clashes};
use crate::names::NameIndex;
use sc_tree::{Clause, Expr, Head};
use std::alloc::AllocError;

/// Looks at an expression.
#[cycle(expressions)]
#[tactic(auto, unfolding(crate::specs::Internal::ScopeSearch::expr_clash, crate::specs::Internal::Places::union, sc_tree::specs::View::expr_of))]
pub fn in_expression(
    features: &Features,
    known: &NameIndex,
    e: &Expr,
    found: &mut Places,
) -> Result<(), AllocError>
    ensures { OnOk result (found.new ≡ union found.old (search.expr_clash features.now known.now (expr_of e.now))) }
{
    match e {
        Expr::Integer(_, _) | Expr::Boolean(_, _) => Ok(()),
        Expr::Void(_) | Expr::Current(_) | Expr::Result(_) => Ok(()),
        Expr::Call(call) => {
            in_target(features, known, &call.target, found)?;
            in_expressions(features, known, &call.actuals, found)
        }
        Expr::Unary(_, _, operand) => in_expression(features, known, operand, found),
        Expr::Binary(_, _, left, right) => {
            in_expression(features, known, left, found)?;
            in_expression(features, known, right, found)
        }
        Expr::ObjectTest(_, _, tested, name) => {
            in_expression(features, known, tested, found)?;
            find_clashes(features, known, name, found)
        }
    }
}

/// Looks at what is before the dot of a call.
#[cycle(expressions)]
#[tactic(auto, unfolding(crate::specs::Internal::ScopeSearch::expr_clash, crate::specs::Internal::Places::union))]
pub fn in_target(
    features: &Features,
    known: &NameIndex,
    target: &Option<Box<Expr>>,
    found: &mut Places,
) -> Result<(), AllocError>
    ensures { OnOk result (found.new
        ≡ union found.old (search.target_clash features.now known.now (target_of target.now))) }
{
    match target {
        None => Ok(()),
        Some(target) => in_expression(features, known, target, found),
    }
}

/// Looks at expressions.
#[cycle(expressions)]
pub fn in_expressions(
    features: &Features,
    known: &NameIndex,
    expressions: &[Expr],
    found: &mut Places,
) -> Result<(), AllocError>
    ensures { OnOk result (found.new
        ≡ union found.old (search.exprs_clash features.now known.now (exprs_of expressions.now))) }
{
    for expression in expressions {
        in_expression(features, known, expression, found)?;
    }
    Ok(())
}

/// Looks at clauses.
pub fn in_clauses(
    features: &Features,
    known: &NameIndex,
    clauses: &[Clause],
    found: &mut Places,
) -> Result<(), AllocError>
    ensures { OnOk result (found.new
        ≡ union found.old (search.clauses_clash features.now known.now (map clause_of clauses.now))) }
{
    for clause in clauses {
        in_expression(features, known, &clause.condition, found)?;
    }
    Ok(())
}

/// Looks at what the heads of a block reserve.
pub fn in_values(
    features: &Features,
    known: &NameIndex,
    heads: &[Head],
    found: &mut Places,
) -> Result<(), AllocError>
    ensures { OnOk result (found.new
        ≡ union found.old (search.values_clash features.now known.now (map head_of heads.now))) }
{
    for head in heads {
        in_expression(features, known, &head.value, found)?;
    }
    Ok(())
}

/// Looks at the condition of an `if`. Its object tests are in scope after it, and those of the left operand of an
/// `and then` after that operand.
#[tactic(auto, unfolding(crate::specs::Internal::ScopeSearch::condition_clash, sc_tree::specs::View::expr_of))]
pub fn in_condition<'s>(
    features: &Features,
    known: &mut NameIndex<'s>,
    e: &'s Expr,
    found: &mut Places,
) -> Result<(), AllocError>
    ensures found { OnOk result (found.new
        ≡ union found.old (search.condition_clash features.now known.old (expr_of e.now))) }
    ensures added { OnOk result (known.new ≡ known.old ++ tests_of (expr_of e.now)) }
{
    match e {
        Expr::Binary(_, operator, left, right) if operator.is_and_then() => {
            in_condition(features, known, left, found)?;
            in_condition(features, known, right, found)
        }
        Expr::ObjectTest(_, _, tested, name) => {
            in_expression(features, known, tested, found)?;
            declare(features, known, name, found)
        }
        _ => in_expression(features, known, e, found),
    }
}
