//! The operands of `old` in an expression.

ghost use Rattle.std.specs.Prelude.{◌≡◌, ◌++◌, IfOk, OnOk, length};
ghost use Rattle.sc_tree.specs.View.{expr_of, exprs_of};
ghost use Rattle.sc_model.specs.Olds.{olds_of, olds_of_each};
ghost use Rattle.sc_routines.specs.Parts.{call_in};
ghost use Rattle.sc_routines.specs.Settings.{operands_of};

use sc_text::Span;
use sc_tree::{Call, Expr, UnaryOperator};
use std::alloc::{AllocError, Global};

/// An `old` of a postcondition.
#[derive(Clone, Copy)]
pub struct OldValue<'s> {
    /// Its place, from the word `old` on.
    pub span: Span,
    /// What it is applied to.
    pub operand: &'s Expr,
}

/// Adds the operands of `old` in the expression, in the order of the text.
#[cycle(olds)]
#[tactic(auto, unfolding(sc_tree::specs::View::expr_of))]
pub fn add_olds<'s>(olds: &mut Vec<OldValue<'s>>, e: &'s Expr) -> Result<(), AllocError>
    ensures { OnOk result (operands_of olds.new.items ≡ operands_of olds.old.items ++ olds_of (expr_of e.now)) }
{
    match e {
        Expr::Integer(_, _) | Expr::Boolean(_, _) => Ok(()),
        Expr::Void(_) | Expr::Current(_) | Expr::Result(_) => Ok(()),
        Expr::Call(call) => add_olds_of_call(olds, call),
        Expr::Unary(span, operator, operand) => match operator {
            UnaryOperator::Old => {
                let span = *span;
                olds.push(OldValue { span, operand })?;
                Ok(())
            }
            UnaryOperator::Not | UnaryOperator::Plus | UnaryOperator::Minus => {
                add_olds(olds, operand)
            }
        },
        Expr::Binary(_, _, left, right) => {
            add_olds(olds, left)?;
            add_olds(olds, right)
        }
        Expr::ObjectTest(_, _, tested, _) => add_olds(olds, tested),
    }
}

/// Adds those in a call's target and in its actuals.
#[cycle(olds)]
#[tactic(auto, unfolding(sc_tree::specs::View::expr_of))]
fn add_olds_of_call<'s>(olds: &mut Vec<OldValue<'s>>, call: &'s Call) -> Result<(), AllocError>
    ensures { OnOk result (operands_of olds.new.items ≡ operands_of olds.old.items ++ olds_of (call_in call.now)) }
{
    if let Some(target) = &call.target {
        add_olds(olds, target)?;
    }
    add_olds_of_each(olds, &call.actuals)
}

/// Adds those in each of the expressions.
#[cycle(olds)]
#[tactic(auto, unfolding(sc_tree::specs::View::expr_of))]
fn add_olds_of_each<'s>(olds: &mut Vec<OldValue<'s>>, actuals: &'s [Expr]) -> Result<(), AllocError>
    ensures { OnOk result (operands_of olds.new.items ≡ operands_of olds.old.items ++ olds_of_each (exprs_of actuals.now)) }
{
    for actual in actuals {
        add_olds(olds, actual)?;
    }
    Ok(())
}

/// How many operands of `old` there are in the expressions.
pub fn olds_in_each(alloc: Global, actuals: &[Expr]) -> Result<usize, AllocError>
    ensures { IfOk result (λ count. count ≡ length (olds_of_each (exprs_of actuals.now))) }
{
    let mut olds = Vec::new(alloc);
    add_olds_of_each(&mut olds, actuals)?;
    Ok(olds.len())
}
