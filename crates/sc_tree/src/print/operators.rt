//! Operators, what they are spelled by and how they bind.

ghost use Rattle.std.specs.Prelude.{◌≡◌, ◌≤◌};
ghost use Rattle.sc_tree.specs.Canonical.Expressions.{class_of_expr, left_class};
ghost use Rattle.sc_tree.specs.Grammar.{class_below, prefix_of, terminals_of};
ghost use Rattle.sc_tree.specs.View.{expr_of};

use crate::expression::{BinaryOperator, Expr, UnaryOperator};
use sc_text::Terminal;

/// The class below an operator's own: the greatest that its right operand has without parentheses.
pub fn class_below(operator: BinaryOperator) -> u8
    ensures value { result ≡ class_below operator }
    ensures small { result ≤ 5 }
{
    match operator {
        BinaryOperator::Times | BinaryOperator::Quotient | BinaryOperator::Remainder => 0,
        BinaryOperator::Plus | BinaryOperator::Minus => 1,
        BinaryOperator::Equal | BinaryOperator::NotEqual => 2,
        BinaryOperator::Less | BinaryOperator::Greater => 2,
        BinaryOperator::LessEqual | BinaryOperator::GreaterEqual => 2,
        BinaryOperator::And | BinaryOperator::AndThen => 3,
        BinaryOperator::Or | BinaryOperator::OrElse | BinaryOperator::Xor => 4,
        BinaryOperator::Implies => 5,
    }
}

/// The greatest class that an operator's left operand has without parentheses. Relations don't group.
pub fn left_class(operator: BinaryOperator) -> u8
    ensures { result ≡ left_class operator }
{
    let class = class_below(operator);
    if class == 2 { class } else { class + 1 }
}

/// The precedence class of an expression: 0 unless an operator is between two operands.
#[tactic(auto, unfolding(crate::specs::View::expr_of))]
pub fn class_of(expr: &Expr) -> u8
    ensures { result ≡ class_of_expr (expr_of expr.now) }
{
    match expr {
        Expr::Binary(_, operator, _, _) => class_below(*operator) + 1,
        _ => 0,
    }
}

/// What an operator before its operand is spelled by.
pub fn prefix(operator: UnaryOperator) -> Terminal
    ensures { result ≡ prefix_of operator }
{
    match operator {
        UnaryOperator::Not => Terminal::Not,
        UnaryOperator::Old => Terminal::Old,
        UnaryOperator::Plus => Terminal::Plus,
        UnaryOperator::Minus => Terminal::Minus,
    }
}

/// What an operator between two operands is spelled by.
pub fn terminals(operator: BinaryOperator) -> &'static [Terminal]
    ensures { result.now ≡ terminals_of operator }
{
    match operator {
        BinaryOperator::Times => &[Terminal::Times],
        BinaryOperator::Quotient => &[Terminal::Quotient],
        BinaryOperator::Remainder => &[Terminal::Remainder],
        BinaryOperator::Plus => &[Terminal::Plus],
        BinaryOperator::Minus => &[Terminal::Minus],
        BinaryOperator::Equal => &[Terminal::Equal],
        BinaryOperator::NotEqual => &[Terminal::NotEqual],
        BinaryOperator::Less => &[Terminal::Less],
        BinaryOperator::Greater => &[Terminal::Greater],
        BinaryOperator::LessEqual => &[Terminal::LessEqual],
        BinaryOperator::GreaterEqual => &[Terminal::GreaterEqual],
        BinaryOperator::And => &[Terminal::And],
        BinaryOperator::AndThen => &[Terminal::And, Terminal::Then],
        BinaryOperator::Or => &[Terminal::Or],
        BinaryOperator::OrElse => &[Terminal::Or, Terminal::Else],
        BinaryOperator::Xor => &[Terminal::Xor],
        BinaryOperator::Implies => &[Terminal::Implies],
    }
}
