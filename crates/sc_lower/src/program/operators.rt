//! The operators of the language, as those of integers and of truth values.

ghost use Rattle.std.specs.Prelude.{◌≡◌};
ghost use Rattle.sc_model.specs.Operators.{arithmetic_of, comparison_of, connective_of};

use sc_formula::{ArithmeticOperator, Comparison, Connective};
use sc_tree::BinaryOperator;

/// Two integers to an integer.
pub fn arithmetic(operator: BinaryOperator) -> Option<ArithmeticOperator>
    ensures { result ≡ arithmetic_of operator }
{
    match operator {
        BinaryOperator::Times => Some(ArithmeticOperator::Times),
        BinaryOperator::Quotient => Some(ArithmeticOperator::Quotient),
        BinaryOperator::Remainder => Some(ArithmeticOperator::Remainder),
        BinaryOperator::Plus => Some(ArithmeticOperator::Plus),
        BinaryOperator::Minus => Some(ArithmeticOperator::Minus),
        _ => None,
    }
}

/// Two integers to a truth value.
pub fn comparison(operator: BinaryOperator) -> Option<Comparison>
    ensures { result ≡ comparison_of operator }
{
    match operator {
        BinaryOperator::Equal => Some(Comparison::Equal),
        BinaryOperator::NotEqual => Some(Comparison::NotEqual),
        BinaryOperator::Less => Some(Comparison::Less),
        BinaryOperator::Greater => Some(Comparison::Greater),
        BinaryOperator::LessEqual => Some(Comparison::LessOrEqual),
        BinaryOperator::GreaterEqual => Some(Comparison::GreaterOrEqual),
        _ => None,
    }
}

/// Two truth values to a truth value.
pub fn connective(operator: BinaryOperator) -> Option<Connective>
    ensures { result ≡ connective_of operator }
{
    match operator {
        BinaryOperator::Equal => Some(Connective::Equal),
        BinaryOperator::NotEqual => Some(Connective::NotEqual),
        BinaryOperator::And => Some(Connective::And),
        BinaryOperator::AndThen => Some(Connective::AndThen),
        BinaryOperator::Or => Some(Connective::Or),
        BinaryOperator::OrElse => Some(Connective::OrElse),
        BinaryOperator::Xor => Some(Connective::Xor),
        BinaryOperator::Implies => Some(Connective::Implies),
        _ => None,
    }
}
