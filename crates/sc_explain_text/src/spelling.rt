//! How operators are spelt.

use sc_tree::BinaryOperator;

/// An operator as a text has it, in lower case and with one space between two words, to be shown to people.
pub fn binary_spelling(operator: BinaryOperator) -> &'static str {
    match operator {
        BinaryOperator::Times => "*",
        BinaryOperator::Quotient => "//",
        BinaryOperator::Remainder => "\\\\",
        BinaryOperator::Plus => "+",
        BinaryOperator::Minus => "-",
        BinaryOperator::Equal => "=",
        BinaryOperator::NotEqual => "/=",
        BinaryOperator::Less => "<",
        BinaryOperator::Greater => ">",
        BinaryOperator::LessEqual => "<=",
        BinaryOperator::GreaterEqual => ">=",
        BinaryOperator::And => "and",
        BinaryOperator::AndThen => "and then",
        BinaryOperator::Or => "or",
        BinaryOperator::OrElse => "or else",
        BinaryOperator::Xor => "xor",
        BinaryOperator::Implies => "implies",
    }
}
