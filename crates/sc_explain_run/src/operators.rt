//! What operators give.

use sc_formula::arithmetic;
use sc_region::Value;
use sc_tree::{BinaryOperator, UnaryOperator};

/// The value of a unary operator, if it has one.
pub fn unary_value(operator: UnaryOperator, operand: Value) -> Option<Value> {
    match (operator, operand) {
        (UnaryOperator::Not, Value::Boolean(value)) => Some(Value::Boolean(!value)),
        (UnaryOperator::Plus, Value::Integer(_)) => Some(operand),
        (UnaryOperator::Minus, Value::Integer(value)) => match arithmetic::opposite(value) {
            Ok(value) => Some(Value::Integer(value)),
            Err(_) => None,
        },
        _ => None,
    }
}

/// The value of a binary operator, if it has one.
pub fn binary_value(operator: BinaryOperator, left: Value, right: Value) -> Option<Value> {
    match (operator, left, right) {
        (BinaryOperator::Equal, _, _) => Some(Value::Boolean(left == right)),
        (BinaryOperator::NotEqual, _, _) => Some(Value::Boolean(left != right)),
        (_, Value::Integer(left), Value::Integer(right)) => of_integers(operator, left, right),
        (_, Value::Boolean(left), Value::Boolean(right)) => of_booleans(operator, left, right),
        _ => None,
    }
}

/// What the left operand of an operator decides, if it does.
pub fn decided_by(operator: BinaryOperator, left: Value) -> Option<Value> {
    match (operator, left) {
        (BinaryOperator::AndThen, Value::Boolean(false)) => Some(left),
        (BinaryOperator::OrElse, Value::Boolean(true)) => Some(left),
        (BinaryOperator::Implies, Value::Boolean(false)) => Some(Value::Boolean(true)),
        _ => None,
    }
}

fn of_integers(operator: BinaryOperator, left: i64, right: i64) -> Option<Value> {
    let result = match operator {
        BinaryOperator::Times => arithmetic::product(left, right),
        BinaryOperator::Quotient => arithmetic::quotient(left, right),
        BinaryOperator::Remainder => arithmetic::remainder(left, right),
        BinaryOperator::Plus => arithmetic::sum(left, right),
        BinaryOperator::Minus => arithmetic::difference(left, right),
        BinaryOperator::Less => return Some(Value::Boolean(left < right)),
        BinaryOperator::Greater => return Some(Value::Boolean(left > right)),
        BinaryOperator::LessEqual => return Some(Value::Boolean(left <= right)),
        BinaryOperator::GreaterEqual => return Some(Value::Boolean(left >= right)),
        _ => return None,
    };
    match result {
        Ok(value) => Some(Value::Integer(value)),
        Err(_) => None,
    }
}

fn of_booleans(operator: BinaryOperator, left: bool, right: bool) -> Option<Value> {
    match operator {
        BinaryOperator::And | BinaryOperator::AndThen => Some(Value::Boolean(left & right)),
        BinaryOperator::Or | BinaryOperator::OrElse => Some(Value::Boolean(left | right)),
        BinaryOperator::Xor => Some(Value::Boolean(left != right)),
        BinaryOperator::Implies => Some(Value::Boolean(!left | right)),
        _ => None,
    }
}
