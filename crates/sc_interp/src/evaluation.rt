//! The results of operators and reads.
ghost use Rattle.std.specs.Prelude.{◌≡◌};
ghost use Rattle.std.specs.Option.{option_map};
ghost use Rattle.sc_model.specs.Operators as operators;
ghost use Rattle.sc_model.specs.Expressions.{decided_by, is_same_object};
ghost use Rattle.sc_code.specs.Machine as flat;
ghost use Rattle.sc_interp.specs.Values.{value_of, reference_of, evaluated};

use sc_formula::{ArithmeticFault, Connective, arithmetic};
use sc_model::Cause;
use sc_region::{Reference, Value};
use sc_tree::{BinaryOperator, UnaryOperator};

/// Reads an entity: F7 if its type is attached and it is still Void, F16 if there is none.
#[inline(always)]
pub fn read(is_attached: bool, value: Option<Value>) -> Result<Value, Cause>
    ensures { evaluated result ≡ flat.read is_attached (option_map value_of value) }
{
    match value {
        None => Err(Cause::BadCode),
        Some(Value::Integer(value)) => Ok(Value::Integer(value)),
        Some(Value::Boolean(value)) => Ok(Value::Boolean(value)),
        Some(Value::Attached(object)) => Ok(Value::Attached(object)),
        Some(Value::Void) => {
            if is_attached {
                Err(Cause::UnsetEntity)
            } else {
                Ok(Value::Void)
            }
        }
    }
}

/// Reads a kept value: F16 if there is none.
pub fn found(value: Option<Value>) -> Result<Value, Cause>
    ensures { evaluated result ≡ flat.found (option_map value_of value) }
{
    value.ok_or(Cause::BadCode)
}

#[inline(always)]
fn outcome(found: Result<i64, ArithmeticFault>) -> Result<Value, Cause>
    ensures { evaluated result ≡ flat.outcome found }
{
    match found {
        Ok(value) => Ok(Value::Integer(value)),
        Err(ArithmeticFault::Overflow) => Err(Cause::Overflow),
        Err(ArithmeticFault::DivideByZero) => Err(Cause::DivideByZero),
    }
}

/// The value of a unary operator: F16 if it takes no such operand.
#[inline(always)]
pub fn unary_value(operator: UnaryOperator, operand: Value) -> Result<Value, Cause>
    ensures { evaluated result ≡ flat.unary_value operator (value_of operand) }
{
    match (operator, operand) {
        (UnaryOperator::Not, Value::Boolean(value)) => Ok(Value::Boolean(!value)),
        (UnaryOperator::Plus, Value::Integer(value)) => Ok(Value::Integer(value)),
        (UnaryOperator::Minus, Value::Integer(value)) => outcome(arithmetic::opposite(value)),
        _ => Err(Cause::BadCode),
    }
}

/// The operator on two truth values, if it is one.
#[inline(always)]
fn connective_of(operator: BinaryOperator) -> Option<Connective>
    ensures { result ≡ operators.connective_of operator }
{
    match operator {
        BinaryOperator::Equal => Some(Connective::Equal),
        BinaryOperator::NotEqual => Some(Connective::NotEqual),
        BinaryOperator::And => Some(Connective::And),
        BinaryOperator::AndThen => Some(Connective::AndThen),
        BinaryOperator::Or => Some(Connective::Or),
        BinaryOperator::OrElse => Some(Connective::OrElse),
        BinaryOperator::Xor => Some(Connective::Xor),
        BinaryOperator::Implies => Some(Connective::Implies),
        _ => None,
    }
}

/// The result of `=` or `/=` for two references, by whether they are equal.
#[inline(always)]
fn identity_of(operator: BinaryOperator, same: bool) -> Option<bool>
    ensures { result ≡ operators.identity_of operator same }
{
    match operator {
        BinaryOperator::Equal => Some(same),
        BinaryOperator::NotEqual => Some(!same),
        _ => None,
    }
}

#[inline(always)]
fn is_same_object(one: Reference, other: Reference) -> bool
    ensures { result ≡ is_same_object (reference_of one) (reference_of other) }
{
    one.handler == other.handler && one.number == other.number
}

#[inline(always)]
fn truth(found: Option<bool>) -> Result<Value, Cause>
    ensures { evaluated result ≡ flat.truth found }
{
    match found {
        Some(value) => Ok(Value::Boolean(value)),
        None => Err(Cause::BadCode),
    }
}

/// The result of a binary operator for two integers: F16 if it takes none. (One match over the operator, inlined,
/// since it is the most frequent.)
#[inline(always)]
pub fn of_integers(operator: BinaryOperator, left: i64, right: i64) -> Result<Value, Cause>
    ensures { evaluated result ≡ flat.of_integers (operators.arithmetic_of operator) (operators.comparison_of operator) left right }
{
    match operator {
        BinaryOperator::Times => outcome(arithmetic::product(left, right)),
        BinaryOperator::Quotient => outcome(arithmetic::quotient(left, right)),
        BinaryOperator::Remainder => outcome(arithmetic::remainder(left, right)),
        BinaryOperator::Plus => outcome(arithmetic::sum(left, right)),
        BinaryOperator::Minus => outcome(arithmetic::difference(left, right)),
        BinaryOperator::Equal => Ok(Value::Boolean(left == right)),
        BinaryOperator::NotEqual => Ok(Value::Boolean(left != right)),
        BinaryOperator::Less => Ok(Value::Boolean(left < right)),
        BinaryOperator::Greater => Ok(Value::Boolean(left > right)),
        BinaryOperator::LessEqual => Ok(Value::Boolean(left <= right)),
        BinaryOperator::GreaterEqual => Ok(Value::Boolean(left >= right)),
        _ => Err(Cause::BadCode),
    }
}

#[inline(always)]
fn of_booleans(operator: BinaryOperator, left: bool, right: bool) -> Result<Value, Cause>
    ensures { evaluated result ≡ flat.of_booleans (operators.connective_of operator) left right }
{
    match connective_of(operator) {
        Some(connective) => Ok(Value::Boolean(connective.apply(left, right))),
        None => Err(Cause::BadCode),
    }
}

/// The value of a binary operator: F16 if it takes no such operands.
#[inline(always)]
pub fn binary_value(operator: BinaryOperator, left: Value, right: Value) -> Result<Value, Cause>
    ensures { evaluated result ≡ flat.binary_value operator (value_of left) (value_of right) }
{
    match (left, right) {
        (Value::Integer(left), Value::Integer(right)) => of_integers(operator, left, right),
        (Value::Boolean(left), Value::Boolean(right)) => of_booleans(operator, left, right),
        (Value::Attached(left), Value::Attached(right)) => truth(identity_of(
            operator,
            is_same_object(left, right),
        )),
        (Value::Attached(_), Value::Void) | (Value::Void, Value::Attached(_)) => truth(identity_of(
            operator, false,
        )),
        (Value::Void, Value::Void) => truth(identity_of(operator, true)),
        _ => Err(Cause::BadCode),
    }
}

/// What the left operand of a semistrict operator decides, if it does.
#[inline(always)]
pub fn decided_by(operator: BinaryOperator, left: Value) -> Option<bool>
    ensures { result ≡ decided_by operator (value_of left) }
{
    match left {
        Value::Boolean(value) => match connective_of(operator) {
            Some(connective) => connective.decision(value),
            None => None,
        },
        Value::Integer(_) | Value::Void | Value::Attached(_) => None,
    }
}
