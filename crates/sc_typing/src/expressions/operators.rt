//! The types that operators take (ECMA-367, 8.28).

ghost use Rattle.std.specs.Prelude.{◌≡◌};
ghost use Rattle.sc_rules.specs.Types as types;

use sc_class::ClassId;
use sc_rules::entity_types::EntityType;
use sc_tree::{BinaryOperator, UnaryOperator};

/// Whether it is the class of numbers.
fn is_integer(class: ClassId) -> bool
    ensures { result ≡ types.is_integer class }
{
    match class {
        ClassId::Integer => true,
        ClassId::Boolean | ClassId::Any | ClassId::None | ClassId::Declared(_) => false,
    }
}

/// Whether it is the class of truth values.
pub fn is_boolean(class: ClassId) -> bool
    ensures { result ≡ types.is_boolean class }
{
    match class {
        ClassId::Boolean => true,
        ClassId::Integer | ClassId::Any | ClassId::None | ClassId::Declared(_) => false,
    }
}

/// Whether `=` takes values of these classes: numbers, truth values or references on both sides.
fn is_comparable(left: ClassId, right: ClassId) -> bool
    ensures { result ≡ types.is_comparable left right }
{
    match left {
        ClassId::Integer => is_integer(right),
        ClassId::Boolean => is_boolean(right),
        ClassId::Any | ClassId::None | ClassId::Declared(_) => !right.is_expanded(),
    }
}

/// The type of an operation, if the operator takes its operands.
fn gives_if(holds: bool, given: EntityType) -> Option<EntityType>
    ensures { result ≡ types.gives_if holds given }
{
    if holds { Some(given) } else { None }
}

/// The result of a unary operator with an operand of this type: none if it doesn't take it.
fn unary_type(operator: UnaryOperator, operand: EntityType) -> Option<EntityType>
    ensures { result ≡ types.unary_type operator operand }
{
    match operator {
        UnaryOperator::Old => Some(operand),
        UnaryOperator::Not => gives_if(is_boolean(operand.class), EntityType::boolean()),
        UnaryOperator::Plus | UnaryOperator::Minus => {
            gives_if(is_integer(operand.class), EntityType::integer())
        }
    }
}

/// INTEGER, where both operands are.
fn arithmetic(left: EntityType, right: EntityType) -> Option<EntityType>
    ensures { result ≡ types.arithmetic left right }
{
    gives_if(
        is_integer(left.class) && is_integer(right.class),
        EntityType::integer(),
    )
}

/// BOOLEAN, where both operands are INTEGER.
fn order(left: EntityType, right: EntityType) -> Option<EntityType>
    ensures { result ≡ types.order left right }
{
    gives_if(
        is_integer(left.class) && is_integer(right.class),
        EntityType::boolean(),
    )
}

/// BOOLEAN, where both operands are.
fn logic(left: EntityType, right: EntityType) -> Option<EntityType>
    ensures { result ≡ types.logic left right }
{
    gives_if(
        is_boolean(left.class) && is_boolean(right.class),
        EntityType::boolean(),
    )
}

/// BOOLEAN, where the operands can be compared by `=`.
fn equality(left: EntityType, right: EntityType) -> Option<EntityType>
    ensures { result ≡ types.equality left right }
{
    gives_if(
        is_comparable(left.class, right.class),
        EntityType::boolean(),
    )
}

/// The result of a binary operator with operands of these types: none if it doesn't take them.
fn binary_type(operator: BinaryOperator, left: EntityType, right: EntityType) -> Option<EntityType>
    ensures { result ≡ types.binary_type operator left right }
{
    match operator {
        BinaryOperator::Times | BinaryOperator::Quotient | BinaryOperator::Remainder => {
            arithmetic(left, right)
        }
        BinaryOperator::Plus | BinaryOperator::Minus => arithmetic(left, right),
        BinaryOperator::Equal | BinaryOperator::NotEqual => equality(left, right),
        BinaryOperator::Less | BinaryOperator::Greater => order(left, right),
        BinaryOperator::LessEqual | BinaryOperator::GreaterEqual => order(left, right),
        BinaryOperator::And | BinaryOperator::AndThen => logic(left, right),
        BinaryOperator::Or | BinaryOperator::OrElse => logic(left, right),
        BinaryOperator::Xor | BinaryOperator::Implies => logic(left, right),
    }
}

/// What an object test gives where the tested expression has this type, if it has one.
pub fn test_result(tested: Option<EntityType>) -> Option<EntityType>
    ensures { result ≡ types.test_result tested }
{
    match tested {
        None => None,
        Some(_) => Some(EntityType::boolean()),
    }
}

/// The result of an operator whose operand has this type, if it has one: none if the operator doesn't take it.
pub fn unary_result(
    operator: UnaryOperator,
    operand: Option<EntityType>,
) -> Option<Option<EntityType>>
    ensures { result ≡ types.unary_result operator operand }
{
    match operand {
        None => Some(None),
        Some(operand) => match unary_type(operator, operand) {
            None => None,
            Some(given) => Some(Some(given)),
        },
    }
}

/// The result of an operator whose operands have these types, if they have any: none if the operator doesn't take
/// them.
pub fn binary_result(
    operator: BinaryOperator,
    left: Option<EntityType>,
    right: Option<EntityType>,
) -> Option<Option<EntityType>>
    ensures { result ≡ types.binary_result operator left right }
{
    let Some(left) = left else {
        return Some(None);
    };
    let Some(right) = right else {
        return Some(None);
    };
    match binary_type(operator, left, right) {
        None => None,
        Some(given) => Some(Some(given)),
    }
}
