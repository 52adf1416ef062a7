//! The position of an expression, and those of its parts.

ghost use Rattle.std.specs.Prelude.{◌≡◌};
ghost use Rattle.sc_rules.specs.Positions as positions;

use sc_rules::{Context, Position};
use sc_tree::{BinaryOperator, UnaryOperator};

/// Whether `Void` is allowed in this position.
pub fn takes_void(position: Position) -> bool
    ensures { result ≡ positions.takes_void position }
{
    match position {
        Position::Source => true,
        Position::Plain | Position::Condition => false,
    }
}

/// Whether pure functions alone are called there.
pub fn wants_pure(context: Context) -> bool
    ensures { result ≡ positions.wants_pure context }
{
    match context {
        Context::Require | Context::Ensure | Context::Check | Context::Old => true,
        Context::Body | Context::Invariant => false,
    }
}

/// Whether it is a precondition.
pub fn is_require(context: Context) -> bool
    ensures { result ≡ positions.is_require context }
{
    matches!(context, Context::Require)
}

/// Whether it is a postcondition.
pub fn is_ensure(context: Context) -> bool
    ensures { result ≡ positions.is_ensure context }
{
    matches!(context, Context::Ensure)
}

/// The context of the operand of `old`: in a precondition it stays that.
fn below_old(context: Context) -> Context
    ensures { result ≡ positions.below_old context }
{
    match context {
        Context::Require => Context::Require,
        Context::Body | Context::Ensure | Context::Check | Context::Invariant | Context::Old =>
            Context::Old,
    }
}

/// The context of the operand of a unary operator.
pub fn operand_context(operator: UnaryOperator, context: Context) -> Context
    ensures { result ≡ positions.operand_context operator context }
{
    match operator {
        UnaryOperator::Old => below_old(context),
        UnaryOperator::Not | UnaryOperator::Plus | UnaryOperator::Minus => context,
    }
}

/// The position of the operands of a binary operator.
pub fn operand_position(operator: BinaryOperator) -> Position
    ensures { result ≡ positions.operand_position operator }
{
    match operator {
        BinaryOperator::Equal | BinaryOperator::NotEqual => Position::Source,
        _ => Position::Plain,
    }
}
