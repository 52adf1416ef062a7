//! The arithmetic of INTEGER, which has 64 bits with sign.
ghost use Rattle.std.specs.Prelude.{◌≡◌, Some};
ghost use Rattle.sc_formula.specs.Arithmetic.{message_of, sum_of, difference_of, product_of, quotient_of, remainder_of, opposite_of, result_of};

use std::error::Error;
use std::fmt;

/// Why an operation on integers has no result.
#[derive(Clone, Copy, Debug, PartialEq, Eq)]
pub enum ArithmeticFault {
    /// The result lies outside 64 bits.
    Overflow,
    /// The divisor of `//` or `\\` is zero.
    DivideByZero,
}

impl fmt::Display for ArithmeticFault {
    ghost output = { λ fault. Some (message_of fault) };

    fn fmt<W: fmt::Write>(&self, f: &mut fmt::Formatter<W>) -> fmt::Result {
        match self {
            ArithmeticFault::Overflow => write!(f, "a result lies outside 64 bits"),
            ArithmeticFault::DivideByZero => write!(f, "the divisor is zero"),
        }
    }
}

impl Error for ArithmeticFault {}

/// An operator on two integers that makes an integer.
#[derive(Clone, Copy)]
pub enum ArithmeticOperator {
    /// `+`
    Plus,
    /// `-`
    Minus,
    /// `*`
    Times,
    /// `//`, which rounds toward zero.
    Quotient,
    /// `\\`, which has the dividend's sign.
    Remainder,
}

impl ArithmeticOperator {
    /// What the operator makes of two integers.
    pub fn apply(self, left: i64, right: i64) -> Result<i64, ArithmeticFault>
        ensures { result ≡ result_of self left right }
    {
        match self {
            ArithmeticOperator::Plus => sum(left, right),
            ArithmeticOperator::Minus => difference(left, right),
            ArithmeticOperator::Times => product(left, right),
            ArithmeticOperator::Quotient => quotient(left, right),
            ArithmeticOperator::Remainder => remainder(left, right),
        }
    }
}

/// `left + right`.
pub fn sum(left: i64, right: i64) -> Result<i64, ArithmeticFault>
    ensures { result ≡ sum_of left right }
{
    left.checked_add(right).ok_or(ArithmeticFault::Overflow)
}

/// `left - right`.
pub fn difference(left: i64, right: i64) -> Result<i64, ArithmeticFault>
    ensures { result ≡ difference_of left right }
{
    left.checked_sub(right).ok_or(ArithmeticFault::Overflow)
}

/// `left * right`.
pub fn product(left: i64, right: i64) -> Result<i64, ArithmeticFault>
    ensures { result ≡ product_of left right }
{
    left.checked_mul(right).ok_or(ArithmeticFault::Overflow)
}

/// `dividend // divisor`, rounded toward zero. Only the least integer by -1 overflows.
pub fn quotient(dividend: i64, divisor: i64) -> Result<i64, ArithmeticFault>
    ensures { result ≡ quotient_of dividend divisor }
{
    if divisor == 0 {
        return Err(ArithmeticFault::DivideByZero);
    }
    dividend
        .checked_div(divisor)
        .ok_or(ArithmeticFault::Overflow)
}

/// `dividend \\ divisor`, with the dividend's sign. It never overflows: of the least integer by -1 it is 0.
pub fn remainder(dividend: i64, divisor: i64) -> Result<i64, ArithmeticFault>
    ensures { result ≡ remainder_of dividend divisor }
{
    match divisor {
        0 => Err(ArithmeticFault::DivideByZero),
        -1 => Ok(0),
        _ => Ok(dividend % divisor),
    }
}

/// `- operand`. Only the least integer overflows.
pub fn opposite(operand: i64) -> Result<i64, ArithmeticFault>
    ensures { result ≡ opposite_of operand }
{
    operand.checked_neg().ok_or(ArithmeticFault::Overflow)
}
