//! Laws of the definitions: each function's contract is one, and its body is empty.
ghost use Rattle.std.specs.Prelude.{◌≡◌, ◌<ℤ◌, ◌||◌, ◌&&◌, not, true, Some, Ok};
ghost use Rattle.sc_formula.specs.Arithmetic.{quotient_of, remainder_of, Divides};
ghost use Rattle.sc_formula.specs.Comparison.{compares};
ghost use Rattle.sc_formula.specs.Connective.{decision_of, truth_table};
ghost use Rattle.sc_formula.specs.declared.comparison.Comparison.TheVariants.{Equal, NotEqual, Less, LessOrEqual, Greater, GreaterOrEqual};
ghost use Rattle.sc_formula.specs.declared.connective.Connective.TheVariants as connective;

use crate::connective::Connective;

/// `//` and `\\` divide with rounding toward zero.
pub fn division_rounds_toward_zero(dividend: i64, divisor: i64, quotient: i64, remainder: i64)
    requires quotient { quotient_of dividend divisor ≡ Ok quotient }
    requires remainder { remainder_of dividend divisor ≡ Ok remainder }
    ensures { Divides dividend divisor quotient remainder }
{}

/// Where the left side decides alone, the right side can't matter.
pub fn decision_is_the_truth(connective: Connective, left: bool, right: bool, decision: bool)
    requires { decision_of connective left ≡ Some decision }
    ensures { truth_table connective left right ≡ decision }
{}

/// Of two integers the first is less than, equal to or greater than the second, and the other comparisons say so of two of these.
pub fn comparisons_are_orders(left: i64, right: i64)
    ensures less { compares Less left right ≡ true → left <ℤ right }
    ensures not_less { left <ℤ right → compares Less left right ≡ true }
    ensures equal { compares Equal left right ≡ true → left ≡ right }
    ensures same { left ≡ right → compares Equal left right ≡ true }
    ensures greater { compares Greater left right ≡ not (compares Less left right || compares Equal left right) }
    ensures at_most { compares LessOrEqual left right ≡ (compares Less left right || compares Equal left right) }
    ensures at_least { compares GreaterOrEqual left right ≡ not (compares Less left right) }
    ensures different { compares NotEqual left right ≡ not (compares Equal left right) }
{}

/// What the connectives make of two truth values, each said by `not` and `or`.
pub fn connectives_are_not_and_or(left: bool, right: bool)
    ensures both { truth_table connective.And left right ≡ not (not left || not right) }
    ensures one { truth_table connective.Or left right ≡ (left || right) }
    ensures one_alone { truth_table connective.Xor left right ≡ ((left || right) && not (left && right)) }
    ensures implied { truth_table connective.Implies left right ≡ (not left || right) }
    ensures both_in_turn { truth_table connective.AndThen left right ≡ truth_table connective.And left right }
    ensures one_in_turn { truth_table connective.OrElse left right ≡ truth_table connective.Or left right }
    ensures alike { truth_table connective.Equal left right ≡ not (truth_table connective.Xor left right) }
    ensures unlike { truth_table connective.NotEqual left right ≡ truth_table connective.Xor left right }
{}
