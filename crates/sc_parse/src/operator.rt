//! Operators, and how they bind (ECMA-367, 8.28).

ghost use Rattle.std.specs.Prelude.{◌≡◌, ◌≤◌, ◌<◌, MatchOption};
ghost use Rattle.sc_tree.specs.Grammar.Operators as grammar;
ghost use Rattle.sc_parse.specs.Reading.Looks as spec;
ghost use Rattle.sc_tree.specs.Internal.Reading.Looks as looks;

use crate::cursor::Parser;
use crate::look::begins_with;
use sc_text::{Terminal, Token, TokenKind};
use sc_tree::{BinaryOperator, UnaryOperator};

/// The class below the operator's own. Operators of one class bind equally, those of a lower one
/// tighter.
fn class_below(operator: BinaryOperator) -> u8
    ensures { result ≡ grammar.class_below operator }
{
    match operator {
        BinaryOperator::Times => 0,
        BinaryOperator::Quotient => 0,
        BinaryOperator::Remainder => 0,
        BinaryOperator::Plus => 1,
        BinaryOperator::Minus => 1,
        BinaryOperator::Equal => 2,
        BinaryOperator::NotEqual => 2,
        BinaryOperator::Less => 2,
        BinaryOperator::Greater => 2,
        BinaryOperator::LessEqual => 2,
        BinaryOperator::GreaterEqual => 2,
        BinaryOperator::And => 3,
        BinaryOperator::AndThen => 3,
        BinaryOperator::Or => 4,
        BinaryOperator::OrElse => 4,
        BinaryOperator::Xor => 4,
        BinaryOperator::Implies => 5,
    }
}

/// Whether the operators just above the class group to the left; relations don't group.
pub fn is_grouped(class: u8) -> bool
    ensures { result ≡ grammar.groups class }
{
    class != 2
}

/// The operator between two operands that a terminal is, with no second word.
fn operator_of(terminal: Terminal) -> Option<BinaryOperator>
    ensures { result ≡ looks.operator_by terminal }
{
    match terminal {
        Terminal::Times => Some(BinaryOperator::Times),
        Terminal::Quotient => Some(BinaryOperator::Quotient),
        Terminal::Remainder => Some(BinaryOperator::Remainder),
        Terminal::Plus => Some(BinaryOperator::Plus),
        Terminal::Minus => Some(BinaryOperator::Minus),
        Terminal::Equal => Some(BinaryOperator::Equal),
        Terminal::NotEqual => Some(BinaryOperator::NotEqual),
        Terminal::Less => Some(BinaryOperator::Less),
        Terminal::Greater => Some(BinaryOperator::Greater),
        Terminal::LessEqual => Some(BinaryOperator::LessEqual),
        Terminal::GreaterEqual => Some(BinaryOperator::GreaterEqual),
        Terminal::And => Some(BinaryOperator::And),
        Terminal::Or => Some(BinaryOperator::Or),
        Terminal::Xor => Some(BinaryOperator::Xor),
        Terminal::Implies => Some(BinaryOperator::Implies),
        _ => None,
    }
}

impl<'a> Parser<'a> {
    ghost use Rattle.sc_parse.specs.Reading.Looks.{IsFree};
    ghost use Rattle.sc_parse.specs.Reading.Reads.{ahead};

    /// The operator before an operand that the next token is.
    pub fn prefix(&self) -> Option<UnaryOperator>
        ensures { result ≡ spec.prefix_ahead (ahead self.now) }
    {
        match self.rest.first() {
            Some(
                Token {
                    kind: TokenKind::Terminal(terminal),
                    ..
                },
            ) => match terminal {
                Terminal::Not => Some(UnaryOperator::Not),
                Terminal::Old => Some(UnaryOperator::Old),
                Terminal::Plus => Some(UnaryOperator::Plus),
                Terminal::Minus => Some(UnaryOperator::Minus),
                _ => None,
            },
            _ => None,
        }
    }

    /// The operator between two operands that the next tokens are.
    fn any_operator(&self) -> Option<BinaryOperator>
        ensures { result ≡ spec.operator_at (ahead self.now) }
    {
        let (first, rest) = self.rest.split_first()?;
        let TokenKind::Terminal(terminal) = first.kind else {
            return None;
        };
        match operator_of(terminal) {
            Some(BinaryOperator::And) if begins_with(rest, Terminal::Then) => {
                Some(BinaryOperator::AndThen)
            }
            Some(BinaryOperator::Or) if begins_with(rest, Terminal::Else) => {
                Some(BinaryOperator::OrElse)
            }
            operator => operator,
        }
    }

    /// The class that the operator ahead is just above, if that is one from `least` on and below `class`.
    pub fn next_class(&self, least: u8, class: u8) -> Option<u8>
        ensures { MatchOption result (IsFree least class (ahead self.now))
            (λ below. (least ≤ below) × (below < class) × IsFree least below (ahead self.now)) }
    {
        let Some(operator) = self.any_operator() else {
            return None;
        };
        let below = class_below(operator);
        if below < least {
            return None;
        }
        if class <= below {
            return None;
        }
        Some(below)
    }

    /// The operator ahead, if it is one just above the class.
    pub fn operator(&self, class: u8) -> Option<BinaryOperator>
        ensures { result ≡ spec.operator_ahead class (ahead self.now) }
    {
        let operator = self.any_operator()?;
        if class_below(operator) == class {
            Some(operator)
        } else {
            None
        }
    }

    /// Reads the operator ahead.
    pub fn take_operator(&mut self, operator: BinaryOperator)
        ensures { ahead self.new ≡ spec.past_operator operator (ahead self.old) }
    {
        self.take();
        match operator {
            BinaryOperator::AndThen => {
                self.take();
            }
            BinaryOperator::OrElse => {
                self.take();
            }
            _ => (),
        }
    }
}
