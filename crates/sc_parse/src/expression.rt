//! Expressions (ECMA-367, 8.28).

ghost use Rattle.std.specs.Prelude.{◌≡◌, ◌≤◌, ◌<◌, max, Some, None, Ok, IfOk, MatchOption};
ghost use Rattle.sc_tree.specs.Plain as plain;
ghost use Rattle.sc_parse.specs.Reading.Looks.{Ahead, left};
ghost use Rattle.sc_parse.specs.Reading.Expressions as spec;
ghost use Rattle.sc_parse.specs.Reading.Reads.{ahead, expr_in, constant_ahead, Reads};

use crate::cursor::Parser;
use crate::fault::ParseFault;
use crate::operator::is_grouped;
use sc_text::{Span, Terminal};
use sc_tree::{BinaryOperator, Expr};
use std::alloc::{AllocError, Global};

/// The class of a whole expression.
pub const TOP: u8 = 6;

/// The larger of two nestings.
pub fn deeper(a: u8, b: u8) -> u8
    ensures { result ≡ max a b }
{
    if a < b { b } else { a }
}

/// Two operands, each in a box.
fn boxed<T: Drop>(alloc: Global, left: T, right: T) -> Result<(Box<T>, Box<T>), AllocError>
    ensures { IfOk result (λ boxes. (boxes.0.value ≡ left) × (boxes.1.value ≡ right)) }
{
    let left = Box::new(alloc, left)?;
    let right = Box::new(alloc, right)?;
    Ok((left, right))
}

/// An operator with the operands before and after it.
fn joined(
    alloc: Global,
    left: Expr,
    operator: BinaryOperator,
    right: Expr,
) -> Result<Expr, AllocError>
    ensures { IfOk result (λ e. expr_in e
        ≡ plain.Binary (spec.across (expr_in left) (expr_in right)) operator (expr_in left) (expr_in right)) }
{
    let span = Span {
        start: left.span().start,
        end: right.span().end,
    };
    let (left, right) = boxed(alloc, left, right)?;
    Ok(Expr::Binary(span, operator, left, right))
}

impl<'a> Parser<'a> {
    /// An expression of the class whose tokens have at most `room` constructs around them, with the
    /// greatest number of constructs around one of them.
    #[cycle(expression)]
    pub fn expr(&mut self, class: u8, room: u8) -> Result<(Expr, u8), ParseFault>
        ensures read { Reads expr_in (spec.expr room class (ahead self.old)) result (ahead self.new) }
        ensures high { IfOk result (λ p. p.1 ≤ room) }
    {
        let (first, height) = self.operand(room)?;
        self.operators_up_to(class, 0, room, first, height)
    }

    /// An expression inside the construct that the last token opened.
    #[cycle(expression)]
    #[tactic(auto, using(crate::proofs::Turns::nested_none, crate::proofs::Turns::nested_some))]
    pub fn nested(&mut self, class: u8, room: u8) -> Result<(Expr, u8), ParseFault>
        ensures read { Reads expr_in (spec.nested room class (ahead self.old)) result (ahead self.new) }
        ensures high { IfOk result (λ p. p.1 < room) }
    {
        if room == 0 {
            return Err(ParseFault::TooDeep { span: self.last });
        }
        self.expr(class, room - 1)
    }

    /// An expression of the class, after one of the class `least` was read: the operators between the two that follow
    /// it, those that bind tightest first, with their right operands.
    #[cycle(expression)]
    fn operators_up_to(
        &mut self,
        class: u8,
        least: u8,
        room: u8,
        first: Expr,
        first_height: u8,
    ) -> Result<(Expr, u8), ParseFault>
        requires ordered { least ≤ class }
        requires high { first_height ≤ room }
        ensures read { (ts : Ahead) → spec.expr room least ts ≡ Ok (expr_in first, first_height, ahead self.old)
            → Reads expr_in (spec.expr room class ts) result (ahead self.new) }
        ensures high { IfOk result (λ p. p.1 ≤ room) }
    {
        let Some(below) = self.next_class(least, class) else {
            return Ok((first, first_height));
        };
        let (left, height) = self.operators(below, room, first, first_height)?;
        self.operators_up_to(class, below + 1, room, left, height)
    }

    /// The first operand with the operators just above the class that follow it, and their right operands.
    #[cycle(expression)]
    #[tactic(auto, using(crate::proofs::Turns::turns_of, crate::proofs::Turns::operators_end, crate::proofs::Turns::operators_turn))]
    fn operators(
        &mut self,
        class: u8,
        room: u8,
        first: Expr,
        first_height: u8,
    ) -> Result<(Expr, u8), ParseFault>
        requires { first_height ≤ room }
        ensures read { Reads expr_in (spec.operators (spec.nested room) room class (left (ahead self.old))
            (expr_in first) first_height (ahead self.old)) result (ahead self.new) }
        ensures high { IfOk result (λ p. p.1 ≤ room) }
    {
        let mut left = first;
        let mut height = first_height;
        for _turn in 0..self.rest.len() {
            let Some(operator) = self.operator(class) else {
                return Ok((left, height));
            };
            if room <= height {
                return Err(ParseFault::TooDeep {
                    span: self.next_span(),
                });
            }
            self.take_operator(operator);
            let (right, right_height) = self.nested(class, room)?;
            left = joined(self.alloc, left, operator, right)?;
            height = deeper(height, right_height) + 1;
            if !is_grouped(class) {
                return Ok((left, height));
            }
        }
        Ok((left, height))
    }

    /// A primary expression, or an operator with its operand.
    #[cycle(expression)]
    #[tactic(auto, unfolding(crate::specs::Reading::Expressions::operand, crate::specs::Reading::Expressions::prefixed, sc_tree::specs::View::expr_of))]
    fn operand(&mut self, room: u8) -> Result<(Expr, u8), ParseFault>
        ensures read { Reads expr_in (spec.operand (spec.nested room) room (ahead self.old)) result (ahead self.new) }
        ensures high { IfOk result (λ p. p.1 ≤ room) }
    {
        let Some(operator) = self.prefix() else {
            return self.primary(room);
        };
        self.take();
        let start = self.last.start;
        let (operand, height) = self.nested(0, room)?;
        let span = Span {
            start,
            end: operand.span().end,
        };
        let operand = Box::new(self.alloc, operand)?;
        Ok((Expr::Unary(span, operator, operand), height + 1))
    }

    /// The constant that the next token is.
    #[tactic(auto, unfolding(sc_tree::specs::View::expr_of))]
    fn constant(&self) -> Option<Expr>
        ensures { MatchOption result (constant_ahead (ahead self.now) ≡ None)
            (λ e. constant_ahead (ahead self.now) ≡ Some (expr_in e)) }
    {
        let span = self.next_span();
        if self.sees(Terminal::True) {
            return Some(Expr::Boolean(span, true));
        }
        if self.sees(Terminal::False) {
            return Some(Expr::Boolean(span, false));
        }
        if self.sees(Terminal::Void) {
            return Some(Expr::Void(span));
        }
        match self.integer() {
            Some(value) => Some(Expr::Integer(span, value)),
            None => None,
        }
    }

    /// A constant, an expression in parentheses, an object test or a chain of calls.
    #[cycle(expression)]
    fn primary(&mut self, room: u8) -> Result<(Expr, u8), ParseFault>
        ensures read { Reads expr_in (spec.primary (spec.nested room) room (ahead self.old)) result (ahead self.new) }
        ensures high { IfOk result (λ p. p.1 ≤ room) }
    {
        if let Some(constant) = self.constant() {
            self.take();
            return Ok((constant, 0));
        }
        if self.sees(Terminal::OpenParenthesis) {
            self.take();
            let (inner, height) = self.nested(TOP, room)?;
            let closed = self.closed_by(inner, Terminal::CloseParenthesis)?;
            return Ok((closed, height + 1));
        }
        if self.sees(Terminal::Attached) {
            self.take();
            return self.object_test(room);
        }
        self.chain(room)
    }
}
