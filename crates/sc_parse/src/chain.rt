//! Chains of calls with their actuals, and object tests of them (ECMA-367, 8.23 and 8.24).

ghost use Rattle.std.specs.Prelude.{◌≡◌, ◌≤◌, ◌<◌, IfOk};
ghost use Rattle.sc_parse.specs.Reading.Looks.{left};
ghost use Rattle.sc_parse.specs.Reading.Expressions as spec;
ghost use Rattle.sc_parse.specs.Reading.Reads.{ahead, expr_in, exprs_in, target_in, Reads};

use crate::cursor::Parser;
use crate::expression::{TOP, deeper};
use crate::fault::ParseFault;
use crate::list::{alone, fitted, with_last};
use sc_text::Terminal;
use sc_tree::{Call, Expr};

impl<'a> Parser<'a> {
    /// A name with actuals, `Current` or `Result`, and a call for each dot after it.
    #[cycle(expression)]
    #[tactic(auto, unfolding(crate::specs::Reading::Expressions::chain, crate::specs::Reading::Expressions::chain_head))]
    pub fn chain(&mut self, room: u8) -> Result<(Expr, u8), ParseFault>
        ensures read { Reads expr_in (spec.chain (spec.nested room) room (ahead self.old)) result (ahead self.new) }
        ensures high { IfOk result (λ p. p.1 ≤ room) }
    {
        if self.sees(Terminal::Current) {
            self.take();
            return self.calls(room, Expr::Current(self.last), 0);
        }
        if self.sees(Terminal::Result) {
            self.take();
            return self.calls(room, Expr::Result(self.last), 0);
        }
        let start = self.next_start();
        let (head, height) = self.calling(None, start, room)?;
        self.calls(room, head, height)
    }

    /// What was read before the dots that follow, with a call for each of them.
    #[cycle(expression)]
    #[tactic(auto, using(crate::proofs::Turns::calls_end, crate::proofs::Turns::calls_turn))]
    fn calls(&mut self, room: u8, first: Expr, first_height: u8) -> Result<(Expr, u8), ParseFault>
        requires { first_height ≤ room }
        ensures read { Reads expr_in (spec.calls (spec.nested room) room (left (ahead self.old)) (expr_in first)
            first_height (ahead self.old)) result (ahead self.new) }
        ensures high { IfOk result (λ p. p.1 ≤ room) }
    {
        let mut chain = first;
        let mut height = first_height;
        for _turn in 0..self.rest.len() {
            if !self.sees(Terminal::Dot) {
                return Ok((chain, height));
            }
            if room <= height {
                return Err(ParseFault::TooDeep {
                    span: self.next_span(),
                });
            }
            self.take();
            let start = chain.span().start;
            let target = Box::new(self.alloc, chain)?;
            let (call, call_height) = self.calling(Some(target), start, room)?;
            chain = call;
            height = deeper(height + 1, call_height);
        }
        Ok((chain, height))
    }

    /// A call of this target, which begins at `start`: a feature's name and its actuals.
    #[cycle(expression)]
    #[tactic(auto, unfolding(crate::specs::Reading::Expressions::calling))]
    fn calling(
        &mut self,
        target: Option<Box<Expr>>,
        start: u32,
        room: u8,
    ) -> Result<(Expr, u8), ParseFault>
        ensures read { Reads expr_in (spec.calling (spec.nested room) start (target_in target) (ahead self.old))
            result (ahead self.new) }
        ensures high { IfOk result (λ p. p.1 ≤ room) }
    {
        let name = self.name()?;
        let (actuals, height) = self.actuals(room)?;
        let call = Call {
            span: self.span_from(start),
            target,
            name,
            actuals,
        };
        Ok((Expr::Call(call), height))
    }

    /// The actuals in parentheses, if they are there.
    #[cycle(expression)]
    #[tactic(auto, unfolding(crate::specs::Reading::Expressions::actuals))]
    pub fn actuals(&mut self, room: u8) -> Result<(Vec<Expr>, u8), ParseFault>
        ensures read { Reads exprs_in (spec.actuals (spec.nested room) (ahead self.old)) result (ahead self.new) }
        ensures high { IfOk result (λ p. p.1 ≤ room) }
    {
        if !self.sees(Terminal::OpenParenthesis) {
            return Ok((Vec::new(self.alloc), 0));
        }
        self.take();
        let (exprs, height) = self.exprs(room)?;
        let actuals = self.closed_by(exprs, Terminal::CloseParenthesis)?;
        Ok((actuals, height + 1))
    }

    /// Expressions with a comma between each two.
    #[cycle(expression)]
    #[tactic(auto, using(crate::proofs::Turns::exprs_is, crate::proofs::Turns::exprs_end, crate::proofs::Turns::exprs_turn))]
    fn exprs(&mut self, room: u8) -> Result<(Vec<Expr>, u8), ParseFault>
        ensures read { Reads exprs_in (spec.exprs (spec.nested room) (ahead self.old)) result (ahead self.new) }
        ensures high { IfOk result (λ p. p.1 < room) }
    {
        let (first, first_height) = self.nested(TOP, room)?;
        let mut found = alone(self.alloc, first)?;
        let mut height = first_height;
        for _turn in 0..self.rest.len() {
            if !self.sees(Terminal::Comma) {
                return Ok((fitted(found), height));
            }
            self.take();
            let (expr, expr_height) = self.nested(TOP, room)?;
            found = with_last(found, expr)?;
            height = deeper(height, expr_height);
        }
        Ok((found, height))
    }

    /// What follows `attached`.
    #[cycle(expression)]
    #[tactic(auto, using(crate::proofs::Parts::object_test_is))]
    pub fn object_test(&mut self, room: u8) -> Result<(Expr, u8), ParseFault>
        ensures read { Reads expr_in (spec.object_test (spec.nested room) room (ahead self.old))
            result (ahead self.new) }
        ensures high { IfOk result (λ p. p.1 ≤ room) }
    {
        let start = self.last.start;
        let declared = self.tested_type()?;
        let (chain, height) = self.chain(room)?;
        let boxed = Box::new(self.alloc, chain)?;
        let (tested, name) = self.named_part(boxed)?;
        let span = self.span_from(start);
        Ok((Expr::ObjectTest(span, declared, tested, name), height))
    }
}
