//! Instructions (ECMA-367, 8.9, 8.17, 8.20, 8.22 and 8.23), and separate blocks.

ghost use Rattle.std.specs.Prelude.{◌≡◌, MatchOption};
ghost use Rattle.sc_tree.specs.declared.expression.Expr.TheVariants as variants;
ghost use Rattle.sc_tree.specs.Plain.{no_branches};
ghost use Rattle.sc_parse.specs.Reading.Instructions as spec;
ghost use Rattle.sc_parse.specs.Reading.Looks.{begin, left, past};
ghost use Rattle.sc_parse.specs.Reading.Reads.{ahead, variable_in, creation_call_in, creation_call_ahead, clauses_in, expr_in, head_in, heads_in, instr_in, instrs_in, branch_in, branches_in, inside_ahead, condition_ahead, other_ahead, IsNoCall, Gives, Reads, Takes};

use crate::cursor::Parser;
use crate::expression::TOP;
use crate::fault::ParseFault;
use crate::list::{alone, fitted, with_last};
use sc_text::{Span, Terminal};
use sc_tree::{Branch, Call, Clause, CreationCall, Expr, Head, Instr, Variable};

/// The call that an expression is, if it is one.
fn call_of(expr: Expr) -> Option<Call>
    ensures { MatchOption result (IsNoCall expr) (λ call. expr ≡ variants.Call call) }
{
    match expr {
        Expr::Call(call) => Some(call),
        _ => None,
    }
}

impl<'a> Parser<'a> {
    /// Instructions whose tokens have at most `room` constructs around them.
    #[cycle(instructions)]
    #[tactic(auto, using(crate::proofs::Turns::instrs_begin, crate::proofs::Turns::instrs_end, crate::proofs::Turns::instrs_turn))]
    pub fn instructions(&mut self, room: u8) -> Result<Vec<Instr>, ParseFault>
        ensures { Gives instrs_in (spec.instrs room (ahead self.old)) result (ahead self.new) }
    {
        self.skip_semicolons();
        let mut found = Vec::new(self.alloc);
        for _turn in 0..self.rest.len() {
            if !self.begins_instruction() {
                return Ok(fitted(found));
            }
            let instr = self.instruction(room)?;
            found = with_last(found, instr)?;
            self.skip_semicolons();
        }
        Ok(found)
    }

    /// Instructions inside the construct whose part the last token began.
    #[cycle(instructions)]
    #[tactic(auto, using(crate::proofs::Turns::inside_none, crate::proofs::Turns::inside_some))]
    fn instructions_inside(&mut self, room: u8) -> Result<Vec<Instr>, ParseFault>
        ensures { Gives instrs_in (spec.nested_instrs room (ahead self.old)) result (ahead self.new) }
    {
        if room == 0 {
            return Err(ParseFault::TooDeep { span: self.last });
        }
        self.instructions(room - 1)
    }

    /// Instructions up to this word.
    #[cycle(instructions)]
    fn instructions_up_to(&mut self, word: Terminal, room: u8) -> Result<Vec<Instr>, ParseFault>
        ensures { Gives instrs_in (inside_ahead room word (ahead self.old)) result (ahead self.new) }
    {
        let found = self.instructions_inside(room)?;
        self.closed_by(found, word)
    }

    /// The instruction that begins here.
    #[cycle(instructions)]
    #[tactic(auto, unfolding(crate::specs::Reading::Instructions::instr))]
    fn instruction(&mut self, room: u8) -> Result<Instr, ParseFault>
        ensures { Gives instr_in (spec.instr room (spec.nested_instrs room) (ahead self.old)) result (ahead self.new) }
    {
        if self.sees(Terminal::If) {
            self.take();
            return self.conditional(room);
        }
        if self.sees(Terminal::From) {
            self.take();
            return self.iteration(room);
        }
        if self.sees(Terminal::Check) {
            self.take();
            return self.checking(room);
        }
        if self.sees(Terminal::Create) {
            self.take();
            return self.creation(room);
        }
        if self.sees(Terminal::Separate) {
            self.take();
            return self.block(room);
        }
        if self.assigns() {
            return self.assignment(room);
        }
        if self.prints() {
            return self.printing(room);
        }
        self.routine_call(room)
    }

    /// What an assignment or a creation changes.
    #[tactic(auto, unfolding(crate::specs::Reading::Instructions::variable))]
    fn variable(&mut self) -> Result<Variable, ParseFault>
        ensures { Takes variable_in (spec.variable (ahead self.old)) result (ahead self.new) }
    {
        if self.sees(Terminal::Result) {
            self.take();
            return Ok(Variable::Result(self.last));
        }
        let name = self.name()?;
        Ok(Variable::Named(name))
    }

    /// A variable, and the value that it is assigned.
    #[tactic(auto, unfolding(crate::specs::Reading::Instructions::assignment))]
    fn assignment(&mut self, room: u8) -> Result<Instr, ParseFault>
        ensures { Gives instr_in (spec.assignment room (spec.nested_instrs room) (ahead self.old))
            result (ahead self.new) }
    {
        let start = self.next_start();
        let variable = self.variable()?;
        self.expect(Terminal::Becomes)?;
        let (value, _) = self.expr(TOP, room)?;
        let span = Span {
            start,
            end: value.span().end,
        };
        Ok(Instr::Assign(span, variable, value))
    }

    /// `print` of a manifest string.
    #[tactic(auto, unfolding(crate::specs::Reading::Instructions::printing))]
    fn printing(&mut self, room: u8) -> Result<Instr, ParseFault>
        ensures { Gives instr_in (spec.printing room (spec.nested_instrs room) (begin (ahead self.old))
            (past (past (ahead self.old)))) result (ahead self.new) }
    {
        let start = self.next_start();
        self.take();
        self.take();
        if room == 0 {
            return Err(ParseFault::TooDeep { span: self.last });
        }
        let text = self.text()?;
        self.expect(Terminal::CloseParenthesis)?;
        Ok(Instr::PrintText(self.span_from(start), text))
    }

    /// A chain of calls that ends in a call.
    #[tactic(auto, unfolding(crate::specs::Reading::Instructions::routine_call))]
    fn routine_call(&mut self, room: u8) -> Result<Instr, ParseFault>
        ensures { Gives instr_in (spec.routine_call room (spec.nested_instrs room) (ahead self.old))
            result (ahead self.new) }
    {
        let (chain, _) = self.chain(room)?;
        match call_of(chain) {
            Some(call) => Ok(Instr::Call(call)),
            None => Err(ParseFault::NotInGrammar {
                span: self.next_span(),
            }),
        }
    }

    /// The call after what is created, if there is one.
    fn creation_call(&mut self, room: u8) -> Result<Option<CreationCall>, ParseFault>
        ensures { Gives creation_call_in (creation_call_ahead room (ahead self.old)) result (ahead self.new) }
    {
        if !self.sees(Terminal::Dot) {
            return Ok(None);
        }
        if room == 0 {
            return Err(ParseFault::TooDeep {
                span: self.next_span(),
            });
        }
        self.take();
        let name = self.name()?;
        let (actuals, _) = self.actuals(room)?;
        Ok(Some(CreationCall { name, actuals }))
    }

    /// What follows `create`.
    fn creation(&mut self, room: u8) -> Result<Instr, ParseFault>
        ensures { Gives instr_in (spec.creation room (spec.nested_instrs room) (ahead self.old))
            result (ahead self.new) }
    {
        let start = self.last.start;
        let variable = self.variable()?;
        let call = self.creation_call(room)?;
        Ok(Instr::Create(self.span_from(start), variable, call))
    }

    /// A condition inside the construct that it belongs to, up to this word.
    fn condition(&mut self, word: Terminal, room: u8) -> Result<Expr, ParseFault>
        ensures { Gives expr_in (condition_ahead room word (ahead self.old)) result (ahead self.new) }
    {
        let (condition, _) = self.nested(TOP, room)?;
        self.closed_by(condition, word)
    }

    /// A condition and the instructions under it.
    #[cycle(instructions)]
    fn branch(&mut self, room: u8) -> Result<Branch, ParseFault>
        ensures { Gives branch_in (spec.branch room (spec.nested_instrs room) (ahead self.old))
            result (ahead self.new) }
    {
        let condition = self.condition(Terminal::Then, room)?;
        let body = self.instructions_inside(room)?;
        Ok(Branch { condition, body })
    }

    /// Each `elseif` with the instructions under it.
    #[cycle(instructions)]
    #[tactic(auto, using(crate::proofs::Turns::branches_begin, crate::proofs::Turns::branches_end, crate::proofs::Turns::branches_turn))]
    fn branches(&mut self, room: u8) -> Result<Vec<Branch>, ParseFault>
        ensures { Gives branches_in (spec.branches room (spec.nested_instrs room) (left (ahead self.old)) no_branches 0
            (ahead self.old)) result (ahead self.new) }
    {
        let mut found = Vec::new(self.alloc);
        for _turn in 0..self.rest.len() {
            if !self.sees(Terminal::Elseif) {
                return Ok(found);
            }
            self.take();
            let branch = self.branch(room)?;
            found = with_last(found, branch)?;
        }
        Ok(found)
    }

    /// The instructions under `else`, if there is one, up to the `end` of the construct.
    #[cycle(instructions)]
    fn other(&mut self, room: u8) -> Result<Vec<Instr>, ParseFault>
        ensures { Gives instrs_in (other_ahead room (ahead self.old)) result (ahead self.new) }
    {
        if self.sees(Terminal::Else) {
            self.take();
            return self.instructions_up_to(Terminal::End, room);
        }
        self.expect(Terminal::End)?;
        Ok(Vec::new(self.alloc))
    }

    /// What follows `if`, up to its `end`.
    #[cycle(instructions)]
    fn conditional(&mut self, room: u8) -> Result<Instr, ParseFault>
        ensures { Gives instr_in (spec.conditional room (spec.nested_instrs room) (ahead self.old))
            result (ahead self.new) }
    {
        let start = self.last.start;
        let first = self.branch(room)?;
        let branches = self.branches(room)?;
        let other = self.other(room)?;
        let span = self.span_from(start);
        Ok(Instr::If(span, first.condition, first.body, branches, other))
    }

    /// What follows `from`, up to its `end`.
    #[cycle(instructions)]
    fn iteration(&mut self, room: u8) -> Result<Instr, ParseFault>
        ensures { Gives instr_in (spec.iteration room (spec.nested_instrs room) (ahead self.old))
            result (ahead self.new) }
    {
        let start = self.last.start;
        let initial = self.instructions_up_to(Terminal::Until, room)?;
        let condition = self.condition(Terminal::Loop, room)?;
        let body = self.instructions_up_to(Terminal::End, room)?;
        let span = self.span_from(start);
        Ok(Instr::Loop(span, initial, condition, body))
    }

    /// The clauses of a `check`.
    #[tactic(auto, using(crate::proofs::Turns::clauses_none, crate::proofs::Turns::clauses_some), unfolding(crate::specs::Reading::Instructions::checked))]
    fn checked(&mut self, room: u8) -> Result<Vec<Clause>, ParseFault>
        ensures { Gives clauses_in (spec.checked room (spec.nested_instrs room) (ahead self.old))
            result (ahead self.new) }
    {
        if !self.begins_expression() && !self.sees(Terminal::Semicolon) {
            return Ok(Vec::new(self.alloc));
        }
        if room == 0 {
            return Err(ParseFault::TooDeep {
                span: self.next_span(),
            });
        }
        self.clauses(room - 1)
    }

    /// What follows `check`, up to its `end`.
    #[tactic(auto, unfolding(crate::specs::Reading::Instructions::checking))]
    fn checking(&mut self, room: u8) -> Result<Instr, ParseFault>
        ensures { Gives instr_in (spec.checking room (spec.nested_instrs room) (ahead self.old))
            result (ahead self.new) }
    {
        let start = self.last.start;
        let checked = self.checked(room)?;
        let clauses = self.closed_by(checked, Terminal::End)?;
        Ok(Instr::Check(self.span_from(start), clauses))
    }

    /// A chain of calls inside the block that the last token opened.
    #[tactic(auto, using(crate::proofs::Turns::chain_none, crate::proofs::Turns::chain_some))]
    fn nested_chain(&mut self, room: u8) -> Result<(Expr, u8), ParseFault>
        ensures { Reads expr_in (spec.nested_chain room (ahead self.old)) result (ahead self.new) }
    {
        if room == 0 {
            return Err(ParseFault::TooDeep { span: self.last });
        }
        self.chain(room - 1)
    }

    /// What a block reserves, with its name there.
    fn head(&mut self, room: u8) -> Result<Head, ParseFault>
        ensures { Gives head_in (spec.head room (spec.nested_instrs room) (ahead self.old)) result (ahead self.new) }
    {
        let (chain, _) = self.nested_chain(room)?;
        let (value, name) = self.named_part(chain)?;
        Ok(Head { value, name })
    }

    /// A block's heads, with a comma between each two.
    fn heads(&mut self, room: u8) -> Result<Vec<Head>, ParseFault>
        ensures { Gives heads_in (spec.heads room (spec.nested_instrs room) (ahead self.old)) result (ahead self.new) }
    {
        let first = self.head(room)?;
        let mut found = alone(self.alloc, first)?;
        for _turn in 0..self.rest.len() {
            if !self.sees(Terminal::Comma) {
                return Ok(found);
            }
            self.take();
            let head = self.head(room)?;
            found = with_last(found, head)?;
        }
        Ok(found)
    }

    /// What follows `separate`, up to its `end`.
    #[cycle(instructions)]
    fn block(&mut self, room: u8) -> Result<Instr, ParseFault>
        ensures { Gives instr_in (spec.block room (spec.nested_instrs room) (ahead self.old)) result (ahead self.new) }
    {
        let start = self.last.start;
        let reserved = self.heads(room)?;
        let heads = self.closed_by(reserved, Terminal::Do)?;
        let body = self.instructions_up_to(Terminal::End, room)?;
        Ok(Instr::Block(self.span_from(start), heads, body))
    }
}
