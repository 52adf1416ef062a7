//! Clauses and instructions in canonical text.

ghost use Rattle.std.specs.Prelude.{◌≡◌, ◌+◌, ◌++◌, ◌∷◌, [], map, string_bytes, IfOk, OnOk};
ghost use Rattle.sc_tree.specs.Bare.{nowhere};
ghost use Rattle.sc_tree.specs.Canonical.Layout.{line};
ghost use Rattle.sc_tree.specs.Canonical.Expressions.{expr_parts};
ghost use Rattle.sc_tree.specs.Canonical.Instructions.{assertion_lines, branches_lines, clause_line, clauses_lines, creation_call_parts, else_lines, guard_line, head_parts, heads_parts, instr_lines, instrs_lines, reservation_line, tag_parts, variable_part};
ghost use Rattle.sc_tree.specs.Plain.{Assign, CallRoutine, Create, PrintText};
ghost use Rattle.sc_tree.specs.Internal.Printer.{PutsLine, PutsLines, PutsPart, PutsParts};
ghost use Rattle.sc_tree.specs.View.{branches_of, clause_of, creation_call_of, expr_of, exprs_of, head_of, instr_of, instrs_of, name_of, tag_of, target_of, variable_of};

use crate::expression::{Call, Expr, Name};
use crate::instruction::{Branch, Clause, CreationCall, Head, Instr, Variable};
use crate::print::Printer;
use sc_text::Terminal;
use std::alloc::AllocError;

/// One tab more. No memory holds a line of more tabs than can be counted.
pub fn deeper(indent: usize) -> Result<usize, AllocError>
    ensures { IfOk result (λ n. n ≡ indent + 1) }
{
    indent.checked_add(1).ok_or(AllocError)
}

impl Printer {
    /// Writes a clause's tag and its colon, if it has one.
    fn tag(&mut self, tag: &Option<Name>) -> Result<(), AllocError>
        ensures { OnOk result (PutsParts self.old self.new (tag_parts (tag_of tag.now))) }
    {
        let Some(name) = tag else {
            return Ok(());
        };
        self.name(name)?;
        self.word(Terminal::Colon)
    }

    /// Writes a clause on a line of its own, with a semicolon unless it is the last of its list.
    #[tactic(auto, using(crate::proofs::PrintingLines::putting), unfolding(crate::specs::Canonical::Instructions::clause_line, crate::specs::View::clause_of))]
    fn clause(&mut self, indent: usize, clause: &Clause, is_last: bool) -> Result<(), AllocError>
        ensures { OnOk result (PutsLine self.old self.new (clause_line indent (clause_of clause.now) is_last)) }
    {
        self.begin_line(indent)?;
        self.tag(&clause.tag)?;
        self.expr(&clause.condition)?;
        if !is_last {
            self.word(Terminal::Semicolon)?;
        }
        self.end_line()
    }

    /// Clauses, each on a line of its own.
    fn clauses(&mut self, indent: usize, clauses: &[Clause]) -> Result<(), AllocError>
        ensures { OnOk result (PutsLines self.old self.new (clauses_lines indent (map clause_of clauses.now))) }
    {
        for (i, clause) in clauses.iter().enumerate() {
            self.clause(indent, clause, i + 1 == clauses.len())?;
        }
        Ok(())
    }

    /// Writes the clauses under `require`, `ensure` or `invariant`, if there are any.
    pub fn assertion(
        &mut self,
        indent: usize,
        keyword: Terminal,
        clauses: &[Clause],
    ) -> Result<(), AllocError>
        ensures { OnOk result (PutsLines self.old self.new
            (assertion_lines indent keyword (map clause_of clauses.now))) }
    {
        if clauses.is_empty() {
            return Ok(());
        }
        self.word_line(indent, keyword)?;
        self.clauses(deeper(indent)?, clauses)
    }

    /// What an assignment or a creation changes.
    fn variable(&mut self, variable: &Variable) -> Result<(), AllocError>
        ensures { OnOk result (PutsPart self.old self.new (variable_part (variable_of variable.now))) }
    {
        match variable {
            Variable::Named(name) => self.name(name),
            Variable::Result(_) => self.word(Terminal::Result),
        }
    }

    /// Writes the creation's dot and call, if it has one.
    fn creation_call(&mut self, call: &Option<CreationCall>) -> Result<(), AllocError>
        ensures { OnOk result (PutsParts self.old self.new (creation_call_parts (creation_call_of call.now))) }
    {
        let Some(call) = call else {
            return Ok(());
        };
        self.word(Terminal::Dot)?;
        self.name(&call.name)?;
        self.actuals(&call.actuals)
    }

    /// A head of a separate block.
    #[tactic(auto, using(crate::proofs::PrintingLines::putting), unfolding(crate::specs::Canonical::Instructions::head_parts, crate::specs::View::head_of))]
    fn head(&mut self, head: &Head) -> Result<(), AllocError>
        ensures { OnOk result (PutsParts self.old self.new (head_parts (head_of head.now))) }
    {
        self.expr(&head.value)?;
        self.word(Terminal::As)?;
        self.name(&head.name)
    }

    /// Heads with commas between them.
    #[tactic(auto, using(crate::proofs::PrintingLines::putting))]
    fn heads(&mut self, heads: &[Head]) -> Result<(), AllocError>
        ensures { OnOk result (PutsParts self.old self.new (heads_parts (map head_of heads.now))) }
    {
        let [first, rest @ ..] = heads else {
            return Ok(());
        };
        self.head(first)?;
        for head in rest {
            self.word(Terminal::Comma)?;
            self.head(head)?;
        }
        Ok(())
    }

    /// An assignment on a line of its own.
    #[tactic(auto, using(crate::proofs::PrintingLines::putting), unfolding(crate::specs::Canonical::Instructions::instr_lines))]
    fn assignment(
        &mut self,
        indent: usize,
        variable: &Variable,
        value: &Expr,
    ) -> Result<(), AllocError>
        ensures { OnOk result (PutsLines self.old self.new
            (instr_lines indent (Assign nowhere (variable_of variable.now) (expr_of value.now)))) }
    {
        self.begin_line(indent)?;
        self.variable(variable)?;
        self.word(Terminal::Becomes)?;
        self.expr(value)?;
        self.end_line()
    }

    /// `print` of a manifest string on a line of its own.
    #[tactic(auto, using(crate::proofs::PrintingLines::putting), unfolding(crate::specs::Canonical::Instructions::instr_lines))]
    fn print_text(&mut self, indent: usize, text: &String) -> Result<(), AllocError>
        ensures { OnOk result (PutsLines self.old self.new
            (instr_lines indent (PrintText nowhere (string_bytes text.now)))) }
    {
        self.begin_line(indent)?;
        self.identifier(b"print")?;
        self.word(Terminal::OpenParenthesis)?;
        self.manifest_string(text)?;
        self.word(Terminal::CloseParenthesis)?;
        self.end_line()
    }

    /// A call of a procedure on a line of its own.
    #[tactic(auto, using(crate::proofs::PrintingLines::putting), unfolding(crate::specs::Canonical::Instructions::instr_lines))]
    fn routine_call(&mut self, indent: usize, call: &Call) -> Result<(), AllocError>
        ensures { OnOk result (PutsLines self.old self.new
            (instr_lines indent (CallRoutine nowhere
            (target_of call.now.target) (name_of call.now.name) (exprs_of call.now.actuals.items)))) }
    {
        self.begin_line(indent)?;
        self.call(call)?;
        self.end_line()
    }

    /// A creation on a line of its own.
    #[tactic(auto, using(crate::proofs::PrintingLines::putting), unfolding(crate::specs::Canonical::Instructions::instr_lines))]
    fn creation(
        &mut self,
        indent: usize,
        variable: &Variable,
        call: &Option<CreationCall>,
    ) -> Result<(), AllocError>
        ensures { OnOk result (PutsLines self.old self.new
            (instr_lines indent (Create nowhere
            (record { variable = variable_of variable.now; call = creation_call_of call.now })))) }
    {
        self.begin_line(indent)?;
        self.word(Terminal::Create)?;
        self.variable(variable)?;
        self.creation_call(call)?;
        self.end_line()
    }

    /// The condition of an `if` or an `elseif`.
    #[tactic(auto, using(crate::proofs::PrintingLines::putting))]
    fn guard(
        &mut self,
        indent: usize,
        keyword: Terminal,
        condition: &Expr,
    ) -> Result<(), AllocError>
        ensures { OnOk result (PutsLine self.old self.new (guard_line indent keyword (expr_of condition.now))) }
    {
        self.begin_line(indent)?;
        self.word(keyword)?;
        self.expr(condition)?;
        self.word(Terminal::Then)?;
        self.end_line()
    }

    /// The condition to leave a loop.
    fn condition(&mut self, indent: usize, condition: &Expr) -> Result<(), AllocError>
        ensures { OnOk result (PutsLine self.old self.new (line indent (expr_parts (expr_of condition.now)))) }
    {
        self.begin_line(indent)?;
        self.expr(condition)?;
        self.end_line()
    }

    /// Writes `else` and its instructions, if there are any.
    fn other(&mut self, indent: usize, other: &[Instr]) -> Result<(), AllocError>
        ensures { OnOk result (PutsLines self.old self.new (else_lines indent (instrs_of other.now))) }
    {
        if other.is_empty() {
            return Ok(());
        }
        self.word_line(indent, Terminal::Else)
    }

    /// The line that a separate block begins with.
    #[tactic(auto, using(crate::proofs::PrintingLines::putting))]
    fn reservation(&mut self, indent: usize, heads: &[Head]) -> Result<(), AllocError>
        ensures { OnOk result (PutsLine self.old self.new (reservation_line indent (map head_of heads.now))) }
    {
        self.begin_line(indent)?;
        self.word(Terminal::Separate)?;
        self.heads(heads)?;
        self.word(Terminal::Do)?;
        self.end_line()
    }

    /// An instruction, from its first line to its last.
    #[cycle(instructions)]
    #[tactic(auto, using(crate::proofs::PrintingLines::putting), unfolding(crate::specs::Canonical::Instructions::instr_lines, crate::specs::View::instr_of))]
    fn instr(&mut self, indent: usize, instr: &Instr) -> Result<(), AllocError>
        ensures { OnOk result (PutsLines self.old self.new (instr_lines indent (instr_of instr.now))) }
    {
        let inner = deeper(indent)?;
        match instr {
            Instr::Assign(_, variable, value) => self.assignment(indent, variable, value),
            Instr::PrintText(_, text) => self.print_text(indent, text),
            Instr::Call(call) => self.routine_call(indent, call),
            Instr::Create(_, variable, call) => self.creation(indent, variable, call),
            Instr::If(_, condition, body, branches, other) => {
                self.guard(indent, Terminal::If, condition)?;
                self.instrs(inner, body)?;
                self.branches(indent, branches)?;
                self.other(indent, other)?;
                self.instrs(inner, other)?;
                self.word_line(indent, Terminal::End)
            }
            Instr::Loop(_, initial, condition, body) => {
                self.word_line(indent, Terminal::From)?;
                self.instrs(inner, initial)?;
                self.word_line(indent, Terminal::Until)?;
                self.condition(inner, condition)?;
                self.word_line(indent, Terminal::Loop)?;
                self.instrs(inner, body)?;
                self.word_line(indent, Terminal::End)
            }
            Instr::Check(_, clauses) => {
                self.word_line(indent, Terminal::Check)?;
                self.clauses(inner, clauses)?;
                self.word_line(indent, Terminal::End)
            }
            Instr::Block(_, heads, body) => {
                self.reservation(indent, heads)?;
                self.instrs(inner, body)?;
                self.word_line(indent, Terminal::End)
            }
        }
    }

    /// Instructions one after the other.
    #[cycle(instructions)]
    #[tactic(auto, using(crate::proofs::PrintingLines::putting), unfolding(crate::specs::Canonical::Instructions::instr_lines))]
    pub fn instrs(&mut self, indent: usize, instrs: &[Instr]) -> Result<(), AllocError>
        ensures { OnOk result (PutsLines self.old self.new (instrs_lines indent (instrs_of instrs.now))) }
    {
        for instr in instrs {
            self.instr(indent, instr)?;
        }
        Ok(())
    }

    /// Writes each `elseif` and its instructions.
    #[cycle(instructions)]
    #[tactic(auto, using(crate::proofs::PrintingLines::putting), unfolding(crate::specs::Canonical::Instructions::instr_lines))]
    fn branches(&mut self, indent: usize, branches: &[Branch]) -> Result<(), AllocError>
        ensures { OnOk result (PutsLines self.old self.new (branches_lines indent (branches_of branches.now))) }
    {
        for branch in branches {
            self.guard(indent, Terminal::Elseif, &branch.condition)?;
            self.instrs(deeper(indent)?, &branch.body)?;
        }
        Ok(())
    }
}
