//! The walk through the text of a class to the part that a rule fails at, with the names that are known there.

use crate::site::{Found, Part, Place, Search};
use crate::types::type_judged;
use sc_rules::{Context, Position, Role};
use sc_tree::{Expr, Head, Instr, Routine};
use sc_typing::{Entity, RoutineContext, add_formals, add_locals, block_type, blocks};

/// A walk through a routine, or through an invariant, to the part of the text at which a rule fails.
#[derive(Drop)]
pub(crate) struct Walk<'s> {
    pub search: Search<'s>,
    pub routine: RoutineContext<'s, 's>,
    /// The names that are known at the part that the walk has reached, or at the one that is found.
    pub names: Vec<Entity<'s>>,
}

impl<'s> Walk<'s> {
    /// Passes a routine: its precondition, its body and its postcondition.
    pub(crate) fn pass_routine(&mut self, text: &'s Routine) {
        let routine = &self.routine;
        let added = add_formals(routine.tables, routine.formals, &mut self.names);
        if added.is_err() {
            self.search.found = Found::OutOfMemory;
        }
        self.search
            .pass_clauses(Context::Require, &text.precondition);
        let known = self.names.len();
        if let Found::Nothing = self.search.found {
            let routine = &self.routine;
            let added = add_locals(
                routine.tables,
                routine.formals,
                &text.locals,
                &mut self.names,
            );
            if added.is_err() {
                self.search.found = Found::OutOfMemory;
            }
        }
        self.pass_instructions(&text.body);
        forget(self.search.found, &mut self.names, known);
        self.search
            .pass_clauses(Context::Ensure, &text.postcondition)
    }

    /// Passes instructions. After them the names in scope are as before.
    #[cycle(instructions)]
    fn pass_instructions(&mut self, instructions: &'s [Instr]) {
        for instruction in instructions {
            self.pass_instruction(instruction);
        }
    }

    #[cycle(instructions)]
    fn pass_instruction(&mut self, instruction: &'s Instr) {
        match instruction {
            Instr::If(_, condition, body, branches, other) => {
                self.pass_branch(body, condition);
                for branch in branches.iter() {
                    self.pass_branch(&branch.body, &branch.condition);
                }
                self.pass_instructions(other)
            }
            Instr::Loop(_, initial, until, body) => {
                self.pass_instructions(initial);
                self.search.spot.place = Place::Until;
                self.search.pass_condition(Context::Body, until);
                self.search.spot.place = Place::Instruction;
                self.pass_instructions(body)
            }
            Instr::Block(_, heads, body) => self.pass_block(heads, body),
            _ => self.search.pass_simple(instruction),
        }
    }

    /// Passes a separate block, none of whose names is in scope in its heads. After it they are out of scope.
    #[cycle(instructions)]
    fn pass_block(&mut self, heads: &'s [Head], body: &'s [Instr]) {
        let known = self.names.len();
        self.search.pass_heads(heads);
        for head in heads {
            self.add_block_name(known, head);
        }
        self.pass_instructions(body);
        forget(self.search.found, &mut self.names, known)
    }

    /// Passes a condition and the instructions under it, with the names that the condition binds.
    #[cycle(instructions)]
    fn pass_branch(&mut self, body: &'s [Instr], condition: &'s Expr) {
        let known = self.names.len();
        let span = condition.span();
        self.search
            .pass(Context::Body, span, Part::Condition(condition));
        self.search.spot.place = Place::Condition;
        self.pass_operands(condition);
        self.search.spot.place = Place::Instruction;
        self.pass_instructions(body);
        forget(self.search.found, &mut self.names, known)
    }

    /// Brings a name of a separate block into scope, with the type of its head and this number of names in scope
    /// around it.
    fn add_block_name(&mut self, known: usize, head: &'s Head) {
        if let Found::Nothing = self.search.found {
            let outer = self.names.get(..known).unwrap_or(&[]);
            let judged = self
                .routine
                .expression(Context::Body, Position::Plain, outer, &head.value);
            match type_judged(judged) {
                Ok(Ok(given)) => {
                    let added = self.names.push(Entity {
                        name: head.name.as_str(),
                        entity_type: block_type(blocks(&self.names), given),
                        role: Role::Block,
                    });
                    if added.is_err() {
                        self.search.found = Found::OutOfMemory
                    }
                }
                Ok(Err(_)) => self.search.found = Found::Faulty,
                Err(_) => self.search.found = Found::OutOfMemory,
            }
        }
    }

    /// Passes the condition of an `if`, or an operand of the `and then`s at its top. After it the names that it binds
    /// are in scope.
    fn pass_operands(&mut self, e: &'s Expr) {
        match e {
            Expr::Binary(span, operator, left, right) if operator.is_and_then() => {
                let part = Part::Binary(*operator, left, right);
                self.search.pass(Context::Body, *span, part);
                self.pass_operands(left);
                self.pass_operands(right)
            }
            Expr::ObjectTest(_, _, tested, _) => {
                self.search.pass_expression(Context::Body, tested);
                self.learn(e)
            }
            _ => self.search.pass_expression(Context::Body, e),
        }
    }

    /// Makes the name known that an object test gives.
    fn learn(&mut self, e: &'s Expr) {
        if let Found::Nothing = self.search.found {
            let judged = self.routine.condition(Context::Body, &mut self.names, e);
            match type_judged(judged) {
                Ok(Ok(_)) => {}
                Ok(Err(_)) => self.search.found = Found::Faulty,
                Err(_) => self.search.found = Found::OutOfMemory,
            }
        }
    }
}

/// Takes names out of scope after their part, down to this number, unless the part that is looked for was found there.
fn forget<'s>(found: Found<'_>, names: &mut Vec<Entity<'s>>, known: usize) {
    if let Found::Nothing = found {
        names.truncate(known);
    }
}
