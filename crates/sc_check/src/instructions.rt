//! Instructions: the first rule that fails (ECMA-367, 8.17 and 8.24).

ghost use Rattle.std.specs.Prelude.{◌≡◌, OnOk, map};
ghost use Rattle.sc_tree.specs.View.{branches_of, expr_of, exprs_of, head_of, instr_of, instrs_of, name_of, target_of};
ghost use Rattle.sc_class.specs.SystemIn.{system_in};
ghost use Rattle.sc_rules.specs.JudgingText as judging_text;
ghost use Rattle.sc_typing.specs.Views.{routine_in, entity_of};
ghost use Rattle.sc_typing.specs.Judges.{Passes};
ghost use Rattle.sc_check.specs.Internal.Parts as parts;

use crate::instructions::assignment::{judge_assignment, judge_variable};
use crate::instructions::blocks::judge_heads;
use crate::instructions::conditions::{judge_clauses, judge_condition, judge_if_condition};
use crate::instructions::creation::judge_creation;
use sc_class::Tables;
use sc_rules::entity_types::{EntityType, conforms};
use sc_rules::{Context, Use};
use sc_tree::{Branch, Call, Expr, Head, Instr};
use sc_typing::{CheckFault, Entity, RoutineContext, variable_span};

pub mod assignment;
pub mod blocks;
pub mod conditions;
pub mod creation;

/// Whether what has a type conforms.
fn conforms_if_any(tables: &Tables, actual: Option<EntityType>, to: Option<EntityType>) -> bool
    ensures { result ≡ judging_text.conforms_if_any (system_in tables.now) actual to }
{
    match actual {
        None => true,
        Some(actual) => match to {
            None => true,
            Some(to) => conforms(tables, actual, to),
        },
    }
}

/// Judges a call that is an instruction.
fn judge_call<'s>(
    routine: &RoutineContext<'_, 's>,
    names: &[Entity<'s>],
    call: &Call,
) -> Result<(), CheckFault>
    ensures { Passes (parts.judge_command (routine_in routine.now) (map entity_of names.now)
        (target_of call.now.target) (name_of call.now.name) (exprs_of call.now.actuals.items)) result }
{
    routine.call(Context::Body, Use::Instruction, names, call)?;
    Ok(())
}

/// Judges an instruction. Names that it brings into scope leave it again.
#[cycle(instructions)]
pub fn judge_instruction<'s>(
    routine: &RoutineContext<'_, 's>,
    names: &mut Vec<Entity<'s>>,
    instruction: &'s Instr,
) -> Result<(), CheckFault>
    ensures judged { Passes (judging_text.judge_instr (routine_in routine.now) (map entity_of names.old.items)
        (instr_of instruction.now)) result }
    ensures kept { OnOk result (map entity_of names.new.items ≡ map entity_of names.old.items) }
{
    match instruction {
        Instr::Assign(_, variable, value) => judge_assignment(routine, names, variable, value),
        Instr::PrintText(_, _) => Ok(()),
        Instr::Call(call) => judge_call(routine, names, call),
        Instr::Create(_, variable, call) => {
            let created = judge_variable(routine, names, variable)?;
            judge_creation(routine, names, variable_span(variable), created, call)
        }
        Instr::If(_, condition, body, branches, other) => {
            judge_branch(routine, names, body, condition)?;
            judge_branches(routine, names, branches)?;
            judge_instructions(routine, names, other)
        }
        Instr::Loop(_, initial, until, body) => {
            judge_instructions(routine, names, initial)?;
            judge_condition(routine, Context::Body, names, until)?;
            judge_instructions(routine, names, body)
        }
        Instr::Check(_, clauses) => judge_clauses(routine, Context::Check, names, clauses),
        Instr::Block(_, heads, body) => judge_block(routine, names, heads, body),
    }
}

/// Judges the instructions under a condition, with the names that the condition binds.
#[cycle(instructions)]
fn judge_branch<'s>(
    routine: &RoutineContext<'_, 's>,
    names: &mut Vec<Entity<'s>>,
    body: &'s [Instr],
    condition: &'s Expr,
) -> Result<(), CheckFault>
    ensures judged { Passes (parts.judge_branch (routine_in routine.now) (map entity_of names.old.items)
        (expr_of condition.now) (instrs_of body.now)) result }
    ensures kept { OnOk result (map entity_of names.new.items ≡ map entity_of names.old.items) }
{
    let known = names.len();
    judge_if_condition(routine, names, condition)?;
    judge_instructions(routine, names, body)?;
    names.truncate(known);
    Ok(())
}

/// Judges the heads of a block, then its body, with their names.
#[cycle(instructions)]
fn judge_block<'s>(
    routine: &RoutineContext<'_, 's>,
    names: &mut Vec<Entity<'s>>,
    heads: &'s [Head],
    body: &'s [Instr],
) -> Result<(), CheckFault>
    ensures judged { Passes (parts.judge_block (routine_in routine.now) (map entity_of names.old.items)
        (map head_of heads.now) (instrs_of body.now)) result }
    ensures kept { OnOk result (map entity_of names.new.items ≡ map entity_of names.old.items) }
{
    let outer = names.len();
    judge_heads(routine, names, heads)?;
    judge_instructions(routine, names, body)?;
    names.truncate(outer);
    Ok(())
}

/// Judges instructions, one after the other.
#[cycle(instructions)]
#[tactic(auto, unfolding(sc_rules::specs::JudgingText::judge_instr))]
pub fn judge_instructions<'s>(
    routine: &RoutineContext<'_, 's>,
    names: &mut Vec<Entity<'s>>,
    instructions: &'s [Instr],
) -> Result<(), CheckFault>
    ensures judged { Passes (judging_text.judge_instrs (routine_in routine.now) (map entity_of names.old.items)
        (instrs_of instructions.now)) result }
    ensures kept { OnOk result (map entity_of names.new.items ≡ map entity_of names.old.items) }
{
    for instruction in instructions {
        judge_instruction(routine, names, instruction)?;
    }
    Ok(())
}

/// Judges each `elseif` with its instructions.
#[cycle(instructions)]
#[tactic(auto, unfolding(sc_rules::specs::JudgingText::judge_instr))]
fn judge_branches<'s>(
    routine: &RoutineContext<'_, 's>,
    names: &mut Vec<Entity<'s>>,
    branches: &'s [Branch],
) -> Result<(), CheckFault>
    ensures judged { Passes (judging_text.judge_branches (routine_in routine.now) (map entity_of names.old.items)
        (branches_of branches.now)) result }
    ensures kept { OnOk result (map entity_of names.new.items ≡ map entity_of names.old.items) }
{
    for branch in branches {
        judge_branch(routine, names, &branch.body, &branch.condition)?;
    }
    Ok(())
}
