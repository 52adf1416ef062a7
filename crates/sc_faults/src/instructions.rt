//! The faults of instructions.

ghost use Rattle.std.specs.Prelude.{◌≡◌, ◌++◌, OnOk, Some, map};
ghost use Rattle.sc_tree.specs.View.{branches_of, creation_call_of, expr_of, head_of, instr_of, instrs_of, variable_of};
ghost use Rattle.sc_rules.specs.Names.{variable_span};
ghost use Rattle.sc_typing.specs.Views.{entity_of, routine_in};
ghost use Rattle.sc_faults.specs.Internal.Listing as listing;
ghost use Rattle.sc_faults.specs.Internal.Adding.{AddsUnder};

use crate::calls::{created_type, creation_meaning, judge_created_tag, judge_made};
use crate::conditions::{add_clauses, add_condition, add_heads, add_if_condition};
use crate::expressions::{add_arguments, add_call, add_expression};
use crate::found::{add, add_alone};
use crate::scopes::{give_names, reserve_names};
use sc_check::judge_instruction;
use sc_rules::entity_types::EntityType;
use sc_rules::{Context, Fault, Position, Use};
use sc_text::Span;
use sc_tree::{Branch, CreationCall, Expr, Head, Instr, Variable};
use sc_typing::{CheckFault, Entity, RoutineContext, variable_span};
use std::alloc::AllocError;

/// Adds the faults of a creation by this call of an object for an entity of this type, which is at the place.
fn add_made<'s>(
    routine: &RoutineContext<'_, 's>,
    names: &[Entity<'s>],
    span: Span,
    created: Option<EntityType>,
    call: &'s CreationCall,
    faults: &mut Vec<Fault>,
) -> Result<(), AllocError>
    ensures { OnOk result (faults.new.items ≡ faults.old.items ++ listing.faults_in_creation (routine_in routine.now)
        (map entity_of names.now) span created (creation_call_of (Some call.now))) }
{
    add_alone(judge_created_tag(created, span), faults)?;
    let meaning = creation_meaning(routine, created, &call.name);
    let context = Context::Body;
    add_arguments(
        routine,
        context,
        names,
        created,
        &meaning,
        &call.actuals,
        faults,
    )?;
    let actuals = call.actuals.len();
    let judged = judge_made(routine, created, &meaning, &call.name, actuals);
    add_alone(judged, faults)
}

/// Adds the faults of a creation, as far as they don't depend on whether the entity may be assigned.
fn add_creation<'s>(
    routine: &RoutineContext<'_, 's>,
    names: &[Entity<'s>],
    variable: &Variable,
    call: &'s Option<CreationCall>,
    faults: &mut Vec<Fault>,
) -> Result<(), AllocError>
    ensures { OnOk result (faults.new.items ≡ faults.old.items ++ listing.faults_in_creation (routine_in routine.now)
        (map entity_of names.now) (variable_span (variable_of variable.now)) (listing.created_type
        (routine_in routine.now) (map entity_of names.now) (variable_of variable.now)) (creation_call_of call.now)) }
{
    match call {
        None => Ok(()),
        Some(call) => {
            let created = created_type(routine, names, variable);
            add_made(
                routine,
                names,
                variable_span(variable),
                created,
                call,
                faults,
            )
        }
    }
}

/// Adds the faults of the parts of an instruction that holds no others.
fn add_operands<'s>(
    routine: &RoutineContext<'_, 's>,
    names: &[Entity<'s>],
    instruction: &'s Instr,
    faults: &mut Vec<Fault>,
) -> Result<(), AllocError>
    ensures { OnOk result (faults.new.items ≡ faults.old.items ++ listing.faults_in_instr (routine_in routine.now)
        (map entity_of names.now) (instr_of instruction.now)) }
{
    match instruction {
        Instr::Assign(_, _, value) => {
            add_expression(
                routine,
                Context::Body,
                Position::Source,
                names,
                value,
                faults,
            )
        }
        Instr::Call(call) => add_call(
            routine,
            Context::Body,
            Use::Instruction,
            names,
            call,
            faults,
        ),
        Instr::Create(_, variable, call) => add_creation(routine, names, variable, call, faults),
        Instr::PrintText(_, _) => Ok(()),
        Instr::If(_, _, _, _, _) => Ok(()),
        Instr::Loop(_, _, _, _) => Ok(()),
        Instr::Check(_, _) => Ok(()),
        Instr::Block(_, _, _) => Ok(()),
    }
}

/// Adds the faults of an instruction that holds no others.
fn add_simple<'s>(
    routine: &RoutineContext<'_, 's>,
    names: &[Entity<'s>],
    instruction: &'s Instr,
    faults: &mut Vec<Fault>,
) -> Result<(), AllocError>
    ensures { OnOk result (faults.new.items ≡ faults.old.items ++ listing.faults_of_simple (routine_in routine.now)
        (map entity_of names.now) (instr_of instruction.now)) }
{
    let mut operands = Vec::new(routine.alloc);
    add_operands(routine, names, instruction, &mut operands)?;
    let mut known = Vec::from_slice(routine.alloc, names)?;
    let judged = judge_instruction(routine, &mut known, instruction);
    add(&judged, &mut operands, faults)
}

/// Adds the faults of an instruction.
#[cycle(instructions)]
fn add_instruction<'s>(
    routine: &RoutineContext<'_, 's>,
    names: &[Entity<'s>],
    instruction: &'s Instr,
    faults: &mut Vec<Fault>,
) -> Result<(), AllocError>
    ensures { OnOk result (faults.new.items ≡ faults.old.items ++ listing.faults_of_instr (routine_in routine.now)
        (map entity_of names.now) (instr_of instruction.now)) }
{
    match instruction {
        Instr::Assign(_, _, _) | Instr::PrintText(_, _) | Instr::Call(_) | Instr::Create(_, _, _) =>
            add_simple(routine, names, instruction, faults),
        Instr::If(_, condition, body, branches, other) => {
            add_branch(routine, names, body, condition, faults)?;
            add_branches(routine, names, branches, faults)?;
            add_instructions(routine, names, other, faults)
        }
        Instr::Loop(_, initial, until, body) => {
            add_instructions(routine, names, initial, faults)?;
            add_condition(routine, Context::Body, names, until, faults)?;
            add_instructions(routine, names, body, faults)
        }
        Instr::Check(_, clauses) => add_clauses(routine, Context::Check, names, clauses, faults),
        Instr::Block(_, heads, body) => add_block(routine, names, heads, body, faults),
    }
}

/// Adds the faults of a condition and of the instructions under it.
#[cycle(instructions)]
fn add_branch<'s>(
    routine: &RoutineContext<'_, 's>,
    names: &[Entity<'s>],
    body: &'s [Instr],
    condition: &'s Expr,
    faults: &mut Vec<Fault>,
) -> Result<(), AllocError>
    ensures { OnOk result (faults.new.items ≡ faults.old.items ++ listing.faults_of_branch (routine_in routine.now)
        (map entity_of names.now) (expr_of condition.now) (instrs_of body.now)) }
{
    add_if_condition(routine, names, condition, faults)?;
    let mut known = Vec::from_slice(routine.alloc, names)?;
    let given = give_names(routine, Context::Body, &mut known, condition);
    add_under(routine, given, &known, body, faults)
}

/// Adds the faults of a block's heads and of the instructions under them.
#[cycle(instructions)]
fn add_block<'s>(
    routine: &RoutineContext<'_, 's>,
    names: &[Entity<'s>],
    heads: &'s [Head],
    body: &'s [Instr],
    faults: &mut Vec<Fault>,
) -> Result<(), AllocError>
    ensures { OnOk result (faults.new.items ≡ faults.old.items ++ listing.faults_of_block (routine_in routine.now)
        (map entity_of names.now) (map head_of heads.now) (instrs_of body.now)) }
{
    add_heads(routine, names, heads, faults)?;
    let mut known = Vec::from_slice(routine.alloc, names)?;
    let given = reserve_names(routine, names, &mut known, heads);
    add_under(routine, given, &known, body, faults)
}

/// Adds the faults of instructions under a condition or the heads of a block, if what these give is known.
#[cycle(instructions)]
fn add_under<'s>(
    routine: &RoutineContext<'_, 's>,
    given: Result<(), CheckFault>,
    known: &[Entity<'s>],
    body: &'s [Instr],
    faults: &mut Vec<Fault>,
) -> Result<(), AllocError>
    ensures { AddsUnder (routine_in routine.now) given (map entity_of known.now) (instrs_of body.now) result
        faults.old.items faults.new.items }
{
    match given {
        Ok(()) => add_instructions(routine, known, body, faults),
        Err(CheckFault::Refused(_)) => Ok(()),
        Err(CheckFault::OutOfMemory) => Err(AllocError),
    }
}

/// Adds the faults of instructions, one after the other.
#[cycle(instructions)]
pub fn add_instructions<'s>(
    routine: &RoutineContext<'_, 's>,
    names: &[Entity<'s>],
    instructions: &'s [Instr],
    faults: &mut Vec<Fault>,
) -> Result<(), AllocError>
    ensures { OnOk result (faults.new.items ≡ faults.old.items ++ listing.faults_of_instrs (routine_in routine.now)
        (map entity_of names.now) (instrs_of instructions.now)) }
{
    for instruction in instructions {
        add_instruction(routine, names, instruction, faults)?;
    }
    Ok(())
}

/// Adds the faults of each `elseif` with its instructions.
#[cycle(instructions)]
fn add_branches<'s>(
    routine: &RoutineContext<'_, 's>,
    names: &[Entity<'s>],
    branches: &'s [Branch],
    faults: &mut Vec<Fault>,
) -> Result<(), AllocError>
    ensures { OnOk result (faults.new.items ≡ faults.old.items ++ listing.faults_of_branches (routine_in routine.now)
        (map entity_of names.now) (branches_of branches.now)) }
{
    for branch in branches {
        add_branch(routine, names, &branch.body, &branch.condition, faults)?;
    }
    Ok(())
}
