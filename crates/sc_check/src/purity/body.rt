//! What is done in instructions that bears on purity.

ghost use Rattle.std.specs.Prelude.{◌≡◌, false, map, IfErr, IfOk, OnOk};
ghost use Rattle.sc_tree.specs.View.{branches_of, clause_of, creation_call_of, expr_of, exprs_of, head_of, instr_of, instrs_of, name_of, target_of};
ghost use Rattle.sc_rules.specs.JudgingPurity as spec;
ghost use Rattle.sc_rules.specs.Positions as positions;
ghost use Rattle.sc_rules.specs.declared.position.Context.TheVariants.{Body};
ghost use Rattle.sc_typing.specs.Views.{routine_in, entity_of};
ghost use Rattle.sc_check.specs.purity.Internal.Effects.{Adds, effects_in_call, effects_of_create, effects_of_branch, effects_of_heads_and_body};
ghost use Rattle.sc_typing.specs.declared.fault.CheckFault.TheVariants.{OutOfMemory};

use crate::purity::effects::{Effect, add_named, add_side_effect_if, is_to_attribute};
use crate::purity::walk::{add_actuals, add_condition, add_expression, add_target};
use sc_rules::{Context, Position, Role};
use sc_tree::{Branch, Call, Clause, CreationCall, Expr, Head, Instr};
use sc_typing::{CheckFault, Entity, RoutineContext, block_type, blocks, judged_type};
use std::alloc::Global;

/// A copy of the names that are known.
fn copied<'s>(alloc: Global, names: &[Entity<'s>]) -> Result<Vec<Entity<'s>>, CheckFault>
    ensures names { IfOk result (λ copy. copy.items ≡ names.now) }
    ensures memory { IfErr result (λ e. e ≡ OutOfMemory) }
{
    Ok(Vec::from_slice(alloc, names)?)
}

/// Adds what is done in a call that is an instruction.
#[tactic(auto, using(crate::proofs::purity::EffectSteps::added_three))]
fn add_command<'s>(
    routine: &RoutineContext<'_, 's>,
    names: &[Entity<'s>],
    call: &'s Call,
    effects: &mut Vec<Effect<'s>>,
) -> Result<(), CheckFault>
    ensures { Adds effects.old.items effects.new.items
        (effects_in_call (routine_in routine.now) Body (map entity_of names.now) (target_of call.now.target)
        (name_of call.now.name) (exprs_of call.now.actuals.items)) result }
{
    let target = add_target(routine, Context::Body, names, &call.target, effects)?;
    add_actuals(routine, Context::Body, names, &call.actuals, effects)?;
    add_named(routine, names, call, judged_type(target), effects)?;
    Ok(())
}

/// Adds what is done in a creation.
#[tactic(auto, using(crate::proofs::purity::EffectSteps::added_two))]
fn add_creation<'s>(
    routine: &RoutineContext<'_, 's>,
    names: &[Entity<'s>],
    call: &'s Option<CreationCall>,
    effects: &mut Vec<Effect<'s>>,
) -> Result<(), CheckFault>
    ensures { Adds effects.old.items effects.new.items
        (effects_of_create (routine_in routine.now) (map entity_of names.now) (creation_call_of call.now)) result }
{
    add_side_effect_if(effects, true)?;
    match call {
        None => Ok(()),
        Some(call) => {
            add_actuals(routine, Context::Body, names, &call.actuals, effects)?;
            Ok(())
        }
    }
}

/// Adds what is done in the clauses of a `check`.
#[tactic(auto, unfolding(sc_tree::specs::View::clause_of))]
fn add_clauses<'s>(
    routine: &RoutineContext<'_, 's>,
    names: &[Entity<'s>],
    clauses: &'s [Clause],
    effects: &mut Vec<Effect<'s>>,
) -> Result<(), CheckFault>
    ensures { Adds effects.old.items effects.new.items
        (spec.effects_of_clauses (routine_in routine.now) (map entity_of names.now)
        (map clause_of clauses.now)) result }
{
    for clause in clauses {
        let _ = add_expression(
            routine,
            Context::Check,
            Position::Plain,
            names,
            &clause.condition,
            effects,
        )?;
    }
    Ok(())
}

/// Adds what is done in the heads of a separate block. The names that they give join those that are known in its body,
/// whatever rule fails in them.
#[tactic(auto, unfolding(sc_tree::specs::View::head_of))]
fn add_heads<'s>(
    routine: &RoutineContext<'_, 's>,
    names: &[Entity<'s>],
    known: &mut Vec<Entity<'s>>,
    heads: &'s [Head],
    effects: &mut Vec<Effect<'s>>,
) -> Result<(), CheckFault>
    ensures effects { Adds effects.old.items effects.new.items
        (spec.effects_of_heads (routine_in routine.now) (map entity_of names.now) (map head_of heads.now)) result }
    ensures reserved { OnOk result (map entity_of known.new.items
        ≡ spec.reserved_anyway (routine_in routine.now) (map entity_of names.now) (map entity_of known.old.items)
        (map head_of heads.now)) }
{
    for head in heads {
        let value = add_expression(
            routine,
            Context::Body,
            Position::Plain,
            names,
            &head.value,
            effects,
        )?;
        let number = blocks(known);
        known.push(Entity {
            name: head.name.as_str(),
            entity_type: block_type(number, judged_type(value)),
            role: Role::Block,
        })?;
    }
    Ok(())
}

/// Adds the effects of a condition and of the instructions under it.
#[cycle(instruction_effects)]
#[tactic(auto, using(crate::proofs::purity::EffectSteps::added_two))]
fn add_branch_effects<'s>(
    routine: &RoutineContext<'_, 's>,
    names: &[Entity<'s>],
    body: &'s [Instr],
    condition: &'s Expr,
    effects: &mut Vec<Effect<'s>>,
) -> Result<(), CheckFault>
    ensures { Adds effects.old.items effects.new.items
        (effects_of_branch (routine_in routine.now) (map entity_of names.now) (expr_of condition.now)
        (instrs_of body.now)) result }
{
    let mut known = copied(routine.alloc, names)?;
    add_condition(routine, Context::Body, &mut known, condition, effects)?;
    add_instructions(routine, &known, body, effects)?;
    Ok(())
}

/// Adds what is done in the `elseif`s.
#[cycle(instruction_effects)]
#[tactic(auto, unfolding(sc_rules::specs::JudgingPurity::effects_of_instr))]
fn add_branches<'s>(
    routine: &RoutineContext<'_, 's>,
    names: &[Entity<'s>],
    branches: &'s [Branch],
    effects: &mut Vec<Effect<'s>>,
) -> Result<(), CheckFault>
    ensures { Adds effects.old.items effects.new.items
        (spec.effects_of_branches (routine_in routine.now) (map entity_of names.now)
        (branches_of branches.now)) result }
{
    for branch in branches {
        add_branch_effects(routine, names, &branch.body, &branch.condition, effects)?;
    }
    Ok(())
}

/// Adds what is done in the heads of a separate block and in its body.
#[cycle(instruction_effects)]
#[tactic(auto, using(crate::proofs::purity::EffectSteps::added_two))]
fn add_block<'s>(
    routine: &RoutineContext<'_, 's>,
    names: &[Entity<'s>],
    heads: &'s [Head],
    body: &'s [Instr],
    effects: &mut Vec<Effect<'s>>,
) -> Result<(), CheckFault>
    ensures { Adds effects.old.items effects.new.items
        (effects_of_heads_and_body (routine_in routine.now) (map entity_of names.now) (map head_of heads.now)
        (instrs_of body.now)) result }
{
    let mut known = copied(routine.alloc, names)?;
    add_heads(routine, names, &mut known, heads, effects)?;
    add_instructions(routine, &known, body, effects)?;
    Ok(())
}

/// Adds what is done in instructions.
#[cycle(instruction_effects)]
#[tactic(auto, unfolding(sc_rules::specs::JudgingPurity::effects_of_instr))]
pub fn add_instructions<'s>(
    routine: &RoutineContext<'_, 's>,
    names: &[Entity<'s>],
    instructions: &'s [Instr],
    effects: &mut Vec<Effect<'s>>,
) -> Result<(), CheckFault>
    ensures { Adds effects.old.items effects.new.items
        (spec.effects_of_instrs (routine_in routine.now) (map entity_of names.now)
        (instrs_of instructions.now)) result }
{
    for instruction in instructions {
        add_instruction(routine, names, instruction, effects)?;
    }
    Ok(())
}

/// Adds what is done in an expression of a body.
fn add_value<'s>(
    routine: &RoutineContext<'_, 's>,
    position: Position,
    names: &[Entity<'s>],
    e: &'s Expr,
    effects: &mut Vec<Effect<'s>>,
) -> Result<(), CheckFault>
    requires { positions.is_condition position ≡ false }
    ensures { Adds effects.old.items effects.new.items
        (spec.effects (routine_in routine.now) Body position (map entity_of names.now) (expr_of e.now)) result }
{
    let _ = add_expression(routine, Context::Body, position, names, e, effects)?;
    Ok(())
}

/// Adds what is done in an instruction.
#[cycle(instruction_effects)]
fn add_instruction<'s>(
    routine: &RoutineContext<'_, 's>,
    names: &[Entity<'s>],
    instruction: &'s Instr,
    effects: &mut Vec<Effect<'s>>,
) -> Result<(), CheckFault>
    ensures { Adds effects.old.items effects.new.items
        (spec.effects_of_instr (routine_in routine.now) (map entity_of names.now) (instr_of instruction.now)) result }
{
    match instruction {
        Instr::Assign(_, variable, value) => {
            add_side_effect_if(effects, is_to_attribute(routine.assignee(names, variable)))?;
            add_value(routine, Position::Source, names, value, effects)?;
            Ok(())
        }
        Instr::PrintText(_, _) => add_side_effect_if(effects, true),
        Instr::Call(call) => add_command(routine, names, call, effects),
        Instr::Create(_, _, call) => add_creation(routine, names, call, effects),
        Instr::If(_, condition, body, branches, other) => {
            add_branch_effects(routine, names, body, condition, effects)?;
            add_branches(routine, names, branches, effects)?;
            add_instructions(routine, names, other, effects)?;
            Ok(())
        }
        Instr::Loop(_, initial, condition, body) => {
            add_instructions(routine, names, initial, effects)?;
            add_value(routine, Position::Plain, names, condition, effects)?;
            add_instructions(routine, names, body, effects)?;
            Ok(())
        }
        Instr::Check(_, clauses) => add_clauses(routine, names, clauses, effects),
        Instr::Block(_, heads, body) => {
            add_side_effect_if(effects, true)?;
            add_block(routine, names, heads, body, effects)?;
            Ok(())
        }
    }
}
