//! Instructions: where the name of an object test or of a block's head clashes. Names that they bring into scope
//! leave it after them.

ghost use Rattle.std.specs.Prelude.{◌≡◌, ◌++◌, OnOk, map};
ghost use Rattle.sc_tree.specs.View.{expr_of, creation_call_of, head_of, instr_of, instrs_of, branches_of};
ghost use Rattle.sc_class.specs.Faults.Scopes.{head_names, tests_of};
ghost use Rattle.sc_class.specs.Internal.Places.{union};
ghost use Rattle.sc_class.specs.Internal.ScopeSearch as search;

use crate::faults::places::Places;
use crate::faults::scopes::expressions::{
    in_clauses, in_condition, in_expression, in_expressions, in_target, in_values,
};
use crate::faults::scopes::features::Features;
use crate::faults::scopes::names::declare_heads;
use crate::names::NameIndex;
use sc_tree::{Branch, CreationCall, Expr, Head, Instr};
use std::alloc::AllocError;

/// Looks at the actuals of a creation.
#[tactic(auto, unfolding(crate::specs::Internal::Places::union))]
fn in_creation(
    features: &Features,
    known: &NameIndex,
    call: &Option<CreationCall>,
    found: &mut Places,
) -> Result<(), AllocError>
    ensures { OnOk result (found.new
        ≡ union found.old (search.creation_clash features.now known.now (creation_call_of call.now))) }
{
    match call {
        None => Ok(()),
        Some(call) => in_expressions(features, known, &call.actuals, found),
    }
}

/// Looks at an instruction.
#[cycle(instructions)]
#[tactic(auto, unfolding(crate::specs::Internal::ScopeSearch::instr_clash, crate::specs::Internal::Places::union, sc_tree::specs::View::instr_of))]
pub fn in_instruction<'s>(
    features: &Features,
    known: &mut NameIndex<'s>,
    instruction: &'s Instr,
    found: &mut Places,
) -> Result<(), AllocError>
    ensures found { OnOk result (found.new
        ≡ union found.old (search.instr_clash features.now known.old (instr_of instruction.now))) }
    ensures kept { OnOk result (known.new ≡ known.old) }
{
    match instruction {
        Instr::Assign(_, _, value) => in_expression(features, known, value, found),
        Instr::PrintText(_, _) => Ok(()),
        Instr::Call(call) => {
            in_target(features, known, &call.target, found)?;
            in_expressions(features, known, &call.actuals, found)
        }
        Instr::Create(_, _, call) => in_creation(features, known, call, found),
        Instr::If(_, condition, body, branches, other) => {
            in_branch(features, known, body, condition, found)?;
            in_branches(features, known, branches, found)?;
            in_instructions(features, known, other, found)
        }
        Instr::Loop(_, initial, until, body) => {
            in_instructions(features, known, initial, found)?;
            in_expression(features, known, until, found)?;
            in_instructions(features, known, body, found)
        }
        Instr::Check(_, clauses) => in_clauses(features, known, clauses, found),
        Instr::Block(_, heads, body) => in_block(features, known, heads, body, found),
    }
}

/// Looks at a block: what its heads reserve, their names, and its instructions.
#[cycle(instructions)]
fn in_block<'s>(
    features: &Features,
    known: &mut NameIndex<'s>,
    heads: &'s [Head],
    body: &'s [Instr],
    found: &mut Places,
) -> Result<(), AllocError>
    ensures found { let fs = features.now in let ns = known.old in let hs = map head_of heads.now in
        OnOk result (found.new ≡ union found.old (search.values_clash fs ns hs ++ (search.names_clash fs ns
        (head_names hs) ++ search.instrs_clash fs (ns ++ head_names hs) (instrs_of body.now)))) }
    ensures kept { OnOk result (known.new ≡ known.old) }
{
    in_values(features, known, heads, found)?;
    let outer = known.len();
    declare_heads(features, known, heads, found)?;
    in_instructions(features, known, body, found)?;
    known.truncate(outer);
    Ok(())
}

/// Looks at a condition and the instructions under it.
#[cycle(instructions)]
fn in_branch<'s>(
    features: &Features,
    known: &mut NameIndex<'s>,
    body: &'s [Instr],
    condition: &'s Expr,
    found: &mut Places,
) -> Result<(), AllocError>
    ensures found { let e = expr_of condition.now in let ns = known.old ++ tests_of e in
        OnOk result (found.new ≡ union found.old (search.condition_clash features.now known.old e
        ++ search.instrs_clash features.now ns (instrs_of body.now))) }
    ensures kept { OnOk result (known.new ≡ known.old) }
{
    let count = known.len();
    in_condition(features, known, condition, found)?;
    in_instructions(features, known, body, found)?;
    known.truncate(count);
    Ok(())
}

/// Looks at instructions.
#[cycle(instructions)]
pub fn in_instructions<'s>(
    features: &Features,
    known: &mut NameIndex<'s>,
    instructions: &'s [Instr],
    found: &mut Places,
) -> Result<(), AllocError>
    ensures found { OnOk result (found.new
        ≡ union found.old (search.instrs_clash features.now known.old (instrs_of instructions.now))) }
    ensures kept { OnOk result (known.new ≡ known.old) }
{
    for instruction in instructions {
        in_instruction(features, known, instruction, found)?;
    }
    Ok(())
}

/// Looks at the `elseif`s of an instruction.
#[cycle(instructions)]
fn in_branches<'s>(
    features: &Features,
    known: &mut NameIndex<'s>,
    branches: &'s [Branch],
    found: &mut Places,
) -> Result<(), AllocError>
    ensures found { OnOk result (found.new
        ≡ union found.old (search.branches_clash features.now known.old (branches_of branches.now))) }
    ensures kept { OnOk result (known.new ≡ known.old) }
{
    for branch in branches {
        in_branch(features, known, &branch.body, &branch.condition, found)?;
    }
    Ok(())
}
