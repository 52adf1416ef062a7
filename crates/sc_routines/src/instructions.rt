//! Instructions (ECMA-367, 8.17): their code, and what it needs.

ghost use Rattle.std.specs.Prelude.{◌≡◌, ◌+◌, ◌++◌, [], ◌∷◌, IfOk, OnOk, length, map, max, suc};
ghost use Rattle.sc_tree.specs.View.{branches_of, expr_of, head_of, instr_of, instrs_of};
ghost use Rattle.sc_typing.specs.Views.{entity_of};
ghost use Rattle.sc_code.specs.Places.{head_types, with_heads};
ghost use Rattle.sc_code.specs.Emitted.{branches_depth, branches_slots, heads_depth, instr_code, instr_depth, instr_slots, instrs_code, instrs_depth, instrs_slots, names_of};
ghost use Rattle.sc_routines.specs.Jumps.{branch_opened, jump_behind, jumps_of, open_branches};
ghost use Rattle.sc_code.specs.Room.{branches_blocks, instr_blocks, instrs_blocks};
ghost use Rattle.sc_routines.specs.Parts.{block_code};
ghost use Rattle.sc_routines.specs.Settings.{setting_in};
ghost use Rattle.sc_routines.specs.Told.{branch_depth, branch_slots};

use crate::code::Code;
use crate::instructions::assignment::lower_assignment;
use crate::instructions::blocks::{add_heads, lower_heads};
use crate::instructions::calls::lower_call_instruction;
use crate::instructions::checks::lower_checks;
use crate::instructions::creation::lower_creation;
use crate::instructions::jumps::land_jumps;
use crate::instructions::loops::end_loop;
use crate::instructions::needs::Needs;
use crate::setting::Setting;
use crate::sums::sum;
use crate::unlinked::UnlinkedOperation;
use sc_code::{SiteKind, TextSite};
use sc_text::Span;
use sc_tree::{Branch, Expr, Head, Instr};
use sc_typing::Entity;
use std::alloc::AllocError;

pub mod assignment;
pub mod blocks;
pub mod calls;
pub mod checks;
pub mod creation;
pub mod jumps;
pub mod loops;
pub mod needs;

/// Lowers an instruction. Names that it brings into scope leave it again.
#[cycle(instructions)]
#[tactic(auto, unfolding(sc_tree::specs::View::instr_of))]
fn lower_instruction<'s>(
    setting: &Setting<'_, 's>,
    names: &mut Vec<Entity<'s>>,
    code: &mut Code<'s>,
    instruction: &'s Instr,
) -> Result<Needs, AllocError>
    ensures code { OnOk result (code.new ≡ code.old ++ instr_code (setting_in setting.now) (map entity_of names.old.items) (instr_of instruction.now)) }
    ensures names { OnOk result (map entity_of names.new.items ≡ map entity_of names.old.items) }
    ensures depth { IfOk result (λ n. n.depth ≡ instr_depth (setting_in setting.now) (map entity_of names.old.items) (instr_of instruction.now)) }
    ensures slots { IfOk result (λ n. n.slots ≡ instr_slots (setting_in setting.now) (map entity_of names.old.items) (instr_of instruction.now)) }
    ensures blocks { IfOk result (λ n. n.blocks ≡ instr_blocks (instr_of instruction.now)) }
{
    match instruction {
        Instr::Assign(span, variable, value) => lower_assignment(
            setting, names, code, *span, variable, value,
        ),
        Instr::PrintText(span, text) => {
            let (span, kind) = (*span, SiteKind::Print);
            code.push(
                TextSite { span, kind },
                UnlinkedOperation::PrintText(text.as_str()),
            )?;
            Ok(Needs::of_operands(0))
        }
        Instr::Call(call) => lower_call_instruction(setting, names, code, call),
        Instr::Create(span, variable, call) => lower_creation(
            setting, names, code, *span, variable, call,
        ),
        Instr::If(span, condition, body, branches, other) => {
            let mut jumps = Vec::new(setting.context.alloc);
            let first = lower_branch(setting, names, code, &mut jumps, *span, body, condition)?;
            let further = lower_branches(setting, names, code, &mut jumps, *span, branches)?;
            let last = lower_instructions(setting, names, code, other)?;
            land_jumps(code, &jumps);
            Ok(first.then(further).then(last))
        }
        Instr::Loop(span, initial, until, body) => {
            let first = lower_instructions(setting, names, code, initial)?;
            let jump = code.len();
            let (span, kind) = (*span, SiteKind::Jump);
            code.push(TextSite { span, kind }, UnlinkedOperation::Jump(0))?;
            let again = lower_instructions(setting, names, code, body)?;
            let until = end_loop(setting, names, code, jump, until)?;
            Ok(first.then(again).then(until))
        }
        Instr::Check(_, clauses) => lower_checks(setting, names, code, clauses),
        Instr::Block(span, heads, body) => lower_block(setting, names, code, *span, heads, body),
    }
}

/// Lowers instructions, one after the other.
#[cycle(instructions)]
pub fn lower_instructions<'s>(
    setting: &Setting<'_, 's>,
    names: &mut Vec<Entity<'s>>,
    code: &mut Code<'s>,
    instructions: &'s [Instr],
) -> Result<Needs, AllocError>
    ensures code { OnOk result (code.new ≡ code.old ++ instrs_code (setting_in setting.now) (map entity_of names.old.items) (instrs_of instructions.now)) }
    ensures names { OnOk result (map entity_of names.new.items ≡ map entity_of names.old.items) }
    ensures depth { IfOk result (λ n. n.depth ≡ instrs_depth (setting_in setting.now) (map entity_of names.old.items) (instrs_of instructions.now)) }
    ensures slots { IfOk result (λ n. n.slots ≡ instrs_slots (setting_in setting.now) (map entity_of names.old.items) (instrs_of instructions.now)) }
    ensures blocks { IfOk result (λ n. n.blocks ≡ instrs_blocks (instrs_of instructions.now)) }
{
    let mut needs = Needs::of_operands(0);
    for instruction in instructions {
        needs = needs.then(lower_instruction(setting, names, code, instruction)?);
    }
    Ok(needs)
}

/// Lowers a condition and the instructions under it, and notes the place of the jump after it, which isn't set yet.
#[cycle(instructions)]
fn lower_branch<'s>(
    setting: &Setting<'_, 's>,
    names: &mut Vec<Entity<'s>>,
    code: &mut Code<'s>,
    jumps: &mut Vec<usize>,
    span: Span,
    body: &'s [Instr],
    condition: &'s Expr,
) -> Result<Needs, AllocError>
    ensures code { let h = setting_in setting.now in let n = map entity_of names.old.items in
        OnOk result (code.new ≡ code.old ++ branch_opened h n (expr_of condition.now) (instrs_of body.now)) }
    ensures jumps { let h = setting_in setting.now in let n = map entity_of names.old.items in
        OnOk result (jumps.new.items ≡ jumps.old.items ++ jump_behind h n (length code.old) (expr_of condition.now) (instrs_of body.now) ∷ []) }
    ensures names { OnOk result (map entity_of names.new.items ≡ map entity_of names.old.items) }
    ensures depth { let h = setting_in setting.now in let n = map entity_of names.old.items in
        IfOk result (λ l. l.depth ≡ branch_depth h n (expr_of condition.now) (instrs_of body.now)) }
    ensures slots { let h = setting_in setting.now in let n = map entity_of names.old.items in
        IfOk result (λ l. l.slots ≡ branch_slots h n (expr_of condition.now) (instrs_of body.now)) }
    ensures blocks { IfOk result (λ l. l.blocks ≡ instrs_blocks (instrs_of body.now)) }
{
    let known = names.len();
    let tested = setting.lower_condition(names, 0, code, condition)?;
    let skip = code.len();
    let site = TextSite {
        span: condition.span(),
        kind: SiteKind::Condition,
    };
    code.push(site, UnlinkedOperation::SkipIfFalse(0))?;
    let needs = lower_instructions(setting, names, code, body)?;
    names.truncate(known);
    let jump = code.len();
    jumps.push(jump)?;
    let kind = SiteKind::Jump;
    code.push(TextSite { span, kind }, UnlinkedOperation::Jump(0))?;
    code.set(skip, UnlinkedOperation::SkipIfFalse(jump - skip));
    Ok(Needs {
        depth: tested.depth.max(needs.depth),
        slots: tested.slots.max(needs.slots),
        blocks: needs.blocks,
    })
}

/// Lowers each `elseif` with its instructions.
#[cycle(instructions)]
fn lower_branches<'s>(
    setting: &Setting<'_, 's>,
    names: &mut Vec<Entity<'s>>,
    code: &mut Code<'s>,
    jumps: &mut Vec<usize>,
    span: Span,
    branches: &'s [Branch],
) -> Result<Needs, AllocError>
    ensures code { OnOk result (code.new ≡ code.old ++ open_branches (setting_in setting.now) (map entity_of names.old.items) (branches_of branches.now)) }
    ensures jumps { let h = setting_in setting.now in let n = map entity_of names.old.items in
        OnOk result (jumps.new.items ≡ jumps.old.items ++ jumps_of h n (length code.old) (branches_of branches.now)) }
    ensures names { OnOk result (map entity_of names.new.items ≡ map entity_of names.old.items) }
    ensures depth { IfOk result (λ n. n.depth ≡ branches_depth (setting_in setting.now) (map entity_of names.old.items) (branches_of branches.now)) }
    ensures slots { IfOk result (λ n. n.slots ≡ branches_slots (setting_in setting.now) (map entity_of names.old.items) (branches_of branches.now)) }
    ensures blocks { IfOk result (λ n. n.blocks ≡ branches_blocks (branches_of branches.now)) }
{
    let mut needs = Needs::of_operands(0);
    for branch in branches {
        needs = needs.then(lower_branch(
            setting,
            names,
            code,
            jumps,
            span,
            &branch.body,
            &branch.condition,
        )?);
    }
    Ok(needs)
}

/// Lowers a separate block: its heads, and its body with their names.
#[cycle(instructions)]
fn lower_block<'s>(
    setting: &Setting<'_, 's>,
    names: &mut Vec<Entity<'s>>,
    code: &mut Code<'s>,
    span: Span,
    heads: &'s [Head],
    body: &'s [Instr],
) -> Result<Needs, AllocError>
    ensures code { let h = setting_in setting.now in let n = map entity_of names.old.items in let ds = map head_of heads.now in
        OnOk result (code.new ≡ code.old ++ block_code h n ds (instrs_of body.now)) }
    ensures names { OnOk result (map entity_of names.new.items ≡ map entity_of names.old.items) }
    ensures depth { let h = setting_in setting.now in let n = map entity_of names.old.items in let ds = map head_of heads.now in
        IfOk result (λ l. l.depth ≡ max (heads_depth h n ds) (instrs_depth h (with_heads (names_of ds) (head_types h n ds) n) (instrs_of body.now))) }
    ensures slots { let h = setting_in setting.now in let n = map entity_of names.old.items in let ds = map head_of heads.now in
        IfOk result (λ l. l.slots ≡ max (length n + length ds) (instrs_slots h (with_heads (names_of ds) (head_types h n ds) n) (instrs_of body.now))) }
    ensures blocks { IfOk result (λ l. l.blocks ≡ suc (instrs_blocks (instrs_of body.now))) }
{
    let outer = names.len();
    let opened = lower_heads(setting, names, code, heads)?;
    let kind = SiteKind::Block;
    code.push(
        TextSite { span, kind },
        UnlinkedOperation::Open {
            first: outer,
            count: heads.len(),
        },
    )?;
    add_heads(names, heads, &opened.types)?;
    let inner = lower_instructions(setting, names, code, body)?;
    names.truncate(outer);
    let kind = SiteKind::BlockEnd;
    code.push(TextSite { span, kind }, UnlinkedOperation::Leave)?;
    Ok(Needs {
        depth: opened.depth.max(inner.depth),
        slots: sum(outer, heads.len())?.max(inner.slots),
        blocks: sum(inner.blocks, 1)?,
    })
}
