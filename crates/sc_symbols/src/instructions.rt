//! The names in instructions.

ghost use Rattle.std.specs.Prelude.{◌≡◌, ◌++◌, OnOk, map};
ghost use Rattle.sc_tree.specs.View.{branches_of, creation_call_of, expr_of, head_of, instr_of, instrs_of, variable_of};
ghost use Rattle.sc_rules.specs.Names as names;
ghost use Rattle.sc_typing.specs.Views.{assignee_in, routine_in};
ghost use Rattle.sc_symbols.specs.Mentions as spec;
ghost use Rattle.sc_symbols.specs.Scopes as scopes;
ghost use Rattle.sc_symbols.specs.Internal.{judged, scope_of};

use crate::expressions::{
    add_actuals, add_call, add_clauses, add_condition, add_expression, type_of,
};
use crate::names::{add_entity, add_name, add_name_after};
use crate::scope::Scope;
use crate::symbol::Mention;
use sc_rules::entity_types::EntityType;
use sc_rules::{Context, Role};
use sc_tree::{Branch, CreationCall, Expr, Head, Instr, Variable};
use sc_typing::{Assignee, Entity, RoutineContext, block_type, blocks};
use std::alloc::AllocError;

/// Adds the name of what is assigned or created.
fn add_variable<'s>(
    routine: &RoutineContext<'_, 's>,
    scope: &Scope<'s>,
    variable: &Variable,
    mentions: &mut Vec<Mention>,
) -> Result<(), AllocError>
    ensures { OnOk result (mentions.new.items ≡ mentions.old.items
        ++ spec.mentions_of_variable (routine_in routine.now) (scope_of scope.now) (variable_of variable.now)) }
{
    match variable {
        Variable::Named(name) => add_name(routine, scope, name, mentions),
        Variable::Result(_) => Ok(()),
    }
}

/// The type of what is assigned or created, if it has one.
fn assignee_type(assignee: &Assignee) -> Option<EntityType>
    ensures { result ≡ names.assignee_type (assignee_in assignee.now) }
{
    match assignee {
        Assignee::Unknown | Assignee::NotAssignable => None,
        Assignee::Local(given) | Assignee::Attribute(given) => *given,
    }
}

/// Adds the names in the call that an object is created by.
#[tactic(auto, using(crate::proofs::Added::mentioned_two))]
fn add_creation_call<'s>(
    routine: &RoutineContext<'_, 's>,
    scope: &Scope<'s>,
    variable: &Variable,
    call: &Option<CreationCall>,
    mentions: &mut Vec<Mention>,
) -> Result<(), AllocError>
    ensures { OnOk result (mentions.new.items ≡ mentions.old.items
        ++ spec.mentions_in_creation_call judged (routine_in routine.now) (scope_of scope.now) (variable_of variable.now)
        (creation_call_of call.now)) }
{
    match call {
        None => Ok(()),
        Some(call) => {
            let assignee = routine.assignee(&scope.names, variable);
            add_name_after(
                routine.tables,
                assignee_type(&assignee),
                &call.name,
                mentions,
            )?;
            add_actuals(routine, Context::Body, scope, &call.actuals, mentions)
        }
    }
}

/// Adds the names in a head of a block, and makes its name known.
#[tactic(auto, unfolding(sc_tree::specs::View::head_of), using(crate::proofs::Added::mentioned_two))]
fn add_head<'s>(
    routine: &RoutineContext<'_, 's>,
    scope: &Scope<'s>,
    known: &mut Scope<'s>,
    head: &'s Head,
    mentions: &mut Vec<Mention>,
) -> Result<(), AllocError>
    ensures listed { OnOk result (mentions.new.items ≡ mentions.old.items
        ++ spec.mentions_in_head judged (routine_in routine.now) (scope_of scope.now) (scope_of known.old)
        (head_of head.now)) }
    ensures known { OnOk result (scope_of known.new
        ≡ scopes.known_head judged (routine_in routine.now) (scope_of scope.now) (scope_of known.old) (head_of head.now)) }
{
    add_expression(routine, Context::Body, scope, &head.value, mentions)?;
    let given = type_of(routine, Context::Body, &scope.names, &head.value)?;
    let entity = Entity {
        name: head.name.as_str(),
        entity_type: block_type(blocks(&known.names), given),
        role: Role::Block,
    };
    add_entity(&head.name, entity, head.name.span, mentions)?;
    known.push(entity, head.name.span)
}

/// Adds the names in the heads of a block, and makes their names known.
fn add_heads<'s>(
    routine: &RoutineContext<'_, 's>,
    scope: &Scope<'s>,
    known: &mut Scope<'s>,
    heads: &'s [Head],
    mentions: &mut Vec<Mention>,
) -> Result<(), AllocError>
    ensures listed { OnOk result (mentions.new.items ≡ mentions.old.items
        ++ spec.mentions_in_heads judged (routine_in routine.now) (scope_of scope.now) (scope_of known.old)
        (map head_of heads.now)) }
    ensures known { OnOk result (scope_of known.new
        ≡ scopes.scope_reserved judged (routine_in routine.now) (scope_of scope.now) (scope_of known.old)
        (map head_of heads.now)) }
{
    for head in heads {
        add_head(routine, scope, known, head, mentions)?;
    }
    Ok(())
}

/// Adds the names in an instruction.
#[cycle(instructions)]
fn add_instruction<'s>(
    routine: &RoutineContext<'_, 's>,
    scope: &Scope<'s>,
    instruction: &'s Instr,
    mentions: &mut Vec<Mention>,
) -> Result<(), AllocError>
    ensures { OnOk result (mentions.new.items ≡ mentions.old.items
        ++ spec.mentions_in_instr judged (routine_in routine.now) (scope_of scope.now) (instr_of instruction.now)) }
{
    match instruction {
        Instr::Assign(_, variable, value) => {
            add_variable(routine, scope, variable, mentions)?;
            add_expression(routine, Context::Body, scope, value, mentions)
        }
        Instr::PrintText(_, _) => Ok(()),
        Instr::Call(call) => add_call(routine, Context::Body, scope, call, mentions),
        Instr::Create(_, variable, call) => {
            add_variable(routine, scope, variable, mentions)?;
            add_creation_call(routine, scope, variable, call, mentions)
        }
        Instr::If(_, condition, body, branches, other) => {
            add_branch(routine, scope, body, condition, mentions)?;
            add_branches(routine, scope, branches, mentions)?;
            add_instructions(routine, scope, other, mentions)
        }
        Instr::Loop(_, initial, until, body) => {
            add_instructions(routine, scope, initial, mentions)?;
            add_expression(routine, Context::Body, scope, until, mentions)?;
            add_instructions(routine, scope, body, mentions)
        }
        Instr::Check(_, clauses) => add_clauses(routine, Context::Check, scope, clauses, mentions),
        Instr::Block(_, heads, body) => add_block(routine, scope, heads, body, mentions),
    }
}

/// Adds the names in a condition and in the instructions under it.
#[cycle(instructions)]
fn add_branch<'s>(
    routine: &RoutineContext<'_, 's>,
    scope: &Scope<'s>,
    body: &'s [Instr],
    condition: &'s Expr,
    mentions: &mut Vec<Mention>,
) -> Result<(), AllocError>
    ensures { OnOk result (mentions.new.items ≡ mentions.old.items
        ++ spec.mentions_in_branch judged (routine_in routine.now) (scope_of scope.now) (expr_of condition.now)
        (instrs_of body.now)) }
{
    let mut known = scope.copied(routine.alloc)?;
    add_condition(routine, Context::Body, &mut known, condition, mentions)?;
    add_instructions(routine, &known, body, mentions)
}

/// Adds the names in the heads of a block and in the instructions under them.
#[cycle(instructions)]
fn add_block<'s>(
    routine: &RoutineContext<'_, 's>,
    scope: &Scope<'s>,
    heads: &'s [Head],
    body: &'s [Instr],
    mentions: &mut Vec<Mention>,
) -> Result<(), AllocError>
    ensures { OnOk result (mentions.new.items ≡ mentions.old.items
        ++ spec.mentions_in_block judged (routine_in routine.now) (scope_of scope.now) (map head_of heads.now)
        (instrs_of body.now)) }
{
    let mut known = scope.copied(routine.alloc)?;
    add_heads(routine, scope, &mut known, heads, mentions)?;
    add_instructions(routine, &known, body, mentions)
}

/// Adds the names in instructions, one after the other.
#[cycle(instructions)]
pub fn add_instructions<'s>(
    routine: &RoutineContext<'_, 's>,
    scope: &Scope<'s>,
    instructions: &'s [Instr],
    mentions: &mut Vec<Mention>,
) -> Result<(), AllocError>
    ensures { OnOk result (mentions.new.items ≡ mentions.old.items
        ++ spec.mentions_in_instrs judged (routine_in routine.now) (scope_of scope.now) (instrs_of instructions.now)) }
{
    for instruction in instructions {
        add_instruction(routine, scope, instruction, mentions)?;
    }
    Ok(())
}

/// Adds the names in each `elseif` and in its instructions.
#[cycle(instructions)]
fn add_branches<'s>(
    routine: &RoutineContext<'_, 's>,
    scope: &Scope<'s>,
    branches: &'s [Branch],
    mentions: &mut Vec<Mention>,
) -> Result<(), AllocError>
    ensures { OnOk result (mentions.new.items ≡ mentions.old.items
        ++ spec.mentions_in_branches judged (routine_in routine.now) (scope_of scope.now) (branches_of branches.now)) }
{
    for branch in branches {
        add_branch(routine, scope, &branch.body, &branch.condition, mentions)?;
    }
    Ok(())
}
