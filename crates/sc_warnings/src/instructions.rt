//! What stands in instructions, as far as a warning asks for it.

ghost use Rattle.std.specs.Prelude.{◌≡◌, ◌∷◌, ◌++◌, [], IfOk, OnOk, map, string_bytes};
ghost use Rattle.std.specs.List.{flat_map};
ghost use Rattle.sc_tree.specs.View.{branches_of, clause_of, creation_call_of, expr_of, head_of, instr_of, instrs_of, variable_of};
ghost use Rattle.sc_warnings.specs.Sites as spec;
ghost use Rattle.sc_warnings.specs.Views.{Adds, site_of};

use crate::sites::{Site, add_call, add_each, add_expression, add_passing, add_site};
use sc_tree::{Branch, Clause, CreationCall, Expr, Head, Instr, Variable};
use std::alloc::{AllocError, Global};

/// Adds what is created.
fn add_variable<'s>(variable: &'s Variable, sites: &mut Vec<Site<'s>>) -> Result<(), AllocError>
    ensures { Adds sites.old.items sites.new.items (spec.sites_of_variable (variable_of variable.now)) result }
{
    match variable {
        Variable::Named(name) => add_site(Site::Used(name.as_str()), sites),
        Variable::Result(_) => Ok(()),
    }
}

/// Adds what stands in a creation.
#[tactic(auto, using(crate::proofs::Added::added_two, crate::proofs::Added::added_three))]
fn add_creation<'s>(
    names: &[&'s str],
    variable: &'s Variable,
    call: &'s Option<CreationCall>,
    sites: &mut Vec<Site<'s>>,
) -> Result<(), AllocError>
    ensures { Adds sites.old.items sites.new.items (spec.sites_of_variable (variable_of variable.now)
        ++ spec.sites_of_creation (map (λ name. name.now) names.now) (creation_call_of call.now)) result }
{
    add_variable(variable, sites)?;
    match call {
        None => Ok(()),
        Some(call) => {
            add_passing(names, call.name.as_str(), &call.actuals, sites)?;
            add_each(names, &call.actuals, sites)
        }
    }
}

/// Adds a condition, and what stands in it.
fn add_tested<'s>(
    names: &[&'s str],
    site: Site<'s>,
    tested: &'s Expr,
    sites: &mut Vec<Site<'s>>,
) -> Result<(), AllocError>
    ensures { Adds sites.old.items sites.new.items
        (site_of site.entry ∷ spec.sites_of (map (λ name. name.now) names.now) (expr_of tested.now)) result }
{
    add_site(site, sites)?;
    add_expression(names, tested, sites)
}

/// Adds what stands in clauses.
#[tactic(auto, unfolding(sc_tree::specs::View::clause_of))]
pub fn add_clauses<'s>(
    names: &[&'s str],
    clauses: &'s [Clause],
    sites: &mut Vec<Site<'s>>,
) -> Result<(), AllocError>
    ensures { Adds sites.old.items sites.new.items (flat_map (spec.sites_of_clause (map (λ name. name.now) names.now))
        (map clause_of clauses.now)) result }
{
    for clause in clauses {
        add_tested(
            names,
            Site::Checked(&clause.condition),
            &clause.condition,
            sites,
        )?;
    }
    Ok(())
}

/// Adds what stands in the heads of a block.
#[tactic(auto, unfolding(sc_tree::specs::View::head_of))]
fn add_heads<'s>(
    names: &[&'s str],
    heads: &'s [Head],
    sites: &mut Vec<Site<'s>>,
) -> Result<(), AllocError>
    ensures { Adds sites.old.items sites.new.items (flat_map (spec.sites_of_head (map (λ name. name.now) names.now))
        (map head_of heads.now)) result }
{
    for head in heads {
        add_expression(names, &head.value, sites)?;
    }
    Ok(())
}

/// Adds the name of a head.
fn add_name<'s>(head: &'s Head, names: &mut Vec<&'s str>) -> Result<(), AllocError>
    ensures { OnOk result (map (λ name. name.now) names.new.items
        ≡ map (λ name. name.now) names.old.items ++ string_bytes head.now.name.text.value ∷ []) }
{
    names.push(head.name.as_str())?;
    Ok(())
}

/// These names, and those that the heads of a block have in its body.
fn names_in_block<'s>(
    alloc: Global,
    names: &[&'s str],
    heads: &'s [Head],
) -> Result<Vec<&'s str>, AllocError>
    ensures { IfOk result (λ inside. map (λ name. name.now) inside.items
        ≡ map (λ name. name.now) names.now ++ spec.names_of_heads (map head_of heads.now)) }
{
    let mut inside = Vec::from_slice(alloc, names)?;
    for head in heads {
        add_name(head, &mut inside)?;
    }
    Ok(inside)
}

/// Adds what stands in an instruction.
#[cycle(instructions)]
fn add_instruction<'s>(
    alloc: Global,
    names: &[&'s str],
    instruction: &'s Instr,
    sites: &mut Vec<Site<'s>>,
) -> Result<(), AllocError>
    ensures { Adds sites.old.items sites.new.items (spec.sites_of_instr (map (λ name. name.now) names.now)
        (instr_of instruction.now)) result }
{
    match instruction {
        Instr::Assign(_, _, value) => add_expression(names, value, sites),
        Instr::PrintText(_, _) => Ok(()),
        Instr::Call(call) => add_call(names, call, sites),
        Instr::Create(_, variable, call) => add_creation(names, variable, call, sites),
        Instr::If(_, condition, body, branches, other) => {
            add_branch(alloc, names, body, condition, sites)?;
            add_branches(alloc, names, branches, sites)?;
            add_instructions(alloc, names, other, sites)
        }
        Instr::Loop(_, initial, until, body) => {
            add_instructions(alloc, names, initial, sites)?;
            add_tested(names, Site::Until(until), until, sites)?;
            add_instructions(alloc, names, body, sites)
        }
        Instr::Check(_, clauses) => add_clauses(names, clauses, sites),
        Instr::Block(_, heads, body) => add_block(alloc, names, body, heads, sites),
    }
}

/// Adds what stands in the heads and the body of a block.
#[cycle(instructions)]
fn add_block<'s>(
    alloc: Global,
    names: &[&'s str],
    body: &'s [Instr],
    heads: &'s [Head],
    sites: &mut Vec<Site<'s>>,
) -> Result<(), AllocError>
    ensures { Adds sites.old.items sites.new.items (spec.sites_of_block (map (λ name. name.now) names.now)
        (map head_of heads.now) (instrs_of body.now)) result }
{
    add_heads(names, heads, sites)?;
    let inside = names_in_block(alloc, names, heads)?;
    add_instructions(alloc, &inside, body, sites)
}

/// Adds what stands in a condition and in the instructions under it.
#[cycle(instructions)]
#[tactic(auto, using(crate::proofs::Added::added_two))]
fn add_branch<'s>(
    alloc: Global,
    names: &[&'s str],
    body: &'s [Instr],
    condition: &'s Expr,
    sites: &mut Vec<Site<'s>>,
) -> Result<(), AllocError>
    ensures { Adds sites.old.items sites.new.items (spec.sites_of_branch (map (λ name. name.now) names.now)
        (expr_of condition.now) (instrs_of body.now)) result }
{
    add_tested(names, Site::Condition(condition), condition, sites)?;
    add_instructions(alloc, names, body, sites)
}

/// Adds what stands in instructions, one after the other.
#[cycle(instructions)]
pub fn add_instructions<'s>(
    alloc: Global,
    names: &[&'s str],
    instructions: &'s [Instr],
    sites: &mut Vec<Site<'s>>,
) -> Result<(), AllocError>
    ensures { Adds sites.old.items sites.new.items (spec.sites_of_instrs (map (λ name. name.now) names.now)
        (instrs_of instructions.now)) result }
{
    for instruction in instructions {
        add_instruction(alloc, names, instruction, sites)?;
    }
    Ok(())
}

/// Adds what stands in each `elseif` with its instructions.
#[cycle(instructions)]
fn add_branches<'s>(
    alloc: Global,
    names: &[&'s str],
    branches: &'s [Branch],
    sites: &mut Vec<Site<'s>>,
) -> Result<(), AllocError>
    ensures { Adds sites.old.items sites.new.items (spec.sites_of_branches (map (λ name. name.now) names.now)
        (branches_of branches.now)) result }
{
    for branch in branches {
        add_branch(alloc, names, &branch.body, &branch.condition, sites)?;
    }
    Ok(())
}
