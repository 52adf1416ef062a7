//! How large routines are.

ghost use Rattle.std.specs.Prelude.{◌≡◌, ◌+◌, ◌↔◌, Any, IsTrue, map, min, true};
ghost use Rattle.sc_tree.specs.View.{branches_of, feature_of, instr_of, instrs_of, kind_of};
ghost use Rattle.sc_class.specs.Faults.Limits as limits;
ghost use Rattle.sc_class.specs.Internal.Systems.{in_hierarchy};

use crate::class_tables::hierarchy::Hierarchy;
use sc_tree::{Branch, Feature, FeatureKind, Instr};

/// How many formals a routine may have.
const MAX_FORMALS: usize = 16;
/// How many locals a routine may have, the names of its blocks too.
const MAX_LOCALS: usize = 256;
/// How many names a block may have.
const MAX_HEADS: usize = 16;

/// Whether one of the routines has too many formals, locals, or names of a block. It goes over each of
/// their instructions twice.
pub fn has_large_routine(hierarchy: &Hierarchy) -> bool
    ensures { IsTrue result
        ↔ Any (λ c. Any (λ f. limits.is_large f.kind ≡ true) c.features) (in_hierarchy hierarchy.now).classes }
{
    let classes = hierarchy.classes();
    for class in classes {
        if has_large_among(&class.features) {
            return true;
        }
    }
    false
}

/// Whether one of the features is such a routine.
fn has_large_among(features: &[Feature]) -> bool
    ensures { IsTrue result ↔ Any (λ f. limits.is_large f.kind ≡ true) (map feature_of features.now) }
{
    for feature in features {
        if is_large(&feature.kind) {
            return true;
        }
    }
    false
}

/// Whether the feature is such a routine.
#[tactic(auto, unfolding(sc_tree::specs::View::kind_of))]
fn is_large(kind: &FeatureKind) -> bool
    ensures { result ≡ limits.is_large (kind_of kind.now) }
{
    match kind {
        FeatureKind::Attribute(_) => false,
        FeatureKind::Routine(routine) => {
            routine.formals.len() > MAX_FORMALS
                || total(routine.locals.len(), block_names_of(&routine.body)) > MAX_LOCALS
                || has_wide_block_in(&routine.body)
        }
    }
}

/// The sum, but for no more than what is already too many locals.
fn total(one: usize, other: usize) -> usize
    ensures { result ≡ min (limits.max_locals + 1) (one + other) }
{
    one.saturating_add(other).min(MAX_LOCALS + 1)
}

/// How many names the blocks of an instruction have, up to what is already too many locals.
#[cycle(block_names)]
#[tactic(auto, unfolding(crate::specs::Faults::Limits::block_names, sc_tree::specs::View::instr_of))]
fn block_names(instruction: &Instr) -> usize
    ensures { result ≡ min (limits.max_locals + 1) (limits.block_names (instr_of instruction.now)) }
{
    match instruction {
        Instr::Assign(_, _, _)
        | Instr::PrintText(_, _)
        | Instr::Call(_)
        | Instr::Create(_, _, _)
        | Instr::Check(_, _) => 0,
        Instr::If(_, _, body, branches, other) => {
            let elsewhere = total(branch_block_names(branches), block_names_of(other));
            total(block_names_of(body), elsewhere)
        }
        Instr::Loop(_, initial, _, body) => total(block_names_of(initial), block_names_of(body)),
        Instr::Block(_, heads, body) => total(heads.len(), block_names_of(body)),
    }
}

/// The greatest number of names that blocks have at once in these instructions.
#[cycle(block_names)]
fn block_names_of(instructions: &[Instr]) -> usize
    ensures { result ≡ min (limits.max_locals + 1) (limits.block_names_of (instrs_of instructions.now)) }
{
    let mut names = 0;
    for instruction in instructions {
        names = total(names, block_names(instruction));
    }
    names
}

/// The greatest number of names that blocks have at once in the `elseif`s of an instruction.
#[cycle(block_names)]
fn branch_block_names(branches: &[Branch]) -> usize
    ensures { result ≡ min (limits.max_locals + 1) (limits.branch_block_names (branches_of branches.now)) }
{
    let mut names = 0;
    for branch in branches {
        names = total(names, block_names_of(&branch.body));
    }
    names
}

/// Whether one of the blocks of an instruction has too many names.
#[cycle(wide_blocks)]
#[tactic(auto, unfolding(crate::specs::Faults::Limits::has_wide_block, sc_tree::specs::View::instr_of))]
fn has_wide_block(instruction: &Instr) -> bool
    ensures { result ≡ limits.has_wide_block (instr_of instruction.now) }
{
    match instruction {
        Instr::Assign(_, _, _)
        | Instr::PrintText(_, _)
        | Instr::Call(_)
        | Instr::Create(_, _, _)
        | Instr::Check(_, _) => false,
        Instr::If(_, _, body, branches, other) => {
            has_wide_block_in(body) || branch_has_wide_block(branches) || has_wide_block_in(other)
        }
        Instr::Loop(_, initial, _, body) => has_wide_block_in(initial) || has_wide_block_in(body),
        Instr::Block(_, heads, body) => heads.len() > MAX_HEADS || has_wide_block_in(body),
    }
}

/// Whether a block in these instructions has too many names.
#[cycle(wide_blocks)]
fn has_wide_block_in(instructions: &[Instr]) -> bool
    ensures { result ≡ limits.has_wide_block_in (instrs_of instructions.now) }
{
    for instruction in instructions {
        if has_wide_block(instruction) {
            return true;
        }
    }
    false
}

/// Whether a block in the `elseif`s of an instruction has too many names.
#[cycle(wide_blocks)]
fn branch_has_wide_block(branches: &[Branch]) -> bool
    ensures { result ≡ limits.branch_has_wide_block (branches_of branches.now) }
{
    for branch in branches {
        if has_wide_block_in(&branch.body) {
            return true;
        }
    }
    false
}
