//! Separate blocks: the slots of their heads.
ghost use Rattle.std.specs.Prelude.{◌≡◌, ℕ, slice_get};
ghost use Rattle.sc_region.specs.Frames.{activation_of};
ghost use Rattle.sc_code.specs.declared.operation.Operation.TheVariants as coded;
ghost use Rattle.sc_code.specs.declared.program.Image.{Image};
ghost use Rattle.sc_code.specs.Operations as plain;
ghost use Rattle.sc_code.specs.Programs.{pool_of};
ghost use Rattle.sc_interp.specs.Standing.{FollowsAnywhere, Hops};
ghost use Rattle.sc_interp.specs.Told.{HasBlock, Tells};

use crate::hops::Hop;
use sc_acts::Act;
use sc_code::{Heads, Program};
use sc_model::Cause;
use sc_region::Activation;

/// The slots of the block of the number.
fn block_at(program: &Program, number: usize) -> Option<Heads>
    ensures { result ≡ slice_get (pool_of program.now.image.pool).blocks number }
{
    program.pool().blocks.get(number).copied()
}

/// Begins a separate block, whose heads go into these slots: F16 if there are no such slots, or fewer operands.
fn open_block(activation: &Activation, block: Heads) -> Hop
    ensures hops { (count : ℕ) → Hops count (plain.Open block.first block.count) result (activation_of activation.now) (activation_of activation.now) }
    ensures told { (p : Image) → HasBlock p block.first block.count → Tells p result (activation_of activation.now) }
{
    let (first, count) = (block.first, block.count);
    if count > activation.operands.len() {
        return Hop::Failed(Cause::BadCode);
    }
    let slots = activation.slots.len();
    if first > slots {
        return Hop::Failed(Cause::BadCode);
    }
    if count > slots - first {
        return Hop::Failed(Cause::BadCode);
    }
    Hop::Comes(Act::Open { first, count })
}

/// A separate block begins, by its number.
pub fn open(program: &Program, activation: &Activation, number: usize) -> Hop
    ensures follows { FollowsAnywhere program.now.image (coded.Open number) result (activation_of activation.now) }
    ensures told { Tells program.now.image result (activation_of activation.now) }
{
    match block_at(program, number) {
        Some(block) => open_block(activation, block),
        None => Hop::Failed(Cause::BadCode),
    }
}
