//! A record that one thread plays.
ghost use Rattle.std.specs.Prelude.{IfOk};
ghost use Rattle.sc_world.specs.Turning.{Runs};
ghost use Rattle.sc_world.specs.Views.{world_of};
ghost use Rattle.sc_world.specs.Worlds.{opened};
ghost use Rattle.sc_driver.specs.Audits.{turns_of};

use sc_audit::RecordLine;
use sc_code::Program;
use sc_lockpass::Version;
use sc_world::World;
use std::alloc::{AllocError, Global};

/// The world of a program after the turns of these lines.
///
/// # Errors
/// Memory ran out.
pub fn play<'p>(
    alloc: Global,
    program: &'p Program,
    version: Version,
    lines: &[RecordLine],
) -> Result<World<'p>, AllocError>
    ensures { IfOk result (λ world. Runs (turns_of lines.now) (opened program.now.image version) (world_of world)) }
{
    let mut world = World::open(alloc, program, version)?;
    for line in lines {
        world.turns_of(line.handler, line.turns)?;
    }
    Ok(world)
}
