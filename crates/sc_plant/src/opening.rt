//! How a run begins.
ghost use Rattle.std.specs.Prelude.{◌≡◌, [], IfOk};
ghost use Rattle.sc_request.specs.Cores.{center_of, log_of};
ghost use Rattle.sc_world.specs.Worlds.{opened};

use sc_code::Program;
use sc_lockpass::Version;
use sc_request::Core;
use std::alloc::{AllocError, Global};

/// How many handlers there may be.
pub const MAX_HANDLERS: u16 = 512;

/// The core of a program.
pub fn open_core(alloc: Global, program: &Program, version: Version) -> Result<Core, AllocError>
    ensures center { IfOk result (λ c. center_of c ≡ (opened program.now.image version).center) }
    ensures log { IfOk result (λ c. log_of c ≡ []) }
    ensures version { IfOk result (λ c. c.state.rights.version ≡ version) }
{
    let class = program.root_class();
    let procedure = program.root_procedure();
    Core::opening(alloc, class, procedure, version)
}
