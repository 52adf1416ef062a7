//! A program that is opened once, and brought back to its opening before each run.
ghost use Rattle.std.specs.Prelude.{◌≡◌, IfOk, OnOk};
ghost use Rattle.sc_lockpass.specs.declared.version.Version.TheVariants.{Two};
ghost use Rattle.sc_world.specs.Kept.{kept};
ghost use Rattle.sc_world.specs.Views.{world_in};
ghost use Rattle.sc_world.specs.Worlds.{opened};
ghost use Rattle.sc_chance.specs.Stages.{IsStage};

use sc_code::Program;
use sc_lockpass::Version;
use sc_play::Region;
use sc_request::Part;
use sc_world::laws::{
    openings_are_linked, openings_are_of_their_program, worlds_are_kept_by_numbers,
};
use sc_world::{Configuration, Numbers, Tables};
use std::alloc::{AllocError, Global};

/// Where the runs of a program are played, one after the other.
#[derive(Drop)]
pub struct Stage<'p> {
    pub(crate) configuration: Configuration<'p>,
    /// What the region of the first handler, and what the core keeps of it, are at the opening. All else is new there.
    pub(crate) regions: Vec<Region<'p>>,
    pub(crate) parts: Vec<Part>,
}

/// The number of the only region, and of the only part.
const FIRST: [u32; 1] = [0];

impl<'p> Stage<'p> {
    /// With at most 512 handlers.
    ///
    /// # Errors
    /// Memory ran out.
    pub fn open(alloc: Global, program: &'p Program) -> Result<Stage<'p>, AllocError>
        ensures { IfOk result (IsStage program.now.image) }
    {
        openings_are_of_their_program();
        let configuration = Configuration::open(alloc, program, Version::Two)?;
        let mut regions = Vec::new(alloc);
        regions.push(Region::new(alloc, program, 0))?;
        let mut parts = Vec::new(alloc);
        parts.push(configuration.core().part(alloc, 0)?)?;
        Ok(Stage {
            configuration,
            regions,
            parts,
        })
    }

    /// Brings it back to the opening of its program, which takes time for what was changed since then.
    ///
    /// # Errors
    /// Memory ran out.
    pub fn reopen(&mut self, program: &Program) -> Result<(), AllocError>
        requires { IsStage program.now.image self.old }
        ensures stage { OnOk result (IsStage program.now.image self.new) }
        ensures opening { OnOk result (kept (world_in self.new.configuration) ≡ kept (opened program.now.image Two)) }
    {
        openings_are_of_their_program();
        openings_are_linked();
        worlds_are_kept_by_numbers();
        let tables = Tables {
            regions: &self.regions,
            parts: &self.parts,
        };
        let opening = Numbers {
            count: 1,
            regions: &FIRST,
            parts: &FIRST,
        };
        self.configuration.load(tables, opening)
    }
}
