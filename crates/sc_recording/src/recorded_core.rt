//! The core with the record of its settlements.
ghost use Rattle.std.specs.Prelude.{◌≡◌, Some};
ghost use Rattle.sc_code.specs.declared.program.Image.{Image};
ghost use Rattle.sc_lockpass.specs.declared.version.Version.TheVariants.{Two};
ghost use Rattle.sc_request.specs.Cores.{center_of, log_of, state_of};
ghost use Rattle.sc_recording.specs.Due.{AreBelow, GrantsNone, PlaysTo};
ghost use Rattle.sc_recording.specs.Recorded.{lines_of};

use crate::due::{self, Undue};
use crate::of_program::OfProgram;
use sc_audit::RecordLine;
use sc_lockpass::HandlerNumber;
use sc_region::{Job, Want};
use sc_request::Core;
use std::alloc::AllocError;
use std::marker::PhantomData;

/// The core of a run, with its settlements as the lines of a record.
///
/// The settlements lead from the opening of the run's program to the state of the core, each under the job that its handler
/// had to do there. No handler is out with what its reserve step was granted, so nothing is reserved but by a settlement.
#[derive(Drop)]
pub struct RecordedCore<P: OfProgram> {
    pub core: Core,
    pub lines: Vec<RecordLine>,
    pub of: PhantomData<P>,
    pub ghost plays: { (p : Image) → P.image ≡ Some p → ∥ PlaysTo p (log_of core) (state_of core) ∥₁ },
    pub ghost recorded: { lines.items ≡ lines_of (log_of core) },
    pub ghost below: { AreBelow (log_of core) },
    pub ghost none: { GrantsNone (center_of core) },
    pub ghost version: { core.state.rights.version ≡ Two },
}

impl<P: OfProgram> RecordedCore<P> {
    /// Settles and records this number of turns of a handler under the job that it has now. The handler isn't out any
    /// more.
    pub fn settle(&mut self, handler: HandlerNumber, turns: u32, want: &Want) -> Result<(), Undue> {
        if self.lines.reserve(1).is_err() {
            return Err(Undue::OutOfMemory);
        }
        due::settle_due(&mut self.core, handler, turns, want)?;
        self.lines.push_reserved(RecordLine { handler, turns });
        Ok(())
    }

    /// Picks the next handler with a job, and writes the job into a place. If a reserve step was granted, the handler
    /// isn't out, and must be played and settled before another one is picked. None if no handler has a job.
    ///
    /// There is room then to settle and to record it, and all that are out.
    ///
    /// # Errors
    /// Memory ran out. Then no handler goes out.
    pub fn pick(&mut self, place: &mut Job) -> Result<Option<HandlerNumber>, AllocError> {
        let wanted = self.core.out_count().saturating_add(1);
        self.lines.reserve(wanted)?;
        due::pick_due(&mut self.core, place)
    }

    /// The handler isn't out any more.
    pub fn put_back(&mut self, handler: HandlerNumber) {
        self.core.put_back(handler);
    }

    /// Whether no handler has anything to do but those that are out, where this one is.
    pub fn is_idle(&mut self, handler: HandlerNumber) -> bool {
        self.core.comes_again(handler)
    }
}
