//! The audit.
ghost use Rattle.std.specs.Prelude.{IfErr, OnOk};
ghost use Rattle.sc_driver.specs.Audits.{IsAudited, TellsWhy};

use crate::lines::first_misfit;
use crate::playing::play;
use sc_code::Program;
use sc_lockpass::HandlerNumber;
use sc_plant::Left;
use sc_recording::first_that_differs;
use std::alloc::Global;
use thiserror::Error;

/// Why an audit doesn't say yes.
#[derive(Clone, Copy, Debug, Error)]
pub enum AuditFault {
    /// A1: the lines are no record's. In its text this line, from 1, is the first that doesn't fit.
    #[error("line {line} is no line of a record")]
    BadRecord { line: u32 },
    /// A2: one thread that plays the record ends in something else. This handler is the least that differs.
    #[error("one thread that plays the record ends otherwise at handler {handler}")]
    Differs { handler: HandlerNumber },
    /// A9: there is no memory to play the record.
    #[error("out of memory")]
    OutOfMemory,
}

/// Whether one thread that plays the record of what a run of the program left ends in just that: objects, frames,
/// queues, rights, counts, outputs and each handler's status. The logs aren't compared.
///
/// # Errors
/// [`AuditFault::BadRecord`] if the lines are no record's, else [`AuditFault::OutOfMemory`] if memory ran
/// out, else [`AuditFault::Differs`] if something differs.
pub fn audit(alloc: Global, program: &Program, left: &Left<'_>) -> Result<(), AuditFault>
    ensures yes { OnOk result (IsAudited program.now.image left.now) }
    ensures fault { IfErr result (TellsWhy program.now.image left.now) }
{
    if let Some(line) = first_misfit(left.version, &left.lines) {
        return Err(AuditFault::BadRecord { line });
    }
    let Ok(world) = play(alloc, program, left.version, &left.lines) else {
        return Err(AuditFault::OutOfMemory);
    };
    match first_that_differs(&world, &left.core, &left.regions) {
        Some(handler) => Err(AuditFault::Differs { handler }),
        None => Ok(()),
    }
}
