//! What a run on several threads leaves.
ghost use Rattle.std.specs.Prelude.{◌≡◌, IfOk};
ghost use Rattle.sc_world.specs.Reports as told;
ghost use Rattle.sc_plant.specs.Left.{world_of};

use crate::reporting::append_handler;
use sc_audit::RecordLine;
use sc_lockpass::{HandlerNumber, Version};
use sc_play::Region;
use sc_request::Core;
use sc_worklog::LoggedRegion;
use sc_world::{is_busy, push_end};
use std::alloc::{AllocError, Global};
use std::fmt;
use thiserror::Error;

/// What a run leaves: the region of each handler by number, with regions for those that there may be, and the core.
#[derive(Drop)]
pub struct Left<'p> {
    pub regions: Vec<Region<'p>>,
    pub core: Core,
    /// Which handler made how many turns, in the order in which they were settled.
    pub lines: Vec<RecordLine>,
    pub version: Version,
}

/// What a run leaves, with the log of the jobs that each region played.
#[derive(Drop)]
pub struct LoggedLeft<'p> {
    pub regions: Vec<LoggedRegion<'p>>,
    pub core: Core,
    pub lines: Vec<RecordLine>,
    pub version: Version,
}

/// Why a run isn't done.
#[derive(Drop, Error)]
pub enum RunFault<'p> {
    /// U1: memory was refused. It has what the run left, after the refused turn was put back and all others were
    /// settled; or nothing, if it was refused before the first turn.
    #[error("out of memory")]
    OutOfMemory(Option<Left<'p>>),
    /// U2: a thread was refused.
    #[error("no thread can be started")]
    ThreadRefused,
    /// U3: the region of this handler played other jobs, or turns, than were settled of it. Workers settle what they play,
    /// so this isn't expected, but no proof excludes it.
    #[error("the logs of handler {0} differ")]
    LogsDiffer(HandlerNumber, LoggedLeft<'p>),
}

impl fmt::Debug for RunFault<'_> {
    /// The message alone: what is left isn't shown.
    fn fmt<W: fmt::Write>(&self, f: &mut fmt::Formatter<W>) -> fmt::Result {
        fmt::Display::fmt(self, f)
    }
}

impl<'p> Left<'p> {
    /// The report: each handler's line and output, and how the run has ended. Beside it, the lines of the record.
    ///
    /// What the handlers printed is moved out of their regions. At any time at most half of it is in memory twice.
    ///
    /// # Errors
    /// Memory ran out.
    pub fn into_report(self, alloc: Global) -> Result<(Vec<u8>, Vec<RecordLine>), AllocError>
        ensures report { IfOk result (λ parts. parts.0.items ≡ told.report (world_of self.entry)) }
        ensures lines { IfOk result (λ parts. parts.1.items ≡ self.entry.lines.items) }
    {
        let Left {
            regions,
            core,
            lines,
            ..
        } = self;
        let mut regions = regions.into_iter();
        let mut report = Vec::new(alloc);
        let mut ends_busy = false;
        for handler in 0..core.handler_count() {
            let Some(status) = core.status(handler as HandlerNumber) else {
                break;
            };
            let refused = core.refused(handler as HandlerNumber).unwrap_or(0);
            let output = match regions.next() {
                Some(region) => region.into_output(),
                None => Vec::new(alloc),
            };
            report = append_handler(alloc, report, handler, status, refused, output)?;
            ends_busy = ends_busy || is_busy(status);
        }
        push_end(&mut report, ends_busy)?;
        Ok((report, lines))
    }
}
