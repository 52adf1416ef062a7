//! Settlements beside what regions played, and settlements that memory is refused to.

use crate::programs::program_of;
use crate::rows::{expect_equal, expect_that};
use sc_code::Program;
use sc_lockpass::{HandlerNumber, Version};
use sc_recording::first_difference;
use sc_region::{Job, Want};
use sc_request::{Core, SettleFault};
use sc_worklog::LoggedRegion;
use std::alloc::{AllocError, Global};
use std::process::Abort;
use std::test::Fail;

/// A root that counts by turns that ask nothing.
const COUNTING: &str = "class APPLICATION create make
feature
    n: INTEGER
    make do from n := 0 until n = 100 loop n := n + 1 end end
end
";

/// The regions of all handlers that there may be, with empty logs.
fn regions_of<'p>(
    alloc: Global,
    program: &'p Program,
) -> Result<Vec<LoggedRegion<'p>>, AllocError> {
    let mut regions = Vec::with_capacity(alloc, 512)?;
    for handler in 0..512u16 {
        regions.push(LoggedRegion::new(alloc, program, handler))?;
    }
    Ok(regions)
}

/// Plays the next job of the core by its region, and settles it.
fn play_next(core: &mut Core, regions: &mut [LoggedRegion<'_>]) -> Result<(), Fail> {
    core.make_room()?;
    if let Some(handler) = core.pick()
        && let Some(job) = core.job_out(handler)
        && let Some(region) = regions.get_mut(handler as usize)
    {
        let outcome = region.play(job, 1)?;
        return match core.settle(handler, outcome.turns, &outcome.want) {
            Ok(()) => Ok(()),
            Err(_) => Err(Fail::new("the settlement has no room")),
        };
    }
    Err(Fail::new("no handler has a job"))
}

/// The least handler whose log differs from what was settled of it, if there is one: none once three jobs of the root are
/// settled, and then each of two that play a job which is settled of none.
fn expect_differences<R: Abort>(
    rt: &R,
    core: &mut Core,
    regions: &mut [LoggedRegion<'_>],
) -> Result<(), Fail> {
    for _ in 0..3 {
        play_next(core, regions)?;
    }
    for differs in &[None, Some(7), Some(0)] {
        if let Some(handler) = *differs
            && let Some(region) = regions.get_mut(handler as usize)
        {
            region.play(&Job::Go, 1)?;
        }
        if regions.len() != 512 {
            return Err(Fail::new("there are other regions"));
        }
        let found = first_difference(regions, core.log());
        expect_equal(rt, found, *differs, "the first log that differs");
    }
    Ok(())
}

#[test]
fn logs_that_differ_are_found(rt: HostRuntime) -> Result<(), Fail> {
    let alloc = rt.alloc();
    let program = program_of(alloc, COUNTING)?;
    let class = program.root_class();
    let mut core = Core::opening(alloc, class, program.root_procedure(), Version::Two)?;
    let mut regions = regions_of(alloc, &program)?;
    expect_differences(&rt, &mut core, &mut regions)
}

/// Settles a turn of a handler without room for it. Where memory is refused, nothing is settled, and there is memory when it is
/// settled once more. Then the handler isn't out any more.
fn expect_settled<R: Abort>(rt: &R, core: &mut Core, handler: HandlerNumber) {
    let before = core.log().len();
    let mut answer = core.settle(handler, 1, &Want::Continue);
    if let Err(SettleFault::OutOfMemory) = answer {
        expect_equal(rt, core.log().len(), before, "settlements without memory");
        let is_out = core.job_out(handler).is_some();
        expect_that(rt, is_out, "the handler is out still");
        answer = core.settle(handler, 1, &Want::Continue);
    }
    let is_settled = answer.is_ok();
    expect_that(rt, is_settled, "it is settled once there is memory");
    let settled = core.log().len();
    expect_equal(rt, settled, before + 1, "settlements with memory");
    let is_named = match core.settle(handler, 1, &Want::Continue) {
        Err(SettleFault::NotOut { handler: named }) => named == handler,
        _ => false,
    };
    expect_that(rt, is_named, "a handler that isn't out isn't settled");
}

#[test]
fn settles_once_there_is_memory(rt: HostRuntime) -> Result<(), Fail> {
    let alloc = rt.alloc();
    let program = program_of(alloc, COUNTING)?;
    let class = program.root_class();
    let mut core = Core::opening(alloc, class, program.root_procedure(), Version::Two)?;
    let Some(handler) = core.pick() else {
        return Err(Fail::new("no handler has a job"));
    };
    expect_settled(&rt, &mut core, handler);
    Ok(())
}
