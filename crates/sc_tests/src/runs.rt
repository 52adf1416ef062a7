//! A run by several workers, beside the replay of its record, and handlers that wait for each other in it.

use crate::programs::program_of;
use crate::rows::{expect_bytes, expect_equal, expect_that};
use sc_audit::{Record, RecordLine};
use sc_code::Program;
use sc_driver::{AuditFault, RunReport, audit, replay};
use sc_lockpass::HandlerNumber;
use sc_plant::{Gate, Left, RunFault, run};
use std::alloc::{AllocError, Global};
use std::process::Abort;
use std::sync::Wait;
use std::sync::atomic::{AtomicU64, Ordering};
use std::test::Fail;
use std::thread;
use std::thread::Threads;
use std::time::{Clock, Duration};

/// How many turns a run makes at most.
const LIMIT: u32 = 1_000_000;

/// Looks at most so often whether it may go on, with a millisecond after each look. Where memory is refused to another worker it
/// looks in vain.
const LOOKS: u32 = 3_000;

/// Which handlers wait as a worker begins to play them, and for what: until all of them are played at once, and handler 3 has
/// ended so often.
#[derive(Drop)]
pub struct Waits {
    /// A bit for each handler, by its number.
    pub handlers: u64,
    pub ends: u64,
}

/// No handler waits.
pub const NEVER: Waits = Waits {
    handlers: 0,
    ends: 0,
};

/// A gate at which handlers wait, and what it has seen of a run.
#[derive(Drop)]
struct Waiting<'a, C: Clock + Sync> {
    clock: &'a C,
    waits: Waits,
    /// A bit for each handler that has begun, by its number.
    begun: AtomicU64,
    /// A bit for each handler that is being played, by its number.
    playing: AtomicU64,
    /// 1 once all handlers that wait were played at once.
    met: AtomicU64,
    /// How many tasks have ended.
    tasks: AtomicU64,
    /// How often handler 3 has ended.
    ended: AtomicU64,
    /// 1 once a wait has run out. Then none waits any more.
    late: AtomicU64,
}

/// The bit of a handler, if it has one.
fn bit_of(handler: HandlerNumber) -> u64 {
    1_u64.checked_shl(handler as u32).unwrap_or(0)
}

/// Whether what handlers wait for has come: all that wait were played at once, and handler 3 has ended so often.
fn is_over(ends: u64, met: &AtomicU64, ended: &AtomicU64) -> bool {
    met.load(Ordering::SeqCst) == 1 && ended.load(Ordering::SeqCst) >= ends
}

impl<'a, C: Clock + Sync> Waiting<'a, C> {
    /// Each handler that waits was played, and no wait ran out: a run on one thread that calls the gate waits in vain, and one
    /// that doesn't call it lets none begin. What began has ended.
    fn expect_waited<R: Abort>(&self, rt: &R) {
        let waiting = self.waits.handlers;
        let late = self.late.load(Ordering::SeqCst);
        expect_equal(rt, late, 0, "waits that ran out");
        let waited = self.begun.load(Ordering::SeqCst) & waiting;
        expect_equal(rt, waited, waiting, "handlers that wait");
        let is_over = is_over(self.waits.ends, &self.met, &self.ended);
        expect_that(rt, is_over, "what they wait for has come");
        let playing = self.playing.load(Ordering::SeqCst);
        expect_equal(rt, playing, 0, "handlers that have not ended");
    }
}

impl<'a, C: Clock + Sync> Gate for Waiting<'a, C> {
    fn began(&self, handler: HandlerNumber) {
        let bit = bit_of(handler);
        let waiting = self.waits.handlers;
        self.begun.fetch_or(bit, Ordering::SeqCst);
        let playing = self.playing.fetch_or(bit, Ordering::SeqCst) | bit;
        if playing & waiting == waiting {
            self.met.store(1, Ordering::SeqCst);
        }
        if bit & waiting == 0 {
            return;
        }
        for _ in 0..LOOKS {
            if is_over(self.waits.ends, &self.met, &self.ended)
                || self.late.load(Ordering::SeqCst) == 1
            {
                return;
            }
            thread::sleep(self.clock, Duration::from_millis(1));
        }
        self.late.store(1, Ordering::SeqCst);
    }

    fn ended(&self, handler: HandlerNumber) {
        self.playing.fetch_and(!bit_of(handler), Ordering::SeqCst);
        self.tasks.fetch_add(1, Ordering::SeqCst);
        if handler == 3 {
            self.ended.fetch_add(1, Ordering::SeqCst);
        }
    }
}

/// What a run of a program leaves, in which each of the handlers that wait waits, and none in vain. If there is one worker, the
/// gate sees each task of its record.
pub fn left_by<'p, R: Abort + Threads + Wait + Clock + Sync>(
    rt: &R,
    alloc: Global,
    program: &'p Program,
    workers: u8,
    waits: Waits,
) -> Result<Left<'p>, Fail> {
    let gate = Waiting {
        clock: rt,
        waits,
        begun: AtomicU64::new(0),
        playing: AtomicU64::new(0),
        met: AtomicU64::new(0),
        tasks: AtomicU64::new(0),
        ended: AtomicU64::new(0),
        late: AtomicU64::new(0),
    };
    match run(rt, alloc, program, workers, LIMIT, &gate) {
        Ok(left) => {
            gate.expect_waited(rt);
            let tasks = gate.tasks.load(Ordering::SeqCst);
            if workers == 1 {
                expect_equal(rt, tasks, left.lines.len() as u64, "tasks");
            }
            Ok(left)
        }
        Err(fault) if workers > 1 => {
            let begun = gate.begun.load(Ordering::SeqCst);
            expect_refused(rt, alloc, program, fault, begun)?;
            Err(Fail::from(AllocError))
        }
        Err(_) => Err(Fail::from(AllocError)),
    }
}

/// Plays a system with handlers that wait: the audit of what the run leaves says yes, and this is the report.
pub fn expect_report<R: Abort + AllocGlobal + Threads + Wait + Clock + Sync>(
    rt: &R,
    text: &str,
    workers: u8,
    waits: Waits,
    report: &str,
) -> Result<(), Fail> {
    let alloc = rt.alloc();
    let program = program_of(alloc, text)?;
    let left = left_by(rt, alloc, &program, workers, waits)?;
    expect_audited(rt, alloc, &program, left, Some(report))
}

/// Memory was refused to a run: then either no handler had begun, or the audit of what is left says yes once the refused turn is
/// made. A thread may be refused for want of memory, too.
fn expect_refused<R: Abort>(
    rt: &R,
    alloc: Global,
    program: &Program,
    fault: RunFault<'_>,
    begun: u64,
) -> Result<(), Fail> {
    match fault {
        RunFault::OutOfMemory(Some(mut left)) => {
            finish_refused_turn(alloc, program, &mut left)?;
            expect_audited(rt, alloc, program, left, None)
        }
        RunFault::OutOfMemory(None) => {
            expect_equal(rt, begun, 0, "handlers that have begun");
            Ok(())
        }
        RunFault::ThreadRefused => Ok(()),
        RunFault::LogsDiffer(handler, _) => {
            Err(Fail::new(format_args!("the logs of handler {handler} differ")))
        }
    }
}

/// Makes the turn that was refused memory, and writes it into the record, if its beginning is all that tells what is left
/// from where its record leads: an audit reports its handler.
fn finish_refused_turn(alloc: Global, program: &Program, left: &mut Left<'_>) -> Result<(), Fail> {
    let Err(AuditFault::Differs { handler }) = audit(alloc, program, left) else {
        return Ok(());
    };
    left.core.make_room()?;
    left.lines.push(RecordLine { handler, turns: 1 })?;
    if let Some(job) = left.core.pick_for(handler)
        && let Some(region) = left.regions.get_mut(handler as usize)
    {
        left.core.pick_at(handler);
        let outcome = region.play(&job, 1)?;
        return Ok(left.core.settle(handler, outcome.turns, &outcome.want)?);
    }
    Err(Fail::from(AuditFault::Differs { handler }))
}

/// The audit of what is left says yes, and this is the report, if one is wanted.
fn expect_audited<R: Abort>(
    rt: &R,
    alloc: Global,
    program: &Program,
    left: Left<'_>,
    wanted: Option<&str>,
) -> Result<(), Fail> {
    audit(alloc, program, &left)?;
    let version = left.version;
    let (report, lines) = left.into_report(alloc)?;
    expect_replayed(
        rt,
        alloc,
        program,
        &Record { version, lines },
        &report,
        wanted,
    )
}

/// The report is a text, which a replay of the record prints, too.
fn expect_replayed<R: Abort>(
    rt: &R,
    alloc: Global,
    program: &Program,
    record: &Record,
    report: &[u8],
    wanted: Option<&str>,
) -> Result<(), Fail> {
    let report = str::from_utf8(report)?;
    expect_equal(rt, report, wanted.unwrap_or(report), "the report");
    let RunReport { report: told, .. } = replay(alloc, program, record)?;
    expect_bytes(rt, &told, report, "a replay")
}
