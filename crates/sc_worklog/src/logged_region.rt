//! A region with its log.
ghost use Rattle.std.specs.Prelude.{◌≡◌, ◌++◌, ◌∷◌, []};
ghost use Rattle.sc_play.specs.Regions.{outcome};
ghost use Rattle.sc_handler.specs.Logged.{HasPlaces, settlements_of};
ghost use Rattle.sc_worklog.specs.Replaying.{Replays, entry_of};

use sc_code::Program;
use sc_handler::Log;
use sc_lockpass::HandlerNumber;
use sc_play::Region;
use sc_region::{Job, ObjectNumber, Outcome, Want};
use std::alloc::{AllocError, Global};

/// A region, and the log of the jobs that it played, the first one first.
///
/// Each entry has the job, the handler that played it, how many turns that made, and what the last of them asked. The log
/// replays to the region.
#[derive(Drop)]
pub struct LoggedRegion<'p> {
    region: Region<'p>,
    handler: HandlerNumber,
    log: Log,
    pub ghost numbered: { region.handler ≡ handler },
    pub ghost replays: { ∥ Replays region.store.program region.handler (settlements_of log) region ∥₁ },
}

/// Notes this number of turns of a handler under a job, the last of which wanted this, if there is room.
fn note(log: &mut Log, handler: HandlerNumber, job: &Job, turns: u32, asked: &Want)
    requires { HasPlaces 1 log.old }
    ensures { settlements_of log.new ≡ settlements_of log.old ++ entry_of job.now (outcome handler turns asked.now) ∷ [] }
{
    log.push(handler, job, turns, asked);
}

impl<'p> LoggedRegion<'p> {
    ghost use Rattle.std.specs.Prelude.{◌⊎◌, ◌↔◌, ◌≤◌, ◌&&◌, IfOk, IsTrue, OnErr, is_some, length};
    ghost use Rattle.sc_region.specs.declared.job.Want.TheVariants as want;
    ghost use Rattle.sc_region.specs.Classes.{MeetsAt};
    ghost use Rattle.sc_region.specs.Objects.{object_numbered};
    ghost use Rattle.sc_region.specs.Stores.{is_settled};
    ghost use Rattle.sc_play.specs.Regions.{IsRefused, Plays, new_region};
    ghost use Rattle.sc_worklog.specs.LoggedRegions.{entries_of, region_of};

    /// The region of the handler of a number, which was asked for nothing yet, and a log with no entry. What grows later
    /// takes its memory from this allocator.
    pub fn new(alloc: Global, program: &'p Program, handler: HandlerNumber) -> LoggedRegion<'p>
        ensures region { region_of result ≡ new_region program.now.image handler }
        ensures entries { entries_of result ≡ [] }
    {
        LoggedRegion {
            region: Region::new(alloc, program, handler),
            handler,
            log: Log::new(alloc),
        }
    }

    /// The region of the handler of a number, with a log that replays to it.
    pub fn with_log(region: Region<'p>, handler: HandlerNumber, log: Log) -> LoggedRegion<'p>
        requires number { region.handler ≡ handler }
        requires replays { ∥ Replays region.store.program region.handler (settlements_of log) region ∥₁ }
        ensures region { region_of result ≡ region.entry }
        ensures entries { entries_of result ≡ settlements_of log }
    {
        LoggedRegion {
            region,
            handler,
            log,
        }
    }

    /// Makes the first turn of the job, and further ones as long as they want nothing and fewer than `limit` are
    /// made. If memory is refused to one of these, they end before it. The log then has one more entry, with the job
    /// and its outcome.
    ///
    /// # Errors
    /// Memory ran out for the log, and nothing has changed; or for the first turn: the log is as it was, and
    /// the job can be played again and goes on where it stopped.
    pub fn play(&mut self, job: &Job, limit: u32) -> Result<Outcome, AllocError>
        requires { 1 ≤ limit }
        ensures ok { IfOk result (λ outcome. Plays limit job.now (region_of self.old) (region_of self.new) outcome) }
        ensures logged { IfOk result (λ outcome.
            entries_of self.new ≡ entries_of self.old ++ entry_of job.now outcome ∷ []) }
        ensures err { OnErr result
            ((region_of self.new ≡ region_of self.old) ⊎ IsRefused job.now (region_of self.old) (region_of self.new)) }
        ensures kept { OnErr result (entries_of self.new ≡ entries_of self.old) }
    {
        let mut want = Want::Continue;
        let turns = self.play_asking(job, limit, &mut want)?;
        Ok(Outcome {
            handler: self.handler,
            turns,
            want,
        })
    }

    /// Plays a job as `play` does, and writes what its last turn wants into a place: returns how many turns are made.
    pub fn play_asking(
        &mut self,
        job: &Job,
        limit: u32,
        asked: &mut Want,
    ) -> Result<u32, AllocError>
        requires limit { 1 ≤ limit }
        requires asked { asked.old ≡ want.Continue }
        ensures ok { IfOk result (λ turns.
            Plays limit job.now (region_of self.old) (region_of self.new) (outcome (region_of self.old).handler turns asked.new)) }
        ensures logged { IfOk result (λ turns.
            entries_of self.new ≡ entries_of self.old ++ entry_of job.now (outcome (region_of self.old).handler turns asked.new) ∷ []) }
        ensures err { OnErr result
            ((region_of self.new ≡ region_of self.old) ⊎ IsRefused job.now (region_of self.old) (region_of self.new)) }
        ensures kept { OnErr result (entries_of self.new ≡ entries_of self.old) }
        ensures handler { (region_of self.new).handler ≡ (region_of self.old).handler }
    {
        self.log.reserve(1)?;
        let turns = self.region.play_asking(job, limit, asked)?;
        note(&mut self.log, self.handler, job, turns, asked);
        Ok(turns)
    }

    /// The region, without its log.
    pub fn region(&self) -> &Region<'p>
        ensures { result.now ≡ region_of self.now }
    {
        &self.region
    }

    /// The region; its log is let go.
    pub fn into_region(self) -> Region<'p>
        ensures { result ≡ region_of self.entry }
    {
        let LoggedRegion { region, .. } = self;
        region
    }

    /// The number of the handler.
    pub fn handler(&self) -> HandlerNumber
        ensures { result ≡ (region_of self.now).handler }
    {
        self.handler
    }

    /// The entries, which replay to the region.
    pub fn log(&self) -> &Log
        ensures entries { settlements_of result.now ≡ entries_of self.now }
        ensures replays { ∥ Replays (region_of self.now).store.program (region_of self.now).handler
            (settlements_of result.now) (region_of self.now) ∥₁ }
    {
        &self.log
    }

    /// Whether there is an object of the number, and it is settled: the handler hasn't failed, and no routine that it is in
    /// the middle of runs on the object. It meets its class invariant then.
    pub fn settled(&self, number: ObjectNumber) -> bool
        ensures settled { result ≡ (is_settled number (region_of self.now).store
            && is_some (object_numbered number (region_of self.now).store.objects)) }
        ensures meets { IsTrue result →
            MeetsAt (region_of self.now).store.program (object_numbered number (region_of self.now).store.objects) }
    {
        self.region.settled(number)
    }

    /// Whether there is an object of the number, and it meets its class invariant.
    pub fn test_invariant(&self, number: ObjectNumber) -> bool
        ensures { IsTrue result ↔
            MeetsAt (region_of self.now).store.program (object_numbered number (region_of self.now).store.objects) }
    {
        self.region.test_invariant(number)
    }

    /// What was printed.
    pub fn output(&self) -> &[u8]
        ensures { result.now ≡ (region_of self.now).store.output }
    {
        self.region.output()
    }

    /// How many objects there are.
    pub fn object_count(&self) -> usize
        ensures { result ≡ length (region_of self.now).store.objects }
    {
        self.region.object_count()
    }
}
