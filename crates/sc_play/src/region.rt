//! Regions.
ghost use Rattle.std.specs.Prelude.{◌≡◌, ◌<◌, ◌≤◌, ◌↔◌, IfOk, OnErr, IsTrue};
ghost use Rattle.sc_region.specs.declared.job.Want.TheVariants as want;
ghost use Rattle.sc_region.specs.Stores.{AreSame, failed, new_store};
ghost use Rattle.sc_play.specs.Regions.{PlaysOn, PlaysUnder};
ghost use Rattle.sc_play.specs.Turns.{IsAhead, StopsFirst, begun, is_going};

use crate::hashing::hash_store;
use crate::turn::{first_turn, turn};
use sc_code::Program;
use sc_interp::run_current;
use sc_lockpass::HandlerNumber;
use sc_model::Cause;
use sc_region::{Breakdown, Job, ObjectNumber, Outcome, Store, Want};
use std::alloc::{AllocError, Global};
use std::marker::Model;

/// The store of a handler, with the handler's number.
#[derive(Drop)]
pub struct Region<'p> {
    store: Store<'p>,
    handler: HandlerNumber,
    /// Whether a job whose turn was refused memory has given the creator of a handler its number.
    is_told: bool,
}

impl<'p> Model for Region<'p> {
    ghost use Rattle.std.specs.Coded.{codes};
    ghost use Rattle.sc_formula.specs.contracts.formula.Formula as formula;
    ghost use Rattle.sc_formula.specs.contracts.term.Term as term;
    ghost use Rattle.sc_play.specs.Regions as m;

    ghost Value = { m.PlainRegion };

    ghost coded = { Prim.hlevel (codes, term.the_row.coded, formula.the_row.coded) };

    ghost view = { λ r. record { handler = r.handler; store = r.store; is_told = r.is_told } };
}

/// Whether nothing is asked.
fn is_continue(asked: &Want) -> bool
    ensures { IsTrue result ↔ asked.now ≡ want.Continue }
{
    matches!(asked, Want::Continue)
}

/// Whether nothing was made, entered or printed yet.
fn is_new(store: &Store<'_>) -> bool
    ensures { IsTrue result ↔ AreSame store.now (new_store store.now.program) }
{
    store.object_count() == 0
        && store.current().is_none()
        && store.output().is_empty()
        && store.failure().is_none()
}

/// The handler fails.
fn fail(store: &mut Store<'_>, why: Cause, asked: &mut Want)
    ensures store { store.new ≡ failed why store.old }
    ensures want { asked.new ≡ want.Fail why }
{
    store.fail(why);
    *asked = Want::Fail(why);
}

/// Makes further turns, as long as they want nothing and fewer than `limit` are made: returns how many turns are made
/// then, with those that were `made` already. The last of these wanted what was in `asked`, which now holds what the
/// last of all wants. If memory is refused, they end before that turn; Err if none is made.
///
/// It isn't inlined; all turns that aren't the first of a job are made in it.
#[inline(never)]
fn play_on(
    store: &mut Store<'_>,
    handler: HandlerNumber,
    made: u32,
    limit: u32,
    asked: &mut Want,
) -> Result<u32, AllocError>
    requires few { made ≤ limit }
    requires some { 1 ≤ limit }
    requires asked { made ≡ 0 → asked.old ≡ want.Continue }
    ensures ok { IfOk result (λ turns. PlaysOn made limit handler store.old asked.old store.new turns asked.new) }
    ensures none { OnErr result (made ≡ 0) }
    ensures err { OnErr result (IsAhead store.old store.new) }
{
    let mut turns = made;
    while turns < limit {
        if !is_continue(asked) {
            return Ok(turns);
        }
        let (now, step) = run_current(store, turns, limit);
        match step {
            Ok(()) => {
                if now == limit {
                    return Ok(now);
                }
                match turn(store, handler, asked) {
                    Ok(()) => turns = now + 1,
                    Err(error) => return if now == 0 { Err(error) } else { Ok(now) },
                }
            }
            Err(why) => {
                fail(store, why, asked);
                return Ok(now + 1);
            }
        }
    }
    Ok(turns)
}

/// Makes the first turn under the job, and further ones, as long as they want nothing and fewer than `limit` are
/// made: returns how many turns are made. If memory is refused to a further one, they end before it. Err if it is
/// refused to the first.
#[tactic(auto, using(crate::proofs::FurtherTurns::stops_first))]
fn play_under(
    store: &mut Store<'_>,
    handler: HandlerNumber,
    job: &Job,
    is_told: bool,
    limit: u32,
    asked: &mut Want,
) -> Result<u32, AllocError>
    requires limit { 1 ≤ limit }
    requires asked { asked.old ≡ want.Continue }
    ensures ok { IfOk result (λ turns. PlaysUnder limit handler is_told job.now store.old store.new turns asked.new) }
    ensures err { OnErr result (StopsFirst (is_going job.now) (begun is_told job.now store.old) store.new) }
{
    let made = first_turn(store, handler, job, is_told, asked)?;
    if made {
        play_on(store, handler, 1, limit, asked)
    } else {
        play_on(store, handler, 0, limit, asked)
    }
}

impl<'p> Region<'p> {
    ghost use Rattle.std.specs.Prelude.{◌&&◌, is_some, length};
    ghost use Rattle.sc_region.specs.Classes.{MeetsAt};
    ghost use Rattle.sc_region.specs.Objects.{object_numbered};
    ghost use Rattle.sc_region.specs.Stores.{AreSame, SettledObjectsMeet, is_settled};
    ghost use Rattle.sc_play.specs.Contents.{contents_of, new_contents};
    ghost use Rattle.sc_play.specs.Regions.{IsRefused, Plays, new_region, outcome};

    /// The region of the handler of a number, which was asked for nothing yet. What grows later takes its memory from this
    /// allocator.
    pub fn new(alloc: Global, program: &'p Program, handler: HandlerNumber) -> Region<'p>
        ensures { result ≡ new_region program.now.image handler }
    {
        Region {
            store: Store::new(alloc, program),
            handler,
            is_told: false,
        }
    }

    /// A copy, which takes its memory from this allocator.
    ///
    /// # Errors
    /// Memory ran out.
    pub fn copy(&self, alloc: Global) -> Result<Region<'p>, AllocError>
        ensures { IfOk result (λ region. region ≡ self.now) }
    {
        Ok(Region {
            store: self.store.copy(alloc)?,
            handler: self.handler,
            is_told: self.is_told,
        })
    }

    /// Makes the first turn of the job, and further ones as long as they want nothing and fewer than `limit` are
    /// made. If memory is refused to one of these, they end before it. Err if memory is refused to the first: at most
    /// silent operations of a routine that goes on are executed then. The job can be played again, and has the result
    /// that it would have had from the region as it was ([`refused_jobs_go_on`](crate::laws::refused_jobs_go_on)).
    pub fn play(&mut self, job: &Job, limit: u32) -> Result<Outcome, AllocError>
        requires { 1 ≤ limit }
        ensures ok { IfOk result (λ outcome. Plays limit job.now self.old self.new outcome) }
        ensures err { OnErr result (IsRefused job.now self.old self.new) }
    {
        let mut want = Want::Continue;
        let turns = self.play_asking(job, limit, &mut want)?;
        Ok(Outcome {
            handler: self.handler,
            turns,
            want,
        })
    }

    /// Plays a job as `play` does, and writes what its last turn wants into a place: returns how many turns are made.
    pub fn play_asking(
        &mut self,
        job: &Job,
        limit: u32,
        asked: &mut Want,
    ) -> Result<u32, AllocError>
        requires limit { 1 ≤ limit }
        requires asked { asked.old ≡ want.Continue }
        ensures ok { IfOk result (λ turns. Plays limit job.now self.old self.new (outcome self.old.handler turns asked.new)) }
        ensures err { OnErr result (IsRefused job.now self.old self.new) }
        ensures handler { self.new.handler ≡ self.old.handler }
    {
        match play_under(
            &mut self.store,
            self.handler,
            job,
            self.is_told,
            limit,
            asked,
        ) {
            Ok(turns) => {
                self.is_told = false;
                Ok(turns)
            }
            Err(error) => {
                self.is_told = self.is_told || matches!(job, Job::Made(_));
                Err(error)
            }
        }
    }

    /// Whether there is an object of the number, and it is settled: the handler hasn't failed, and no routine that it is in
    /// the middle of runs on the object. It meets its class invariant then.
    pub fn settled(&self, number: ObjectNumber) -> bool
        ensures settled { result ≡ (is_settled number self.now.store && is_some (object_numbered number self.now.store.objects)) }
        ensures meets { IsTrue result → MeetsAt self.now.store.program (object_numbered number self.now.store.objects) }
    {
        self.store.settled(number)
    }

    /// Each settled object of a region meets its class invariant, as in its store. Nothing is done.
    pub fn settled_objects_meet(&self)
        ensures { SettledObjectsMeet self.now.store }
    {
        self.store.settled_objects_meet();
    }

    /// Whether there is an object of the number, and it meets its class invariant.
    pub fn test_invariant(&self, number: ObjectNumber) -> bool
        ensures { IsTrue result ↔ MeetsAt self.now.store.program (object_numbered number self.now.store.objects) }
    {
        self.store.test_invariant(number)
    }

    /// What was printed.
    pub fn output(&self) -> &[u8]
        ensures { result.now ≡ self.now.store.output }
    {
        self.store.output()
    }

    /// The output alone: the rest of the region is dropped. It takes no memory.
    pub fn into_output(self) -> Vec<u8>
        ensures { result.items ≡ self.entry.store.output }
    {
        self.store.into_output()
    }

    /// Where the handler was as it failed, or else is now, to be shown to people. It has no contract: no turn depends
    /// on it.
    pub fn breakdown(&self) -> Breakdown {
        self.store.breakdown()
    }

    /// Whether the stores of the two hold equal objects, frames, output and failure.
    pub fn is_same(&self, other: &Region<'_>) -> bool
        ensures { IsTrue result ↔ AreSame self.now.store other.now.store }
    {
        self.store.is_same(&other.store)
    }

    /// Whether the two are regions of one handler with equal objects, frames, output and failure, whatever their
    /// programs are, and whether a refused job has given the creator of a handler its number.
    pub fn is_alike(&self, other: &Region<'_>) -> bool
        ensures { IsTrue result ↔ contents_of self.now ≡ contents_of other.now }
    {
        self.handler == other.handler && self.is_told == other.is_told && self.is_same(other)
    }

    /// Whether it is the region of the handler, which was asked for nothing yet.
    pub fn is_new(&self, handler: HandlerNumber) -> bool
        ensures { IsTrue result ↔ contents_of self.now ≡ new_contents handler }
    {
        self.handler == handler && !self.is_told && is_new(&self.store)
    }

    /// A number that differs for most regions that hold something else. Nothing is promised of it. It takes time for each
    /// attribute of an object, and for each value of the topmost routine.
    pub fn hash(&self) -> u64 {
        hash_store(&self.store)
    }

    /// The store.
    pub fn store(&self) -> &Store<'p>
        ensures { result.now ≡ self.now.store }
    {
        &self.store
    }

    /// How many objects there are.
    pub fn object_count(&self) -> usize
        ensures { result ≡ length self.now.store.objects }
    {
        self.store.object_count()
    }
}
