//! How far a search has come.
ghost use Rattle.std.specs.Prelude.{◌≡◌, ◌≤◌, ◌<◌, [], ℕ, Some, IfNone, IfOk, IfSome, OnOk, get_or, length, slice_get};
ghost use Rattle.sc_world.specs.Views.{world_in};
ghost use Rattle.sc_world.specs.Kept.{kept};
ghost use Rattle.sc_request.specs.Logs.{pick_for};
ghost use Rattle.sc_world.specs.Turning.{IsTurn, turned_by};
ghost use Rattle.sc_world.specs.Reports as told;
ghost use Rattle.sc_world.specs.Worlds.{opened};
ghost use Rattle.sc_search.specs.Aims.{IsMet};
ghost use Rattle.sc_search.specs.Steps.{AddsEdge, Keeps};

use crate::ends::{FoundEnd, push_outcome};
use crate::following::{Start, go_on};
use crate::judging::{Kind, is_met, some_is};
use crate::limits::Limits;
use crate::memory::bytes_since;
use crate::replay::Subject;
use crate::store::Store;
use crate::verdict::{GivenUp, Pass, Reason};
use crate::watch::{Stage, Watch};
use sc_lockpass::HandlerNumber;
use sc_model::Status;
use sc_orders::Edge;
use sc_world::laws::{
    kept_alike_read_alike, kept_alike_turn_alike, openings_are_linked,
    openings_are_of_their_program, runs_stay_linked, runs_stay_of_their_program,
};
use sc_world::{Configuration, Turned};
use std::alloc::AllocError;

/// How many turns may be played for each state that may be kept.
const TURNS_A_STATE: u64 = 2_000;

/// How many bytes are counted for each state, each edge between two, each number of a tuple, and each turn to a state from the one
/// before it.
const BYTES_A_STATE: u64 = 64;

const BYTES_AN_EDGE: u64 = 24;

const BYTES_A_NUMBER: u64 = 10;

const BYTES_A_TURN: u64 = 4;

/// Why a search stops before all is played.
#[derive(Drop)]
pub(crate) enum Stop {
    /// What is looked for is met after these turns.
    Met(Vec<HandlerNumber>),
    /// The search gives up.
    Cut(GivenUp),
    /// Movers went on and on.
    Endless,
}

/// What a search has met, and the world that it plays in.
#[derive(Drop)]
pub(crate) struct Progress<'p> {
    pass: Pass,
    pub(crate) store: Store<'p>,
    pub(crate) world: Configuration<'p>,
    /// The numbers of what the world holds. It is written each time that a state is looked for.
    tuple: Vec<u32>,
    pub(crate) edges: Vec<Edge>,
    pub(crate) outcomes: Vec<FoundEnd>,
    /// How many turns were played.
    turns: u64,
    /// How many bytes the regions and parts take that are kept.
    held: u64,
}

/// Turns on the way from a state.
#[derive(Clone, Copy)]
pub(crate) struct Way<'w> {
    /// The state that they lead from, or None for the opening.
    pub(crate) parent: Option<u32>,
    pub(crate) turns: &'w [HandlerNumber],
}

impl<'p> Progress<'p> {
    ghost use Rattle.sc_search.specs.Stored.{IsAlikeAfter, IsFrom, IsTupleOf, order_after};
    ghost use Rattle.sc_search.specs.Steps.{GoesOnBy};
    ghost use Rattle.sc_search.specs.Memory.{bytes_of};
    ghost use Rattle.sc_search.specs.Stops.{HasReached, StopsFor};
    ghost use Rattle.sc_search.specs.Views.{met_of, nothing_met, orders_of, states_of, tuples_in};

    /// Progress of a pass with nothing searched yet. The world is the opening.
    ///
    /// # Errors
    /// Memory ran out.
    pub(crate) fn new(subject: Subject<'p>, pass: Pass) -> Result<Progress<'p>, AllocError>
        ensures none { IfOk result (λ progress. met_of progress ≡ nothing_met) }
        ensures opens { IfOk result (λ progress. world_in progress.world ≡ opened subject.entry.program.now.image subject.entry.version) }
        ensures reached { IfOk result (HasReached subject.entry.program.now.image subject.entry.version subject.entry.aim) }
    {
        openings_are_of_their_program();
        Ok(Progress {
            pass,
            store: Store::new(subject.alloc)?,
            world: Configuration::open(subject.alloc, subject.program, subject.version)?,
            tuple: Vec::new(subject.alloc),
            edges: Vec::new(subject.alloc),
            outcomes: Vec::new(subject.alloc),
            turns: 0,
            held: 0,
        })
    }

    /// How many turns were played.
    pub(crate) fn turns(&self) -> u64
        ensures { result ≡ self.now.turns }
    {
        self.turns
    }

    /// Shows how far the search is to a watch for which that is due. The turns of the state with the number were tried last.
    pub(crate) fn show<W: Watch>(&self, number: u32, watch: &mut W) {
        let states = self.store.len();
        if !watch.is_due(states) {
            return;
        }
        watch.sees(Stage {
            pass: self.pass,
            states,
            bytes: self.bytes(),
            depth: self.depth(number),
        })
    }

    /// How many turns lead to the state with the number; 0 if there is none, or if memory ran out.
    fn depth(&self, number: u32) -> u32 {
        if number >= self.store.len() {
            return 0;
        }
        match self.store.order(number) {
            Ok(turns) => turns.len().min(u32::MAX as usize) as u32,
            Err(_) => 0,
        }
    }

    /// That the search gives up here, for this reason.
    pub(crate) fn give_up(&self, reason: Reason) -> GivenUp
        ensures reason { result.reason ≡ reason }
        ensures states { result.states ≡ length (states_of self.now) }
        ensures turns { result.turns ≡ self.now.turns }
        ensures bytes { result.bytes ≡ bytes_of self.now }
    {
        GivenUp {
            pass: self.pass,
            reason,
            states: self.store.len(),
            turns: self.turns,
            bytes: self.bytes(),
        }
    }

    /// How many bytes what is kept takes.
    pub(crate) fn bytes(&self) -> u64
        ensures { result ≡ bytes_of self.now }
    {
        let states = BYTES_A_STATE * self.store.len() as u64;
        let numbers = BYTES_A_NUMBER * self.store.number_count() as u64;
        let steps = BYTES_A_TURN * self.store.step_count() as u64;
        let edges = BYTES_AN_EDGE.saturating_mul(self.edges.len() as u64);
        (states + numbers + steps)
            .saturating_add(edges)
            .saturating_add(self.held)
    }

    /// That the search gives up, if what is kept takes more bytes than it may.
    pub(crate) fn stop_past(&self, subject: Subject<'p>, limits: Limits) -> Option<Stop>
        requires { HasReached subject.program.now.image subject.version subject.aim self.now }
        ensures within { IfNone result (bytes_of self.now ≤ limits.bytes) }
        ensures stops { IfSome result (StopsFor subject.entry.program.now.image subject.entry.version subject.entry.aim limits) }
    {
        if self.bytes() <= limits.bytes {
            return None;
        }
        Some(Stop::Cut(self.give_up(Reason::Bytes)))
    }

    /// Brings the world into the state with the number.
    ///
    /// # Errors
    /// Memory ran out.
    pub(crate) fn load(&mut self, subject: Subject<'p>, number: u32) -> Result<(), AllocError>
        requires there { number < length (states_of self.old) }
        requires reached { HasReached subject.program.now.image subject.version subject.aim self.old }
        ensures store { self.new.store ≡ self.old.store }
        ensures edges { self.new.edges ≡ self.old.edges }
        ensures reached { OnOk result (HasReached subject.entry.program.now.image subject.entry.version subject.entry.aim self.new) }
        ensures after { OnOk result (IsAlikeAfter subject.entry.program.now.image subject.entry.version
            (get_or (orders_of self.old) number []) (world_in self.new.world)) }
        ensures stands { OnOk result (slice_get (states_of self.old) number ≡ Some (kept (world_in self.new.world))) }
    {
        openings_are_of_their_program();
        runs_stay_of_their_program();
        openings_are_linked();
        runs_stay_linked();
        self.store.load(subject, &mut self.world, number)?;
        Ok(())
    }

    /// Makes the turn of a handler in the world, if it has one.
    ///
    /// # Errors
    /// Memory ran out.
    pub(crate) fn turn(
        &mut self,
        subject: Subject<'p>,
        handler: HandlerNumber,
    ) -> Result<Turned, AllocError>
        requires reached { HasReached subject.program.now.image subject.version subject.aim self.old }
        ensures store { self.new.store ≡ self.old.store }
        ensures edges { self.new.edges ≡ self.old.edges }
        ensures reached { OnOk result (HasReached subject.entry.program.now.image subject.entry.version subject.entry.aim self.new) }
        ensures turned { IfOk result (λ turned. turned ≡ turned_by (pick_for handler (world_in self.old.world).center)) }
        ensures turn { OnOk result (IsTurn handler (world_in self.old.world) (world_in self.new.world)) }
    {
        runs_stay_of_their_program();
        let turned = self.world.turn(handler)?;
        Ok(turned)
    }

    /// Makes further turns in the world after that of a handler, with which they began in the state of the number: at most `most`, as
    /// long as they may follow at once. Adds them.
    ///
    /// # Errors
    /// Memory ran out.
    pub(crate) fn go_on(
        &mut self,
        subject: Subject<'p>,
        number: u32,
        handler: HandlerNumber,
        most: u32,
        turns: &mut Vec<HandlerNumber>,
    ) -> Result<(), AllocError>
        requires there { number < length (states_of self.old) }
        requires reached { HasReached subject.program.now.image subject.version subject.aim self.old }
        ensures store { self.new.store ≡ self.old.store }
        ensures edges { self.new.edges ≡ self.old.edges }
        ensures reached { OnOk result (HasReached subject.entry.program.now.image subject.entry.version subject.entry.aim self.new) }
        ensures goes { OnOk result (GoesOnBy most turns.old.items turns.new.items (world_in self.old.world) (world_in self.new.world)) }
    {
        let start = Start {
            store: &self.store,
            number,
        };
        go_on(subject.alloc, &mut self.world, start, handler, most, turns)?;
        Ok(())
    }

    /// Brings the world to where a way begins: into the state that it leads from, or to the opening.
    ///
    /// # Errors
    /// Memory ran out.
    fn begin(&mut self, subject: Subject<'p>, parent: Option<u32>) -> Result<(), AllocError>
        requires from { IsFrom (states_of self.old) parent }
        requires reached { HasReached subject.program.now.image subject.version subject.aim self.old }
        ensures store { self.new.store ≡ self.old.store }
        ensures edges { self.new.edges ≡ self.old.edges }
        ensures reached { OnOk result (HasReached subject.entry.program.now.image subject.entry.version subject.entry.aim self.new) }
        ensures after { OnOk result (IsAlikeAfter subject.entry.program.now.image subject.entry.version
            (order_after (orders_of self.old) parent []) (world_in self.new.world)) }
    {
        if let Some(number) = parent {
            return self.load(subject, number);
        }
        openings_are_of_their_program();
        self.world = Configuration::open(subject.alloc, subject.program, subject.version)?;
        Ok(())
    }

    /// Brings the world to where a way leads.
    ///
    /// # Errors
    /// Memory ran out.
    pub(crate) fn go(&mut self, subject: Subject<'p>, way: Way<'_>) -> Result<(), AllocError>
        requires from { IsFrom (states_of self.old) way.parent }
        requires reached { HasReached subject.program.now.image subject.version subject.aim self.old }
        ensures store { self.new.store ≡ self.old.store }
        ensures edges { self.new.edges ≡ self.old.edges }
        ensures reached { OnOk result (HasReached subject.entry.program.now.image subject.entry.version subject.entry.aim self.new) }
        ensures after { OnOk result (IsAlikeAfter subject.entry.program.now.image subject.entry.version
            (order_after (orders_of self.old) way.entry.parent way.entry.turns.now) (world_in self.new.world)) }
    {
        kept_alike_turn_alike();
        openings_are_of_their_program();
        runs_stay_of_their_program();
        self.begin(subject, way.parent)?;
        for handler in way.turns {
            self.turn(subject, *handler)?;
        }
        Ok(())
    }

    /// The turns of a way, and those to the state that it leads from.
    ///
    /// # Errors
    /// Memory ran out.
    pub(crate) fn order_of(&self, way: Way<'_>) -> Result<Vec<HandlerNumber>, AllocError>
        requires { IsFrom (states_of self.now) way.parent }
        ensures { IfOk result (λ order. order.items ≡ order_after (orders_of self.now) way.entry.parent way.entry.turns.now) }
    {
        self.store.order_after(way.parent, way.turns)
    }

    /// Keeps the state of the world, to which the way led, unless it was met before. A long way counts as several
    /// states, in proportion to its turns.
    ///
    /// # Errors
    /// Memory ran out.
    pub(crate) fn keep(
        &mut self,
        subject: Subject<'p>,
        way: Way<'_>,
        limits: Limits,
    ) -> Result<Option<Stop>, AllocError>
        requires from { IsFrom (states_of self.old) way.parent }
        requires leads { IsAlikeAfter subject.program.now.image subject.version
            (order_after (orders_of self.old) way.parent way.turns.now) (world_in self.old.world) }
        requires reached { HasReached subject.program.now.image subject.version subject.aim self.old }
        ensures keeps { IfOk result (λ stop. IfNone stop
            (Keeps subject.entry.aim (world_in self.old.world) way.entry.parent (length way.entry.turns.now) (met_of self.old) (met_of self.new))) }
        ensures reached { IfOk result (λ stop. IfNone stop (HasReached subject.entry.program.now.image subject.entry.version subject.entry.aim self.new)) }
        ensures stops { IfOk result (λ stop. IfSome stop (StopsFor subject.entry.program.now.image subject.entry.version subject.entry.aim limits)) }
    {
        kept_alike_read_alike();
        openings_are_of_their_program();
        runs_stay_of_their_program();
        let statuses = self.world.statuses()?;
        if is_met(subject.aim, &statuses, self.world.core()) {
            return Ok(Some(Stop::Met(self.order_of(way)?)));
        }
        self.count_turns(subject, way);
        self.number(subject)?;
        match self.store.find(&self.tuple) {
            Some(number) => {
                self.push_edge(way, number)?;
                Ok(None)
            }
            None => self.keep_new(subject, way, &statuses, limits),
        }
    }

    /// Counts the turns of a way, which led to the world.
    fn count_turns(&mut self, subject: Subject<'p>, way: Way<'_>)
        requires leads { IsAlikeAfter subject.program.now.image subject.version
            (order_after (orders_of self.old) way.parent way.turns.now) (world_in self.old.world) }
        requires reached { HasReached subject.program.now.image subject.version subject.aim self.old }
        ensures store { self.new.store ≡ self.old.store }
        ensures world { self.new.world ≡ self.old.world }
        ensures edges { self.new.edges ≡ self.old.edges }
        ensures reached { HasReached subject.entry.program.now.image subject.entry.version subject.entry.aim self.new }
    {
        self.turns = self.turns.saturating_add(way.turns.len() as u64);
    }

    /// Writes the numbers of what the world holds.
    ///
    /// # Errors
    /// Memory ran out.
    fn number(&mut self, subject: Subject<'p>) -> Result<(), AllocError>
        requires reached { HasReached subject.program.now.image subject.version subject.aim self.old }
        ensures states { OnOk result (states_of self.new ≡ states_of self.old) }
        ensures orders { OnOk result (orders_of self.new ≡ orders_of self.old) }
        ensures world { self.new.world ≡ self.old.world }
        ensures edges { self.new.edges ≡ self.old.edges }
        ensures reached { OnOk result (HasReached subject.entry.program.now.image subject.entry.version subject.entry.aim self.new) }
        ensures kept { OnOk result (IsTupleOf self.new.store self.new.tuple.items (world_in self.new.world)) }
    {
        let before = self.store.sizes();
        self.store.number(subject, &self.world, &mut self.tuple)?;
        let more = bytes_since(before, &self.store, &self.tuple, self.world.core());
        self.held = self.held.saturating_add(more);
        Ok(())
    }

    /// Keeps the state of the world, which has these statuses and wasn't met before.
    ///
    /// # Errors
    /// Memory ran out.
    fn keep_new(
        &mut self,
        subject: Subject<'p>,
        way: Way<'_>,
        statuses: &[Status],
        limits: Limits,
    ) -> Result<Option<Stop>, AllocError>
        requires from { IsFrom (states_of self.old) way.parent }
        requires leads { IsAlikeAfter subject.program.now.image subject.version
            (order_after (orders_of self.old) way.parent way.turns.now) (world_in self.old.world) }
        requires reached { HasReached subject.program.now.image subject.version subject.aim self.old }
        requires kept { IsTupleOf self.old.store self.old.tuple.items (world_in self.old.world) }
        requires new { (number : ℕ) → slice_get (tuples_in self.old.store) number ≡ Some self.old.tuple.items → ⊥ }
        requires told { statuses.now ≡ told.statuses (world_in self.old.world) }
        requires unmet { IsMet subject.aim (world_in self.old.world) → ⊥ }
        ensures keeps { IfOk result (λ stop. IfNone stop
            (Keeps subject.entry.aim (world_in self.old.world) way.entry.parent (length way.entry.turns.now) (met_of self.old) (met_of self.new))) }
        ensures reached { IfOk result (λ stop. IfNone stop (HasReached subject.entry.program.now.image subject.entry.version subject.entry.aim self.new)) }
        ensures stops { IfOk result (λ stop. IfSome stop (StopsFor subject.entry.program.now.image subject.entry.version subject.entry.aim limits)) }
    {
        kept_alike_read_alike();
        openings_are_of_their_program();
        runs_stay_of_their_program();
        let number = self.store.len();
        if number >= limits.states {
            return Ok(Some(Stop::Cut(self.give_up(Reason::States))));
        }
        if self.turns >= TURNS_A_STATE * limits.states as u64 {
            return Ok(Some(Stop::Cut(self.give_up(Reason::Turns))));
        }
        self.push_end(subject, way, statuses)?;
        self.push_edge(way, number)?;
        self.store
            .push(subject, &self.tuple, way.parent, way.turns, statuses)?;
        Ok(None)
    }

    /// Adds the outcome of a way if no handler has a job in the world that it led to, which has these statuses.
    fn push_end(
        &mut self,
        subject: Subject<'p>,
        way: Way<'_>,
        statuses: &[Status],
    ) -> Result<(), AllocError>
        requires { IsFrom (states_of self.old) way.parent }
        ensures store { self.new.store ≡ self.old.store }
        ensures world { self.new.world ≡ self.old.world }
        ensures tuple { self.new.tuple ≡ self.old.tuple }
        ensures edges { self.new.edges ≡ self.old.edges }
        ensures turns { self.new.turns ≡ self.old.turns }
    {
        if some_is(Kind::IsBusy, statuses) {
            return Ok(());
        }
        let order = self.order_of(way)?;
        push_outcome(subject.alloc, &mut self.outcomes, &self.world, &order)?;
        Ok(())
    }

    /// Adds that the way leads to the state of the number.
    fn push_edge(&mut self, way: Way<'_>, to: u32) -> Result<(), AllocError>
        ensures store { self.new.store ≡ self.old.store }
        ensures world { self.new.world ≡ self.old.world }
        ensures tuple { self.new.tuple ≡ self.old.tuple }
        ensures turns { self.new.turns ≡ self.old.turns }
        ensures edge { OnOk result (AddsEdge way.entry.parent to (length way.entry.turns.now) self.old.edges.items self.new.edges.items) }
    {
        if let Some(from) = way.parent {
            let turns = way.turns.len().min(u32::MAX as usize) as u32;
            self.edges.push(Edge { from, to, turns })?;
        }
        Ok(())
    }
}
