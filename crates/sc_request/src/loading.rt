//! Cores into which states are put.
ghost use Rattle.std.specs.Prelude.{◌≡◌, ◌<◌, ◌≤◌, ℕ, IfOk, IsTrue, None, OnErr, OnOk, length, slice_get, slice_index, vec_len};
ghost use Rattle.std.specs.List.{All};
ghost use Rattle.sc_lockpass.specs.Tables.{rights_of};
ghost use Rattle.sc_lockpass.specs.Versions.{most_handlers};
ghost use Rattle.sc_handler.specs.Handlers.{new_handler};
ghost use Rattle.sc_handler.specs.InMemory.{handler_of};
ghost use Rattle.sc_request.specs.Candidates.{AreFreshFrom};
ghost use Rattle.sc_request.specs.Loading.{AreNewPlaces, CountsFor, HaveParts, changed};
ghost use Rattle.sc_request.specs.Parts.{AreWithin, NameBelow, part_of, parts_in, state_with};
ghost use Rattle.sc_request.specs.Tables.{handler_in, out_at};

use crate::center::Core;
use crate::crowds::clear;
use crate::parts::{Part, larger};
use crate::state::State;
use sc_handler::{Handler, Log, same_handler};
use sc_lockpass::{HandlerNumber, Rights};
use sc_region::{Job, Want};
use std::alloc::{AllocError, Global};

/// How many settlements a log may have beyond those that a state that is put into a core asks for.
const MOST_SPARE_SETTLEMENTS: usize = 65_536;

impl Core {
    ghost use Rattle.sc_request.specs.Cores.{center_of, state_of};

    /// Puts a state into the core: that of so many handlers, with the parts of these numbers, one after another, and new
    /// handlers past them. No handler is out then, and no session has ended. Which settlements the log has is not said.
    /// From the number `used` on no handler was asked for anything before.
    ///
    /// # Errors
    /// Memory ran out. The state is as it was then.
    pub fn load(
        &mut self,
        alloc: Global,
        count: usize,
        parts: &[Part],
        numbers: &[u32],
        used: usize,
    ) -> Result<(), AllocError>
        requires most { count ≤ most_handlers self.old.state.rights.version }
        requires used { used ≤ 512 }
        requires fresh { AreFreshFrom used (state_of self.old) }
        requires at_home { (h : ℕ) → used ≤ h → (center_of self.old).out h ≡ None }
        requires few { length numbers.now ≤ 512 }
        requires within { AreWithin numbers.now (length parts.now) }
        requires named { NameBelow count (parts_in parts.now numbers.now) }
        ensures state { OnOk result (state_of self.new ≡ state_with count (parts_in parts.now numbers.now)) }
        ensures home { OnOk result ((h : ℕ) → (center_of self.new).out h ≡ None) }
        ensures err { OnErr result (center_of self.new ≡ center_of self.old) }
        ensures version { self.new.state.rights.version ≡ self.old.state.rights.version }
    {
        let mut changes = changes_to(alloc, &self.state.handlers, parts, numbers)?;
        fit_log(alloc, &mut self.log, settlements_of(parts, numbers))?;
        put_rights(&mut self.state.rights, parts, numbers);
        self.state
            .put(alloc, count, &mut changes, numbers.len(), used);
        self.outs = 0;
        self.candidates.fill();
        self.reserving.fill();
        clear(&mut self.crowds);
        Ok(())
    }
}

impl State {
    /// Makes these changes to the first handlers, of which none is out then, and puts new ones past them, so that there are
    /// so many. From the number `used` on they are new before. No session has ended then.
    fn put(
        &mut self,
        alloc: Global,
        count: usize,
        changes: &mut Vec<Change>,
        first_new: usize,
        used: usize,
    )
        requires most { count ≤ most_handlers self.old.rights.version }
        requires used { used ≤ 512 }
        requires new { AreNewPlaces used self.old.handlers.items }
        requires within { All (λ (c : Change). c.place < first_new) changes.old.items }
        requires few { first_new ≤ 512 }
        ensures count { self.new.count ≡ count }
        ensures rights { self.new.rights ≡ self.old.rights }
        ensures changed { (k : ℕ) → k < first_new → slice_get self.new.handlers.items k ≡ slice_get (changed changes.old.items self.old.handlers.items) k }
        ensures new { AreNewPlaces first_new self.new.handlers.items }
        ensures sessions { (k : ℕ) → slice_index self.new.sessions.items k ≡ 0 }
    {
        renew_from(alloc, &mut self.handlers, first_new, used);
        make_changes(&mut self.handlers, changes);
        clear_counts(&mut self.sessions);
        self.count = count;
    }
}

// ---- what is put into a core

/// A handler that is put at a place.
#[derive(Drop)]
pub(crate) struct Change {
    pub(crate) place: usize,
    pub(crate) handler: Handler,
}

/// What makes the first handlers those of the parts of these numbers, none of which is out: a change for each place where
/// that isn't so already. Its error says that memory ran out.
fn changes_to(
    alloc: Global,
    handlers: &[Handler],
    parts: &[Part],
    numbers: &[u32],
) -> Result<Vec<Change>, AllocError>
    requires many { length numbers.now ≤ length handlers.now }
    requires within { AreWithin numbers.now (length parts.now) }
    ensures handlers { IfOk result (λ changes. HaveParts (length numbers.now) parts.now numbers.now (changed changes.items handlers.now)) }
    ensures within { IfOk result (λ changes. All (λ (c : Change). c.place < length numbers.now) changes.items) }
{
    let mut changes = Vec::new(alloc);
    for place in 0..numbers.len() {
        let part = &parts[numbers[place] as usize];
        if has_part(&handlers[place], part) {
            continue;
        }
        let handler = part.handler.read_by(alloc, &[])?;
        changes.push(Change { place, handler })?;
    }
    Ok(changes)
}

/// Whether a handler is that of a part, and isn't out.
fn has_part(handler: &Handler, part: &Part) -> bool
    ensures handler { IsTrue result → handler_of handler.now ≡ (part_of part.now).handler }
    ensures home { IsTrue result → handler.now.out ≡ None }
{
    same_handler(handler, &part.handler) && handler.out.get().is_none()
}

/// Makes the rights those of the parts of these numbers.
fn put_rights(rights: &mut Rights, parts: &[Part], numbers: &[u32])
    requires few { length numbers.now ≤ 512 }
    requires within { AreWithin numbers.now (length parts.now) }
    ensures rights { rights_of rights.new ≡ (state_with 0 (parts_in parts.now numbers.now)).rights }
    ensures version { rights.new.version ≡ rights.old.version }
{
    free_from(rights, numbers.len());
    for place in 0..numbers.len() {
        let holders = parts[numbers[place] as usize].holders;
        rights.set_holders(place as HandlerNumber, holders.queue, holders.top);
    }
}

/// Frees all handlers from a number on.
fn free_from(rights: &mut Rights, first: usize)
    ensures queue { (k : ℕ) → first ≤ k → (rights_of rights.new).queue k ≡ None }
    ensures top { (k : ℕ) → first ≤ k → (rights_of rights.new).top k ≡ None }
    ensures version { rights.new.version ≡ rights.old.version }
{
    let reach = rights.reach();
    for place in first..reach {
        rights.set_holders(place as HandlerNumber, None, None);
    }
}

/// As many settlements as the most that any of these parts counts.
fn settlements_of(parts: &[Part], numbers: &[u32]) -> usize
    requires within { AreWithin numbers.now (length parts.now) }
    ensures { CountsFor parts.now numbers.now result }
{
    let mut most = 0;
    for number in numbers {
        most = larger(most, parts[*number as usize].settlements);
    }
    most
}

/// Makes sure that a log has this number of settlements, at least, and not many more. Its error says that memory ran out:
/// the log is as it was then.
fn fit_log(alloc: Global, log: &mut Log, count: usize) -> Result<(), AllocError>
    ensures ok { OnOk result (count ≤ vec_len log.new.entries) }
    ensures err { OnErr result (log.new ≡ log.old) }
{
    if log.len() < count || log.len() - count > MOST_SPARE_SETTLEMENTS {
        *log = log_with(alloc, count)?;
    }
    Ok(())
}

/// A log with this number of settlements, at least. Its error says that memory ran out.
fn log_with(alloc: Global, count: usize) -> Result<Log, AllocError>
    ensures { IfOk result (λ log. count ≤ vec_len log.entries) }
{
    let mut log = Log::new(alloc);
    for _made in 0..count {
        log.reserve(1)?;
        log.push(0, &Job::Go, 1, &Want::Continue);
    }
    Ok(log)
}

// ---- what is put in the place of others

/// Makes these changes, the last one first.
fn make_changes(places: &mut Vec<Handler>, changes: &mut Vec<Change>)
    requires { All (λ (c : Change). c.place < vec_len places.old) changes.old.items }
    ensures len { vec_len places.new ≡ vec_len places.old }
    ensures changed { places.new.items ≡ changed changes.old.items places.old.items }
{
    while let Some(change) = changes.pop() {
        places[change.place] = change.handler;
    }
}

/// Puts new handlers in the places from one on. From the place `used` on they are new before.
fn renew_from(alloc: Global, places: &mut Vec<Handler>, first: usize, used: usize)
    requires used { used ≤ vec_len places.old }
    requires new { AreNewPlaces used places.old.items }
    ensures len { vec_len places.new ≡ vec_len places.old }
    ensures before { (k : ℕ) → k < first → slice_get places.new.items k ≡ slice_get places.old.items k }
    ensures new { AreNewPlaces first places.new.items }
{
    for place in first..used {
        renew(alloc, places, place);
    }
}

/// Puts a new handler at a place, unless one lies there.
fn renew(alloc: Global, places: &mut Vec<Handler>, place: usize)
    requires { place < vec_len places.old }
    ensures len { vec_len places.new ≡ vec_len places.old }
    ensures others { (k : ℕ) → (k ≡ place → ⊥) → slice_get places.new.items k ≡ slice_get places.old.items k }
    ensures new { handler_in (slice_get places.new.items place) ≡ new_handler }
    ensures home { out_at places.new.items place ≡ None }
{
    if is_blank(&places[place]) {
        return;
    }
    places[place] = Handler::new(alloc);
}

/// Whether nothing was ever posted to a handler, and it isn't out.
fn is_blank(handler: &Handler) -> bool
    ensures new { IsTrue result → handler_of handler.now ≡ new_handler }
    ensures home { IsTrue result → handler.now.out ≡ None }
{
    handler.is_fresh() && handler.out.get().is_none()
}

/// Sets all counts to 0.
fn clear_counts(counts: &mut Vec<u64>)
    ensures len { vec_len counts.new ≡ vec_len counts.old }
    ensures none { (k : ℕ) → slice_index counts.new.items k ≡ 0 }
{
    for place in 0..counts.len() {
        counts[place] = 0;
    }
}
