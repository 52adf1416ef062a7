//! Handlers that wait for good, in states that are closed.
//!
//! Whether a handler has a turn in a state, or waits, is told by the statuses that are kept with each state: they take
//! a byte or two a handler.
ghost use Rattle.std.specs.Prelude.{◌≡◌, ◌⊎◌, ◌≤◌, ◌<◌, ◌^◌, ℕ, IfNone, None, IfOk, IfSome, List, Some, false, get_or, length, slice_get, true};
ghost use Rattle.sc_model.specs.declared.status.Status.{Status};
ghost use Rattle.sc_orders.specs.Edges.{AreWithin, Leads};
ghost use Rattle.sc_states.specs.RowViews.{rows_of};
ghost use Rattle.sc_search.specs.Steps.{IsExplored};
ghost use Rattle.sc_search.specs.Stops.{HasReached};
ghost use Rattle.sc_search.specs.Views.{met_of, states_of};
ghost use Rattle.sc_search.specs.Waiting.{AreMoving, HasStuck, IsLed, IsLeft, column};

use crate::judging::{Kind, is_at, seeks_stuck};
use crate::progress::Progress;
use crate::replay::Subject;
use sc_model::Status;
use sc_orders::{Edge, may_move};
use sc_states::Rows;
use sc_world::laws::{
    kept_alike_read_alike, openings_are_of_their_program, runs_stay_of_their_program,
};
use std::alloc::{AllocError, Global};

/// The first state in which a handler waits for good, if there is one. All turns of all states are tried, each by itself.
///
/// # Errors
/// Memory ran out.
pub(crate) fn first_stuck<'p>(
    subject: Subject<'p>,
    progress: &Progress<'p>,
) -> Result<Option<u32>, AllocError>
    requires explored { IsExplored subject.program.now.image subject.version 0 (met_of progress.now) }
    requires reached { HasReached subject.program.now.image subject.version subject.aim progress.now }
    ensures stuck { IfOk result (λ first. IfSome first (HasStuck subject.entry.program.now.image subject.entry.version (states_of progress.now))) }
    ensures none { IfOk result (λ first. IfNone first
        (AreMoving subject.entry.program.now.image subject.entry.version subject.entry.aim (states_of progress.now))) }
{
    kept_alike_read_alike();
    openings_are_of_their_program();
    runs_stay_of_their_program();
    first_waiting(subject.alloc, &progress.edges, &progress.store.statuses)
}

/// Whether each handler that waits in a state may move from there, if stuck handlers are looked for. All turns of all states
/// are tried, each perhaps joined with others.
///
/// # Errors
/// Memory ran out.
pub(crate) fn all_may_move<'p>(
    subject: Subject<'p>,
    progress: &Progress<'p>,
) -> Result<bool, AllocError>
    requires explored { (joined : ℕ) × IsExplored subject.program.now.image subject.version joined (met_of progress.now) }
    requires reached { HasReached subject.program.now.image subject.version subject.aim progress.now }
    ensures { IfOk result (λ all. all ≡ true →
        AreMoving subject.entry.program.now.image subject.entry.version subject.entry.aim (states_of progress.now)) }
{
    if !seeks_stuck(subject.aim) {
        return Ok(true);
    }
    kept_alike_read_alike();
    openings_are_of_their_program();
    runs_stay_of_their_program();
    let first = first_waiting(subject.alloc, &progress.edges, &progress.store.statuses)?;
    Ok(first.is_none())
}

/// The first state in which some handler waits and from which no edges lead to one in which it has a turn.
fn first_waiting(
    alloc: Global,
    edges: &[Edge],
    statuses: &Rows<Status>,
) -> Result<Option<u32>, AllocError>
    requires within { AreWithin edges.now (length (rows_of statuses.now)) }
    requires few { length (rows_of statuses.now) < 2 ^ 32 }
    ensures some { IfOk result (λ first. IfSome first (λ number. (h : ℕ) × IsLeft edges.now (rows_of statuses.now) h number)) }
    ensures none { IfOk result (λ first. IfNone first ((h number : ℕ) → IsLed edges.now (rows_of statuses.now) h number)) }
{
    let mut first = None;
    for handler in 0..most_handlers(statuses) {
        first = lower(first, first_left(alloc, edges, statuses, handler)?);
    }
    Ok(first)
}

/// The lower one of two numbers.
fn lower(one: Option<u32>, other: Option<u32>) -> Option<u32>
    ensures either { (result ≡ one) ⊎ (result ≡ other) }
    ensures none { result ≡ None → (one ≡ None) × (other ≡ None) }
{
    match (one, other) {
        (None, _) => other,
        (Some(first), Some(second)) if second < first => other,
        _ => one,
    }
}

/// The most handlers that there are in a state.
fn most_handlers(statuses: &Rows<Status>) -> usize
    requires { length (rows_of statuses.now) < 2 ^ 32 }
    ensures { (i : ℕ) (row : List Status) → slice_get (rows_of statuses.now) i ≡ Some row → length row ≤ result }
{
    let mut most = 0;
    for number in 0..statuses.len() {
        most = larger(most, statuses.row(number as u32).len());
    }
    most
}

/// The larger one of two numbers.
fn larger(one: usize, other: usize) -> usize
    ensures first { one ≤ result }
    ensures second { other ≤ result }
{
    if one < other { other } else { one }
}

/// The first state in which the handler waits and from which no edges lead to one in which it has a turn.
fn first_left(
    alloc: Global,
    edges: &[Edge],
    statuses: &Rows<Status>,
    handler: usize,
) -> Result<Option<u32>, AllocError>
    requires within { AreWithin edges.now (length (rows_of statuses.now)) }
    requires few { length (rows_of statuses.now) < 2 ^ 32 }
    ensures some { IfOk result (λ first. IfSome first (IsLeft edges.now (rows_of statuses.now) handler)) }
    ensures none { IfOk result (λ first. IfNone first ((number : ℕ) → IsLed edges.now (rows_of statuses.now) handler number)) }
{
    let busy = column(alloc, Kind::IsBusy, statuses, handler)?;
    let waiting = column(alloc, Kind::IsWaiting, statuses, handler)?;
    let moves = may_move(alloc, edges, &busy)?;
    Ok(first_without(&waiting, &moves))
}

/// The first number at which the first list is true and the second isn't.
fn first_without(waiting: &[bool], moves: &[bool]) -> Option<u32>
    requires { length waiting.now < 2 ^ 32 }
    ensures some { IfSome result (λ number. (get_or waiting.now number false ≡ true) × (get_or moves.now number false ≡ false)) }
    ensures none { IfNone result ((number : ℕ) → get_or waiting.now number false ≡ true → get_or moves.now number false ≡ true) }
{
    for number in 0..waiting.len() {
        if waiting[number] && !is_true_at(moves, number) {
            return Some(number as u32);
        }
    }
    None
}

/// Whether the list is true at a number.
fn is_true_at(list: &[bool], number: usize) -> bool
    ensures { result ≡ get_or list.now number false }
{
    match list.get(number) {
        Some(is_true) => *is_true,
        None => false,
    }
}

/// For each state whether the status of the handler is of this kind in it.
fn column(
    alloc: Global,
    kind: Kind,
    statuses: &Rows<Status>,
    handler: usize,
) -> Result<Vec<bool>, AllocError>
    requires { length (rows_of statuses.now) < 2 ^ 32 }
    ensures { IfOk result (λ states. states.items ≡ column kind handler (rows_of statuses.now)) }
{
    let mut states = Vec::new(alloc);
    for number in 0..statuses.len() {
        states.push(is_at(kind, statuses.row(number as u32), handler))?;
    }
    Ok(states)
}
