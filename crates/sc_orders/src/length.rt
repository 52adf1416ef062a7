//! How long orders are.
//!
//! The states are gone through from the first one on, each after all states before it, as far as that goes. What is
//! found so is tested then against each edge, and only what passes is reported.
ghost use Rattle.std.specs.Prelude.{◌≡◌, ◌⊎◌, ◌≤◌, ◌<◌, ◌+◌, ◌↔◌, ℕ, IfOk, IfSome, IsTrue, false, get_or, true};
ghost use Rattle.sc_orders.specs.Marks.{AllGoOn, AreFollowed, AreMet};
ghost use Rattle.sc_orders.specs.Ways.{AreAtMost, LeadsFor, SaysLength};

use crate::edges::Edge;
use std::alloc::{AllocError, Global};

/// How long orders are.
#[derive(Clone, Copy)]
pub enum Length {
    /// Each ends, after at most this number of turns.
    AtMost(u32),
    /// Some order goes on for ever.
    Endless,
    /// That isn't known.
    Unknown,
}

/// What is found of the states on the way through all of them.
#[derive(Drop)]
struct Visits {
    /// For each state the most turns with which it is met.
    turns: Vec<u32>,
    /// For each state how many of the edges to it are not gone yet.
    left: Vec<u32>,
}

/// How long orders are, if this number of turns led to the first state, and these are all edges between this number of
/// states, in the order of the states that they lead from.
///
/// # Errors
/// Memory ran out.
pub fn length_of(
    alloc: Global,
    first: u32,
    states: usize,
    edges: &[Edge],
) -> Result<Length, AllocError>
    ensures { IfOk result (SaysLength first edges.now) }
{
    let visits = visit_all(alloc, first, states, edges)?;
    if let Some(most) = most_turns(first, edges, &visits.turns) {
        return Ok(Length::AtMost(most));
    }
    if go_on(alloc, edges, &visits.left)? {
        return Ok(Length::Endless);
    }
    Ok(Length::Unknown)
}

// ---- the states on the way through all of them

/// Goes through the states, each after all states before it, as far as that goes.
fn visit_all(
    alloc: Global,
    first: u32,
    states: usize,
    edges: &[Edge],
) -> Result<Visits, AllocError> {
    let mut visits = Visits {
        turns: vec![in alloc; 0; states]?,
        left: vec![in alloc; 0; states]?,
    };
    if let Some(turns) = visits.turns.get_mut(0) {
        *turns = first;
    }
    for edge in edges {
        if let Some(left) = visits.left.get_mut(edge.to as usize) {
            *left = left.saturating_add(1);
        }
    }
    let mut ready = Vec::new(alloc);
    ready.push(0u32)?;
    for _ in 0..states {
        let Some(number) = ready.pop() else {
            break;
        };
        go_from(&mut visits, edges, number, &mut ready)?;
    }
    Ok(visits)
}

/// Goes all edges from a state. A state to which no other edge is left is ready then.
fn go_from(
    visits: &mut Visits,
    edges: &[Edge],
    number: u32,
    ready: &mut Vec<u32>,
) -> Result<(), AllocError> {
    let turns = turns_at(&visits.turns, number);
    let first = edges.partition_point(|edge| edge.from < number);
    for place in first..edges.len() {
        let Some(edge) = edges.get(place) else {
            break;
        };
        if edge.from != number {
            break;
        }
        go_along(visits, *edge, turns, ready)?;
    }
    Ok(())
}

/// Goes along an edge from a state that is met with this number of turns.
fn go_along(
    visits: &mut Visits,
    edge: Edge,
    turns: u32,
    ready: &mut Vec<u32>,
) -> Result<(), AllocError> {
    if let Some(most) = visits.turns.get_mut(edge.to as usize) {
        *most = (*most).max(turns.saturating_add(edge.turns));
    }
    if let Some(left) = visits.left.get_mut(edge.to as usize) {
        *left = left.saturating_sub(1);
        if *left == 0 {
            ready.push(edge.to)?;
        }
    }
    Ok(())
}

// ---- what is tested

/// The most turns, if each edge is a turn at least and leads to a state with as many turns as the one before and its own.
fn most_turns(first: u32, edges: &[Edge], turns: &[u32]) -> Option<u32>
    ensures { IfSome result (AreAtMost first edges.now) }
{
    let mut most = turns_at(turns, 0);
    if most < first {
        return None;
    }
    for edge in edges {
        if !is_after(*edge, turns) {
            return None;
        }
        most = larger(most, turns_at(turns, edge.to));
    }
    Some(most)
}

/// Whether an edge is a turn at least, and leads to a state with as many turns as the one before and its own, or more.
fn is_after(edge: Edge, turns: &[u32]) -> bool
    ensures { IsTrue result ↔ (1 ≤ edge.turns) × (get_or turns.now edge.from 0 + edge.turns ≤ get_or turns.now edge.to 0) }
{
    edge.turns > 0
        && turns_at(turns, edge.from) as u64 + edge.turns as u64 <= turns_at(turns, edge.to) as u64
}

/// The number of turns at a state, or 0 if there is no such state.
fn turns_at(turns: &[u32], state: u32) -> u32
    ensures { result ≡ get_or turns.now state 0 }
{
    match turns.get(state as usize) {
        Some(turns) => *turns,
        None => 0,
    }
}

/// The larger one of two numbers.
fn larger(one: u32, other: u32) -> u32
    ensures first { one ≤ result }
    ensures second { other ≤ result }
{
    if one < other { other } else { one }
}

/// Whether some state is left, an edge from one that is left leads to each of these, and edges lead to all states.
///
/// # Errors
/// Memory ran out.
fn go_on(alloc: Global, edges: &[Edge], left: &[u32]) -> Result<bool, AllocError>
    ensures { IfOk result (λ is. IsTrue is → (least : ℕ) → LeadsFor edges.now least) }
{
    let followed = followed_states(alloc, edges, left)?;
    let met = met_states(alloc, edges, left.len())?;
    Ok(all_go_on(left, &followed, &met))
}

/// For each state whether an edge leads to it from a state that is left.
///
/// # Errors
/// Memory ran out.
fn followed_states(alloc: Global, edges: &[Edge], left: &[u32]) -> Result<Vec<bool>, AllocError>
    ensures { IfOk result (λ marks. AreFollowed edges.now left.now marks.items) }
{
    let mut marks = no_marks(alloc, left.len())?;
    for edge in edges {
        if turns_at(left, edge.from) > 0 {
            mark(&mut marks, edge.to);
        }
    }
    Ok(marks)
}

/// For each state whether an edge leads to it from an earlier state.
///
/// # Errors
/// Memory ran out.
fn met_states(alloc: Global, edges: &[Edge], states: usize) -> Result<Vec<bool>, AllocError>
    ensures { IfOk result (λ marks. AreMet edges.now marks.items) }
{
    let mut marks = no_marks(alloc, states)?;
    for edge in edges {
        if edge.from < edge.to {
            mark(&mut marks, edge.to);
        }
    }
    Ok(marks)
}

/// This number of marks, none of them set.
fn no_marks(alloc: Global, count: usize) -> Result<Vec<bool>, AllocError>
    ensures { IfOk result (λ marks. (state : ℕ) → get_or marks.items state false ≡ false) }
{
    vec![in alloc; false; count]
}

/// Sets the mark of a state, if there is such a state.
fn mark(marks: &mut Vec<bool>, state: u32)
    ensures { (s : ℕ) → get_or marks.new.items s false ≡ true → (get_or marks.old.items s false ≡ true) ⊎ (s ≡ state) }
{
    if let Some(place) = marks.get_mut(state as usize) {
        *place = true;
    }
}

/// Whether some state is left, each of these is followed, and each but the first is met.
fn all_go_on(left: &[u32], followed: &[bool], met: &[bool]) -> bool
    ensures { IsTrue result → AllGoOn left.now followed.now met.now }
{
    let mut some = None;
    for state in 0..left.len() {
        if state > 0 && !is_marked(met, state) {
            return false;
        }
        if left[state] > 0 {
            if !is_marked(followed, state) {
                return false;
            }
            some = Some(state);
        }
    }
    some.is_some()
}

/// Whether the mark of a state is set.
fn is_marked(marks: &[bool], state: usize) -> bool
    ensures { result ≡ get_or marks.now state false }
{
    match marks.get(state) {
        Some(is) => *is,
        None => false,
    }
}
