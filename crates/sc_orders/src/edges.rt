//! From which states edges lead to a turn of a handler.
ghost use Rattle.std.specs.Prelude.{◌≡◌, ◌<◌, ◌↔◌, ℕ, Bool, IfOk, List, false, get_or, length, slice_set, true};
ghost use Rattle.sc_orders.specs.Edges.{AllLead, AreWithin, IsSwept, Leads, unmarked};

use std::alloc::{AllocError, Global};

/// Turns lead from one state to another.
#[derive(Clone, Copy)]
pub struct Edge {
    /// The number of the state that they lead from.
    pub from: u32,
    /// The number of the state that they lead to.
    pub to: u32,
    /// How many turns they are.
    pub turns: u32,
}

/// For each state whether edges lead from it, or none need to, to a state in which a handler has a turn. It has one in
/// the states that are `busy`.
///
/// The edges are gone through from the last to the first until a round changes nothing. Most lead to states that were
/// met later, so that two or three rounds do.
///
/// # Errors
/// Memory ran out.
pub fn may_move(alloc: Global, edges: &[Edge], busy: &[bool]) -> Result<Vec<bool>, AllocError>
    requires { AreWithin edges.now (length busy.now) }
    ensures count { IfOk result (λ moves. length moves.items ≡ length busy.now) }
    ensures leads { IfOk result (λ moves. (state : ℕ) → (get_or moves.items state false ≡ true) ↔ Leads edges.now busy.now state) }
{
    let mut moves = Vec::from_slice(alloc, busy)?;
    while sweep(edges, &mut moves) {}
    Ok(moves)
}

/// Goes back over all edges once, from the last to the first. Returns whether anything has changed.
fn sweep(edges: &[Edge], moves: &mut Vec<bool>) -> bool
    requires { AreWithin edges.now (length moves.old.items) }
    ensures count { length moves.new.items ≡ length moves.old.items }
    ensures stay { (state : ℕ) → get_or moves.old.items state false ≡ true → get_or moves.new.items state false ≡ true }
    ensures lead { (busy : List Bool) → AllLead edges.now busy moves.old.items → AllLead edges.now busy moves.new.items }
    ensures swept { result ≡ false → (moves.new.items ≡ moves.old.items) × IsSwept edges.now moves.new.items (length edges.now) }
    ensures fewer { result ≡ true → unmarked moves.new.items < unmarked moves.old.items }
{
    let mut has_changed = false;
    for done in 0..edges.len() {
        if go_back(edges[edges.len() - 1 - done], moves) {
            has_changed = true;
        }
    }
    has_changed
}

/// Goes back over an edge. Returns whether anything has changed.
fn go_back(edge: Edge, moves: &mut Vec<bool>) -> bool
    requires from { edge.from < length moves.old.items }
    requires to { edge.to < length moves.old.items }
    ensures same { result ≡ false → moves.new.items ≡ moves.old.items }
    ensures leads { result ≡ false → get_or moves.old.items edge.to false ≡ true → get_or moves.old.items edge.from false ≡ true }
    ensures set { result ≡ true → moves.new.items ≡ slice_set moves.old.items edge.from true }
    ensures was { result ≡ true → (get_or moves.old.items edge.to false ≡ true) × (get_or moves.old.items edge.from false ≡ false) }
{
    if !moves[edge.to as usize] || moves[edge.from as usize] {
        return false;
    }
    moves[edge.from as usize] = true;
    true
}
