//! Contracts in each state that an accepted system reaches: the objects that are settled meet their class invariants, and a
//! body starts where the clauses of its precondition hold.
//!
//! For that a clause is evaluated by its parts, and what a handler has asked of another one stays until it ends.
#![tactic(auto)]

pub mod clause_laws;
pub mod invariant_laws;
pub mod precondition_laws;
pub mod request_laws;
pub mod settlements;
pub mod states;
