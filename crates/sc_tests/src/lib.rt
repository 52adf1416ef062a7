//! Tests alone, of what the program doesn't show and no clause says.
//!
//! Tables of rows, each a text or some steps and what comes of it: a formula of 3,000 levels ([`formulas`]), a handler's store
//! ([`stores`]) and its log ([`worklogs`]). Runs by several workers ([`together`]), audits with records that aren't a run's own
//! ([`audits`]), settlements beside what regions played ([`settling`]), and worlds that one thread plays ([`worlds`]). Calls that
//! the program doesn't make ([`library`]).
//!
//! `proofs/` has rows of definitions: of rights, entries, passed locks, references, full stacks, conformance, of what is seen
//! through a call, and of how long code is.
#![tactic(auto)]

#[cfg(test)]
mod audits;
#[cfg(test)]
mod formulas;
#[cfg(test)]
mod library;
#[cfg(test)]
mod programs;
#[cfg(test)]
mod rows;
#[cfg(test)]
mod runs;
#[cfg(test)]
mod settling;
#[cfg(test)]
mod stores;
#[cfg(test)]
mod together;
#[cfg(test)]
mod worklogs;
#[cfg(test)]
mod worlds;
