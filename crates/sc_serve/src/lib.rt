//! What the program `scoop` does: it has the files of a system read, and answers the check, the run, the replay or
//! the canonical text that the arguments of a command line ask for.
//!
//! [`serve::serve`] is one call of the program, over files and writers of its caller's. What it answers for a source
//! text is that of [`sc_frontend`] and [`sc_driver`], whose contracts go from the bytes of the text to the state of
//! the run; a refusal is reported in one line.
#![tactic(auto)]

mod all_faults;
mod chance;
mod delivery;
mod drawing;
mod explaining;
mod fault_list;
mod folder;
mod giving_up;
mod json;
mod layouts;
mod numbered;
mod progress;
mod refusal;
mod replaying;
mod running;
mod saying;
mod searching;
pub mod serve;
mod target;
mod testing;
mod tracing;
mod trial;
mod verdict;
mod warned;
mod watching;
