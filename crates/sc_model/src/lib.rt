//! The machine: what a checked system does, turn by turn.
//!
//! Its definitions are in `specs/`. A handler has objects and a stack of frames; what is left of a frame's routine
//! is a list of tasks beside a list of values (`Tasks`, `Moves`). A turn is the silent steps up to and with the
//! first visible one, whose effect on the handlers and on the rights over them comes with it (`Turns`). A run is the
//! turns of a list of handler numbers (`Runs`), and `Reports` says what it leaves. [`laws`] has what holds of every
//! system and every run. `docs/engineers/STEPS.md` lists the steps one by one.
#![tactic(auto)]

mod cause;
pub mod laws;
mod status;

pub use cause::Cause;
pub use status::Status;
