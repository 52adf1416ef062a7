//! The record of a run: which handler took how many turns, line after line. A record has one text, which [`write_record`]
//! writes and [`read_record`] reads; [`write_whole`] writes the bytes of any text.
//!
//! `specs/Records` says what a record and its text are, and `specs/Faults` which line of another text is at fault.
#![tactic(auto)]

mod beginning;
pub mod laws;
mod line;
mod reading;
mod writing;

pub use beginning::{ReadFault, Record};
pub use line::RecordLine;
pub use reading::read_record;
pub use writing::{Unwritable, write_record, write_whole};
