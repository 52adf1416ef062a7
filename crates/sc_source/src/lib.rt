//! The source text of a system: the texts of its files, read one after the other.
//!
//! A [`source::Source`] is the text of all files together, with the names of the files, and finds the place of a
//! byte in them; [`join_sources`] gives that text alone. [`reading`] reads one file, and [`files`] has what a file
//! is opened by; [`writing`] writes one whole or not at all. [`excerpt`] is the line in which a part of the text
//! begins, as a terminal shows it: only people see that, and nothing else depends on it.
#![tactic(auto)]

pub mod files;
mod join;
mod line;
pub mod reading;
mod shown;
pub mod source;
pub mod writing;

pub use join::{SourceFault, join_sources};
pub use line::excerpt;
