//! The files that a run is drawn to.

ghost use Rattle.std.specs.Prelude.{map};
ghost use Rattle.sc_arguments.specs.Asked.{AreDrawings};

use crate::arguments::options::{OPTION, Taken};
use crate::arguments::words::value_of;
use std::convert::AsStr;

/// The names of the files that a run is drawn to.
#[derive(Drop)]
pub struct Drawings<'a> {
    /// The file of its trace events.
    pub trace_events: Option<&'a str>,
    /// The file of its time line.
    pub timeline: Option<&'a str>,
}

/// The option `--trace-events`.
pub const TRACE_EVENTS: Taken = Taken {
    name: "--trace-events",
    help: "Writes the turns to this file in the Trace Event format, for Perfetto or Chrome's viewer",
    value_name: Some("PATH"),
    ..OPTION
};

/// The option `--timeline`.
pub const TIMELINE: Taken = Taken {
    name: "--timeline",
    help: "Draws the turns to this file, a page that a browser shows",
    value_name: Some("PATH"),
    ..OPTION
};

/// The files that the words after a command name for pictures.
pub fn read_drawings<'a, S: AsStr>(words: &'a [S]) -> Drawings<'a>
    ensures { AreDrawings (map S.text words.entry.now) result }
{
    Drawings {
        trace_events: value_of(words, "--trace-events"),
        timeline: value_of(words, "--timeline"),
    }
}
