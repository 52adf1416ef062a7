//! What happened in a run, turn by turn, and what is made of that for people: numbers of each handler, and pictures.
//!
//! A [`Turn`] is what one turn did. Who plays a record hands each of its turns to a [`Tally`], which counts, or to a
//! [`History`], which keeps them and links them.
#![tactic(auto)]

mod arrows;
mod bars;
mod condition;
mod count;
mod events;
mod filling;
mod history;
mod layout;
mod page;
mod quoting;
mod stats;
mod tally;
mod turn;

pub use events::{TRACE_EVENTS_HEADING, trace_events};
pub use history::History;
pub use page::{TIMELINE_HEADING, timeline};
pub use stats::{stats_lines, stats_member};
pub use tally::Tally;
pub use turn::{Began, Made, Sent, Taken, Turn};
