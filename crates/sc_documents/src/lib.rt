//! Texts as editors speak of them: a position is a line and a character of it, both from 0, and a character is a unit
//! of UTF-16.
//!
//! [`offset_of`] and [`position_of`] turn positions into offsets of bytes and back, and [`replaced`] makes a change. A
//! [`Document`] keeps a table of positions, for who asks for many.
#![tactic(auto)]

mod change;
mod document;
mod laws;
mod position;

pub use change::replaced;
pub use document::Document;
pub use laws::places_come_back;
pub use position::{Position, Range, offset_of, position_of};
