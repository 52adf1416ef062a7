//! The regions beside the machine: a turn does to the store of a handler what the definition of a turn does to the
//! half that the store represents; and with the core they are the machine: that half stays the half of the machine's
//! turn.
//!
//! The machine has one state of all handlers. A region has the objects, frames and output of one handler, and asks
//! the core for what concerns others. Here the machine is cut along that line, so that each half can be compared
//! with its code.

pub mod asks;
pub mod half_laws;
pub mod laws;
pub mod rooms;
pub mod sound;
pub mod told;
pub mod turn_laws;
pub mod turning;
