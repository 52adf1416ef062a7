//! Which turns of a world may be played at once, before any turn of other handlers.
#![tactic(auto)]

pub mod laws;
