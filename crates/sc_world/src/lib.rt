//! The world of many handlers: their turns, one after the other, and what they leave.
//!
//! [`Configuration`] has the core and a region for each handler, and a [`World`] is one to which turns led. A turn is picked from the core, played by the handler's region
//! and settled in the core. [`KeptWorld`] is what a world held, to be compared with others. In each world that turns lead
//! to, the objects of a handler that is free meet their class invariants, since its region has no frames: the core and the
//! regions count the same requests, as [`request_laws`] say.
#![tactic(auto)]

mod configuration;
mod kept_world;
pub mod laws;
mod loading;
mod report;
pub mod request_laws;
mod world;

pub use configuration::{Configuration, Turned};
pub use kept_world::KeptWorld;
pub use loading::{Numbers, Tables};
pub use report::{code_of, is_busy, push_end, push_handler};
pub use world::World;
