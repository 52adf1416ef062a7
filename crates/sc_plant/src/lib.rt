//! Runs of a program on several threads.
//!
//! [`run`] plays the handlers of a program by several workers, and [`run_watched`] lets a watch look at it on its
//! way. A worker picks a handler with its job from the core, plays the handler's region, and settles the result. The
//! core is under one lock, each region under one of its own. A worker holds both only for the one turn with which a
//! handler goes on after its reserve step is granted.
//!
//! The types under the locks keep what is known of their values: the settlements of the core lead from the opening
//! to its state, and the turns of a region's log lead to the region. When the workers have ended, the logs are
//! compared. So what is [`Left`] is what one thread makes of the turns of the record, as [`laws`] say.
#![tactic(auto)]

mod alone;
mod bounds;
mod gate;
mod granularity;
pub mod laws;
mod leaving;
mod left;
mod opening;
mod outputs;
mod reporting;
mod running;
mod scheduler;
mod sharing;
mod slot;
mod task;
mod wants;
mod watch;
mod workers;

pub use bounds::Bounds;
pub use gate::Gate;
pub use left::{Left, LoggedLeft, RunFault};
pub use running::{run, run_watched};
pub use watch::Watch;
