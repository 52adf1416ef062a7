//! What the jobs of a handler begin with.

mod answering;
mod taking;

pub use answering::{grant, reply, resume, tell, top_stage};
pub use taking::take;
