//! What the core keeps of one handler: its stage, what it serves, its queue, and the job that it is out with; and
//! what it keeps of each settlement, in a log.
//!
//! Nothing here knows of other handlers, or of who holds which. `specs/Handlers` says what is kept, `specs/InMemory`
//! how it lies in memory, `specs/Picking` which job the handler has by it, and `specs/Changes` what a settlement
//! changes of it.
#![tactic(auto)]

mod agreement;
mod changes;
mod copy;
mod fits;
mod freeing;
mod handler;
mod hashing;
mod job_kind;
mod job_slot;
mod logged;
mod marks;
mod packed;
mod passing;
mod posted_request;
mod postings;
mod reading;
mod same;
mod settlement;
mod sharing;
mod spare_places;
mod wait_mark;

pub use changes::Dropped;
pub use copy::{copy_handlers, copy_values};
pub use fits::{fits_turns, is_request_of};
pub use freeing::{frees, frees_under};
pub use handler::{Answer, Handler, HandlerStage, Posting};
pub use hashing::{word_of, write_handler};
pub use job_kind::{JobKind, kind_of};
pub use job_slot::{JobSlot, write_job};
pub use logged::Log;
pub use passing::Passing;
pub use posted_request::PostedRequest;
pub use postings::take_first;
pub use same::{read_alike, same_handler};
pub use settlement::Settlement;
pub use spare_places::SparePlaces;
pub use wait_mark::WaitMark;
