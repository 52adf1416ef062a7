//! A region together with the log of the jobs that it played.
//!
//! A [`LoggedRegion`] plays jobs as a [`Region`](sc_play::Region) does, and notes the outcome of each. Its type
//! keeps that the log replays to the region. So it can be kept under a lock, which forgets all but the type: runs on
//! several threads keep theirs so (`sc_plant`). With one thread the regions are bare.
#![tactic(auto)]

pub mod laws;
mod logged_region;

pub use logged_region::LoggedRegion;
