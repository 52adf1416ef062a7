//! The handlers, and who holds which.
ghost use Rattle.std.specs.Prelude.{◌≡◌, ◌≤◌, ◌<◌, vec_len};
ghost use Rattle.sc_lockpass.specs.Versions.{most_handlers};

use sc_handler::Handler;
use sc_lockpass::Rights;

/// What settlements change: the handlers, the counts of their sessions, and the rights over them.
///
/// There are places for 512 handlers, whatever the version, as in the tables of rights.
#[derive(Drop)]
pub(crate) struct State {
    /// How many handlers there are.
    pub(crate) count: usize,
    /// Those, and places for others.
    pub(crate) handlers: Vec<Handler>,
    /// How many sessions of each have ended.
    pub(crate) sessions: Vec<u64>,
    pub(crate) rights: Rights,
    pub(crate) ghost some: { count ≤ most_handlers rights.version },
    pub(crate) ghost places: { vec_len handlers ≡ 512 },
    pub(crate) ghost counts: { vec_len sessions ≡ 512 },
}
