//! Hashes of the states of cores.

use crate::center::Core;
use sc_handler::{word_of, write_handler};
use sc_lockpass::HandlerNumber;
use std::hash::{FoldHasher, Hasher};

impl Core {
    /// A hash of the state: of handlers, their queues, and who holds which, without the counts of sessions, so that states
    /// that are read alike have the same one. No contract says which number it is. It takes time for each handler, and
    /// for each request in its queue.
    pub fn hash(&self) -> u64 {
        let mut hasher = FoldHasher::default();
        for handler in 0..self.handler_count() {
            let queue = word_of(self.state.rights.queue(handler as HandlerNumber));
            let top = word_of(self.state.rights.top(handler as HandlerNumber));
            hasher.write_u64(queue | top << 32);
            write_handler(&mut hasher, &self.state.handlers[handler]);
        }
        hasher.finish()
    }
}
