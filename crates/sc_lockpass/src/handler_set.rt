//! Sets of handlers.
ghost use Rattle.std.specs.Prelude.{◌≡◌, ◌<◌, ◌==◌, ◌||◌, ℕ, false};
ghost use Rattle.sc_lockpass.specs.Tables.{is_member};

/// A set of handlers, with a bit for each of 512 numbers.
#[derive(Drop)]
pub(crate) struct HandlerSet {
    pub(crate) words: [u64; 8],
}

impl HandlerSet {
    pub(crate) fn new() -> Self
        ensures { (k : ℕ) → is_member result.words k ≡ false }
    {
        HandlerSet { words: [0; 8] }
    }

    pub(crate) fn copy(&self) -> Self
        ensures { result ≡ self.now }
    {
        HandlerSet { words: self.words }
    }

    pub(crate) fn contains(&self, handler: usize) -> bool
        requires { handler < 512 }
        ensures { result ≡ is_member self.now.words handler }
    {
        (self.words[handler / 64] >> (handler % 64)) & 1 == 1
    }

    pub(crate) fn insert(&mut self, handler: usize)
        requires { handler < 512 }
        ensures { (k : ℕ) → is_member self.new.words k ≡ (k == handler || is_member self.old.words k) }
    {
        self.words[handler / 64] |= 1 << (handler % 64);
    }
}
