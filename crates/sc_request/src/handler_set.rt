//! Sets of handlers.
ghost use Rattle.std.specs.Prelude.{◌≡◌, ◌<◌, ◌≤◌, ◌==◌, ◌||◌, ◌&&◌, ℕ, None, IfSome, false, true, not, if◌then◌else◌};
ghost use Rattle.sc_lockpass.specs.Rights.{is_handler};
ghost use Rattle.sc_lockpass.specs.Tables.{is_member};
ghost use Rattle.sc_request.specs.Candidates.{IsFirstIn, HasNoneIn};

use sc_lockpass::HandlerNumber;

/// A set of handlers, with a bit for each of 512 numbers.
#[derive(Clone, Copy)]
pub(crate) struct HandlerSet {
    pub(crate) words: [u64; 8],
}

impl HandlerSet {
    pub(crate) fn new() -> Self
        ensures { (k : ℕ) → is_member result.words k ≡ false }
    {
        HandlerSet { words: [0; 8] }
    }

    pub(crate) fn insert(&mut self, handler: usize)
        requires { handler < 512 }
        ensures { (k : ℕ) → is_member self.new.words k ≡ (k == handler || is_member self.old.words k) }
    {
        self.words[handler / 64] |= 1 << (handler % 64);
    }

    pub(crate) fn remove(&mut self, handler: usize)
        requires { handler < 512 }
        ensures { (k : ℕ) → is_member self.new.words k ≡ (not (k == handler) && is_member self.old.words k) }
    {
        self.words[handler / 64] &= !(1 << (handler % 64));
    }

    /// Adds a handler, if there is a place for it.
    pub(crate) fn admit(&mut self, handler: usize)
        ensures { (k : ℕ) → k < 512 → is_member self.new.words k ≡ (k == handler || is_member self.old.words k) }
    {
        if handler < 512 {
            self.insert(handler);
        }
    }

    /// Adds a handler, or takes it out.
    pub(crate) fn set(&mut self, handler: usize, is_in: bool)
        requires { handler < 512 }
        ensures { (k : ℕ) → is_member self.new.words k ≡ (if k == handler then is_in else is_member self.old.words k) }
    {
        if is_in {
            self.insert(handler);
        } else {
            self.remove(handler);
        }
    }

    /// Adds all of another set.
    pub(crate) fn add(&mut self, others: &HandlerSet)
        ensures { (k : ℕ) → is_member self.new.words k ≡ (is_member self.old.words k || is_member others.now.words k) }
    {
        for at in 0..8 {
            self.words[at] |= others.words[at];
        }
    }

    /// Takes out a handler, if there is one.
    pub(crate) fn dismiss(&mut self, handler: Option<HandlerNumber>)
        ensures { (k : ℕ) → k < 512 → is_member self.new.words k ≡ (not (is_handler k handler) && is_member self.old.words k) }
    {
        if let Some(handler) = handler {
            if handler < 512 {
                self.remove(handler as usize);
            }
        }
    }

    /// Takes out all of another set.
    pub(crate) fn take_out(&mut self, others: &HandlerSet)
        ensures { (k : ℕ) → is_member self.new.words k ≡ (not (is_member others.now.words k) && is_member self.old.words k) }
    {
        for at in 0..8 {
            self.words[at] ^= self.words[at] & others.words[at];
        }
    }

    /// Adds all.
    pub(crate) fn fill(&mut self)
        ensures { (k : ℕ) → k < 512 → is_member self.new.words k ≡ true }
    {
        self.words = [u64::MAX; 8];
    }

    /// The least of the set that is at least `from` and below `to`. It looks at eight words at most.
    pub(crate) fn next_in(&self, from: usize, to: usize) -> Option<usize>
        requires { to ≤ 512 }
        ensures first { IfSome result (λ k. IsFirstIn self.now.words from to k) }
        ensures none { result ≡ None → HasNoneIn self.now.words from to }
    {
        let mut at = from;
        for _word in 0..8_usize {
            if at >= to {
                return None;
            }
            let rest = self.words[at / 64] >> (at % 64);
            if rest != 0 {
                let found = at + rest.trailing_zeros() as usize;
                return if found < to { Some(found) } else { None };
            }
            at = (at / 64 + 1) * 64;
        }
        None
    }
}
