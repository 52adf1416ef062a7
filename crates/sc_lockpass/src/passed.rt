//! What a client passed with a request.

use crate::handler_number::HandlerNumber;
use crate::handler_set::HandlerSet;
use std::marker::Model;

/// The rights that a client passed to its supplier, with their holders before.
///
/// Only [`Rights::pass`](crate::Rights::pass) makes one, and [`Rights::give_back`](crate::Rights::give_back) takes it. It
/// is copied only where a state of handlers is kept whole. It takes 144 bytes, for any number of handlers.
#[derive(Drop)]
pub struct Passed {
    pub(crate) client: HandlerNumber,
    /// Who could push on the client's waiting stack.
    pub(crate) top_holder: Option<HandlerNumber>,
    /// No right over a handler from this number on is listed.
    pub(crate) reach: usize,
    pub(crate) queues: HandlerSet,
    pub(crate) tops: HandlerSet,
}

impl Model for Passed {
    ghost use Rattle.std.specs.Prelude.{◌<◌, ◌≤◌};
    ghost use Rattle.sc_lockpass.specs.Tables.{Listing, IsBelow};

    ghost Value = { Listing };

    ghost view = { λ p. record { client = p.client; top_holder = p.top_holder; queues = p.queues.words; tops = p.tops.words } };

    ghost invariant = { λ p. record {
      client : p.client < p.reach;
      most : p.reach ≤ 512;
      queues : IsBelow p.reach p.queues.words;
      tops : IsBelow p.reach p.tops.words;
    } };
}

impl Passed {
    ghost use Rattle.std.specs.Prelude.{◌≡◌};

    /// A copy, for a state that is kept.
    pub fn copy(&self) -> Passed
        ensures { result ≡ self.now }
    {
        Passed {
            client: self.client,
            top_holder: self.top_holder,
            reach: self.reach,
            queues: self.queues.copy(),
            tops: self.tops.copy(),
        }
    }
}
