//! Which handler holds which.
ghost use Rattle.std.specs.Prelude.{◌≡◌, ◌<◌, ◌≤◌, Some, None};
ghost use Rattle.std.specs.List.{All};
ghost use Rattle.sc_lockpass.specs.Versions.{most_handlers};
ghost use Rattle.sc_lockpass.specs.Rights as maps;
ghost use Rattle.sc_lockpass.specs.Passing as passing;
ghost use Rattle.sc_lockpass.specs.Tables.{IsNobodysFrom, rights_of, passed_of};

use crate::handler_number::HandlerNumber;
use crate::holders::{assign, held_by, holds, nobody, reach_with, replace, restore};
use crate::passed::Passed;
use crate::version::Version;
use std::marker::Model;

/// For each handler, which handler may post to it (its `queue`) and which may push on its waiting stack (its `top`),
/// if any. Handlers are numbered from 0, below the most of the version.
///
/// Two tables of fixed size, so that no call takes memory. Handlers are made one after another, and each is reserved
/// as it is made: so no handler has a right over one that doesn't exist yet. The tables know the highest number over
/// which a right was ever given, and no call looks beyond it: the time of a call grows with the handlers that exist,
/// and not with the version.
#[derive(Drop)]
pub struct Rights {
    version: Version,
    /// No handler has a right over handlers from this number on.
    reach: usize,
    queue: [Option<HandlerNumber>; 512],
    top: [Option<HandlerNumber>; 512],
}

impl Model for Rights {
    ghost use Rattle.std.specs.Prelude.{◌≤◌};
    ghost use Rattle.sc_lockpass.specs.Tables.{Table, IsNobodysFrom};

    ghost Value = { Table };

    ghost view = { λ r. record { version = r.version; queue = r.queue; top = r.top } };

    ghost invariant = { λ r. record {
      most : r.reach ≤ 512;
      queue : IsNobodysFrom r.reach r.queue;
      top : IsNobodysFrom r.reach r.top;
    } };
}

impl Rights {
    /// All rights over the handlers of a version, held by no handler.
    pub fn new(version: Version) -> Self
        ensures rights { rights_of result ≡ maps.unreserved }
        ensures version { result.version ≡ version }
    {
        Rights {
            version,
            reach: 0,
            queue: nobody(),
            top: nobody(),
        }
    }

    /// How many handlers there can be.
    pub fn version(&self) -> Version
        ensures { result ≡ self.now.version }
    {
        self.version
    }

    /// Who may post to a handler, if anybody may.
    pub fn queue(&self, handler: HandlerNumber) -> Option<HandlerNumber>
        ensures { result ≡ (rights_of self.now).queue handler }
    {
        self.queue.get(handler as usize).copied().flatten()
    }

    /// Who may push on a handler's waiting stack, if anybody may.
    pub fn top(&self, handler: HandlerNumber) -> Option<HandlerNumber>
        ensures { result ≡ (rights_of self.now).top handler }
    {
        self.top.get(handler as usize).copied().flatten()
    }

    /// The number from which on no handler has a right.
    pub fn reach(&self) -> usize
        ensures most { result ≤ 512 }
        ensures queue { IsNobodysFrom result self.now.queue }
        ensures top { IsNobodysFrom result self.now.top }
    {
        self.reach
    }

    /// Whether a handler holds another one: it is itself, or it may post to it or push on its waiting stack.
    pub fn held(&self, holder: HandlerNumber, handler: HandlerNumber) -> bool
        ensures { result ≡ maps.held (rights_of self.now) holder handler }
    {
        handler == holder || holds(holder, self.queue(handler)) || holds(holder, self.top(handler))
    }

    /// Lets a handler post to these handlers, which were free.
    pub fn reserve(&mut self, holder: HandlerNumber, handlers: &[HandlerNumber])
        requires listed { All (λ k. k < most_handlers self.old.version) handlers.now }
        requires unreserved { All (λ k. (rights_of self.old).queue k ≡ None) handlers.now }
        ensures rights { rights_of self.new ≡ maps.reserve holder handlers.now (rights_of self.old) }
        ensures version { self.new.version ≡ self.old.version }
    {
        assign(&mut self.queue, handlers, Some(holder));
        self.reach = reach_with(self.reach, handlers);
    }

    /// Frees these handlers, to which this handler may post.
    pub fn release(&mut self, holder: HandlerNumber, handlers: &[HandlerNumber])
        requires { All (λ k. (rights_of self.old).queue k ≡ Some holder) handlers.now }
        ensures rights { rights_of self.new ≡ maps.release handlers.now (rights_of self.old) }
        ensures version { self.new.version ≡ self.old.version }
    {
        assign(&mut self.queue, handlers, None);
    }

    /// Frees every handler over which this one holds a right, also one that was passed to it.
    pub fn release_all(&mut self, holder: HandlerNumber)
        ensures rights { rights_of self.new ≡ maps.release_all holder (rights_of self.old) }
        ensures version { self.new.version ≡ self.old.version }
    {
        replace(&mut self.queue, self.reach, holder, None);
        replace(&mut self.top, self.reach, holder, None);
    }

    /// Gives the rights over a handler to these, whoever held them: to one the right to post to it, to the other the right
    /// to push on its waiting stack.
    pub fn set_holders(
        &mut self,
        handler: HandlerNumber,
        queue: Option<HandlerNumber>,
        top: Option<HandlerNumber>,
    )
        requires { handler < 512 }
        ensures rights { rights_of self.new ≡ maps.with_holders handler queue top (rights_of self.old) }
        ensures version { self.new.version ≡ self.old.version }
    {
        let at = handler as usize;
        self.queue[at] = queue;
        self.top[at] = top;
        self.reach = self.reach.max(at + 1);
    }

    /// Passes every right that a client holds to its supplier, with the right to push on the client's own waiting
    /// stack, whoever held it. Returns what was passed, with the holders before.
    pub fn pass(&mut self, client: HandlerNumber, supplier: HandlerNumber) -> Passed
        requires { client < most_handlers self.old.version }
        ensures passed { passed_of result ≡ passing.passed_by client (rights_of self.old) }
        ensures rights { rights_of self.new ≡ passing.pass client supplier (rights_of self.old) }
        ensures version { self.new.version ≡ self.old.version }
    {
        let own = client as usize;
        let queues = held_by(client, &self.queue, self.reach);
        let tops = held_by(client, &self.top, self.reach);
        let top_holder = self.top[own];
        replace(&mut self.queue, self.reach, client, Some(supplier));
        replace(&mut self.top, self.reach, client, Some(supplier));
        self.top[own] = Some(supplier);
        self.reach = self.reach.max(own + 1);
        Passed {
            client,
            top_holder,
            reach: self.reach,
            queues,
            tops,
        }
    }

    /// Gives exactly what was passed back to those who held it before, whoever holds it now.
    pub fn give_back(&mut self, passed: Passed)
        ensures rights { rights_of self.new ≡ passing.give_back (passed_of passed) (rights_of self.old) }
        ensures version { self.new.version ≡ self.old.version }
    {
        let client = Some(passed.client);
        restore(&mut self.queue, passed.reach, &passed.queues, client);
        restore(&mut self.top, passed.reach, &passed.tops, client);
        self.top[passed.client as usize] = passed.top_holder;
        self.reach = self.reach.max(passed.reach);
    }
}
