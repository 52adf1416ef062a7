//! The core.
ghost use Rattle.std.specs.Prelude.{◌≡◌, ◌≤◌, ◌*◌, ◌∷◌, ℕ, IfOk, Some, replicate, vec_len};
ghost use Rattle.sc_lockpass.specs.Versions.{most_handlers};
ghost use Rattle.sc_handler.specs.InMemory.{asked, fresh};
ghost use Rattle.sc_request.specs.Candidates.{AreCandidates, AreReserving, HasGrantsBelow, HasOutsBelow};
ghost use Rattle.sc_request.specs.Crowds.{AreCrowds};
ghost use Rattle.sc_request.specs.Places.{plain};
ghost use Rattle.sc_request.specs.Tables.{out_total, center, handler_at};
ghost use Rattle.sc_request.specs.Logs.{root_of};
ghost use Rattle.sc_request.specs.Sound.{IsSound};

use crate::handler_set::HandlerSet;
use crate::state::State;
use arrayvec::ArrayVec;
use sc_handler::{Handler, Log, SparePlaces};
use sc_lockpass::{HandlerNumber, Rights, Version};
use sc_model::Status;
use sc_region::{ClassNumber, Errand, Job, NameNumber, Reference, Request};
use std::alloc::{AllocError, Global};

/// The half of the world that moves requests and rights between handlers.
///
/// A handler that was picked is out with its job until the job is put back or settled. A call that picks tries only
/// handlers that may have got something to do since they were last tried. After a settlement these are the handler
/// itself, and one that it asked or made, or whose request it may have ended; where rights may have changed, sessions
/// ended or the handler become idle, also all that wait to reserve; and after a failure all. Of those that are known
/// to wait for one that is held, one is tried, and then none of the others. No call looks at a whole queue but where a
/// handler fails.
#[derive(Drop)]
pub struct Core {
    /// The handlers, and who holds which.
    pub(crate) state: State,
    /// How many handlers are out.
    pub(crate) outs: usize,
    /// The handler that was picked last.
    pub(crate) last: HandlerNumber,
    pub(crate) log: Log,
    /// Places for what is posted: one for each settlement that was made room for.
    pub(crate) spare: SparePlaces,
    /// Those that may have something to do: all that have, and some that were not tried since they might.
    pub(crate) candidates: HandlerSet,
    /// Those that wait to reserve: all whose next step is a reserve step.
    pub(crate) reserving: HandlerSet,
    /// By the number of each handler, those that were found to wait for it since it was held, and still reserve it next.
    /// There are sets up to the last handler for which one was noted since they were cleared.
    pub(crate) crowds: Vec<HandlerSet>,
    pub(crate) ghost counted: { outs ≡ out_total state.handlers.items },
    pub(crate) ghost there: { HasOutsBelow (most_handlers state.rights.version) state.handlers.items },
    pub(crate) ghost grants: { HasGrantsBelow (most_handlers state.rights.version) state.handlers.items },
    pub(crate) ghost sound: { IsSound (vec_len log.entries) (vec_len log.entries) (plain state) },
    pub(crate) ghost tried: { AreCandidates candidates.words (center state.count state.handlers.items state.sessions.items state.rights last) },
    pub(crate) ghost waiting: { AreReserving reserving.words (handler_at state.handlers.items state.sessions.items) },
    pub(crate) ghost crowded: { AreCrowds crowds.items state.count (handler_at state.handlers.items state.sessions.items) },
}

impl Core {
    ghost use Rattle.std.specs.Prelude.{[], is_some, nat_lt, None, if◌then◌else◌};
    ghost use Rattle.sc_lockpass.specs.Rights as maps;
    ghost use Rattle.sc_handler.specs.Logged.{settlements_of};
    ghost use Rattle.sc_request.specs.Logs.{opened};
    ghost use Rattle.sc_request.specs.Logs as logs;
    ghost use Rattle.sc_request.specs.Cores.{state_of, center_of, log_of};

    /// One handler, with the request for the creation of the root object: of this class, by the creation procedure
    /// with this number. There may be as many handlers as the version says. Further memory comes from this allocator.
    /// Its error says that memory ran out.
    pub fn opening(
        alloc: Global,
        class: ClassNumber,
        procedure: NameNumber,
        version: Version,
    ) -> Result<Core, AllocError>
        ensures center { IfOk result (λ c. center_of c ≡ opened (most_handlers version) (root_of class procedure)) }
        ensures out { IfOk result (λ c. c.outs ≡ 0) }
        ensures log { IfOk result (λ c. log_of c ≡ []) }
        ensures version { IfOk result (λ c. c.state.rights.version ≡ version) }
    {
        let handlers = places(alloc, root_request(class, procedure), 511)?;
        let mut candidates = HandlerSet::new();
        candidates.insert(0);
        Ok(Core {
            state: State {
                count: 1,
                handlers,
                sessions: vec![in alloc; 0; 512]?,
                rights: Rights::new(version),
            },
            outs: 0,
            last: version.most_handlers() - 1,
            log: Log::new(alloc),
            spare: SparePlaces::new(alloc),
            candidates,
            reserving: HandlerSet::new(),
            crowds: Vec::with_capacity(alloc, 512)?,
        })
    }

    /// Whether a handler holds another one: it is itself, or it may post to it or push on its waiting stack.
    pub fn held(&self, holder: HandlerNumber, handler: HandlerNumber) -> bool
        ensures { result ≡ maps.held (state_of self.now).rights holder handler }
    {
        self.state.rights.held(holder, handler)
    }

    /// Whether a handler has something to do and isn't out.
    pub(crate) fn has_job(&self, handler: HandlerNumber) -> bool
        ensures { result ≡ is_some (logs.pick_for handler (center_of self.now)) }
    {
        self.state.has_job(handler)
    }

    /// The job of a handler, if it has one and isn't out.
    pub fn pick_for(&self, handler: HandlerNumber) -> Option<Job>
        ensures { result ≡ logs.pick_for handler (center_of self.now) }
    {
        self.state.pick_for(handler)
    }

    /// The status of a handler, or None if there is no such handler. One that is out is busy.
    pub fn status(&self, handler: HandlerNumber) -> Option<Status>
        ensures { result ≡ logs.status_for handler (center_of self.now) }
    {
        self.state.status(handler)
    }

    /// How many handlers there are.
    pub fn handler_count(&self) -> usize
        ensures count { result ≡ (state_of self.now).count }
        ensures few { result ≤ 512 }
    {
        self.state.count
    }

    /// How many requests a handler refused for which no handler waited, or None if there is no such handler.
    pub fn refused(&self, handler: HandlerNumber) -> Option<u64>
        ensures { result ≡ (if nat_lt handler (state_of self.now).count then Some ((state_of self.now).handlers handler).refused else None) }
    {
        if (handler as usize) >= self.state.count {
            return None;
        }
        Some(self.state.handlers[handler as usize].refused)
    }

    /// How many handlers are out.
    pub fn out_count(&self) -> usize
        ensures total { result ≡ out_total self.now.state.handlers.items }
        ensures outs { result ≡ self.now.outs }
        ensures none { result ≡ 0 → (h : ℕ) → (center_of self.now).out h ≡ None }
    {
        self.outs
    }

    /// The settlements so far, the first one first.
    pub fn log(&self) -> &Log
        ensures { settlements_of result.now ≡ log_of self.now }
    {
        &self.log
    }
}

/// The creation of the root object, for which no handler waits.
fn root_request(class: ClassNumber, procedure: NameNumber) -> Request
    ensures { result ≡ root_of class procedure }
{
    Request {
        poster: None,
        target: Reference {
            handler: 0,
            number: 1,
            class,
        },
        errand: Errand::Makes(Some(procedure)),
        actuals: ArrayVec::new(),
        is_waited: false,
    }
}

/// A handler with this request, and places for `others` further ones.
fn places(alloc: Global, root: Request, others: usize) -> Result<Vec<Handler>, AllocError>
    ensures { IfOk result (λ hs. hs.items ≡ asked root ∷ replicate others fresh) }
{
    let mut handlers = Vec::new(alloc);
    handlers.push(Handler::asked(alloc, root)?)?;
    handlers.reserve(others)?;
    for _k in 0..others {
        handlers.push_reserved(Handler::new(alloc));
    }
    Ok(handlers)
}
