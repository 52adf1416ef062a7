//! What the core keeps of a handler.
ghost use Rattle.std.specs.Prelude.{◌≡◌, ◌&&◌, ◌||◌, ◌↔◌, not, false, IfOk, IsTrue, Some, map, is_some};
ghost use Rattle.sc_lockpass.specs.wait_conditions.Reservations.{is_idle};
ghost use Rattle.sc_handler.specs.Handlers.{has_requests, new_handler, standing_of};
ghost use Rattle.sc_handler.specs.Picking.{job_answered, job_awaiting, job_idle};
ghost use Rattle.sc_handler.specs.InMemory.{IsOutWithOwn, answer_of, fresh, asked, handler_of, posting_of, first_posted, answers_of};

use crate::job_slot::JobSlot;
use crate::passing::Passing;
use crate::posted_request::PostedRequest;
use crate::wait_mark::WaitMark;
use arrayvec::ArrayVec;
use sc_lockpass::HandlerNumber;
use sc_model::Cause;
use sc_region::{Job, Request, Value};
use std::alloc::{AllocError, Global};
use std::collections::LinkedList;

/// An answer that has come.
#[derive(Clone, Copy, PartialEq, Eq)]
pub enum Answer {
    /// The value of a query, or none.
    Replied(Option<Value>),
    /// The supplier has failed.
    SupplierFailed,
    /// The request was refused.
    Refused,
}

/// What a handler's next turn goes on from.
#[derive(Clone, Copy, PartialEq, Eq)]
pub enum HandlerStage {
    /// It has no frames.
    Idle,
    /// Its next step is always enabled.
    Runs,
    /// It goes on with a handler that was made for it.
    HasMade(HandlerNumber),
    /// It reserves what it doesn't hold of the handlers of its entry.
    Reserves,
    /// It waits for a supplier's answer, perhaps to a creation.
    Awaits {
        /// The handler that it waits for.
        supplier: HandlerNumber,
        /// Whether that was made for it.
        is_creation: bool,
    },
}

/// A request in a handler's queue or callback, or one that its frames serve. It takes 88 bytes, and 16 more in a
/// list; and further memory only if it has more than one actual, or rights were passed with it.
#[derive(Drop)]
pub struct Posting {
    /// What is asked, as it was sent.
    pub request: PostedRequest,
    /// The rights that went with it.
    pub passed: Passing,
    /// How the handler stood when it was taken.
    pub over: HandlerStage,
}

impl Posting {
    /// A place for a posting.
    pub fn blank(alloc: Global) -> Posting {
        Posting {
            request: PostedRequest::blank(alloc),
            passed: Passing::none(),
            over: HandlerStage::Idle,
        }
    }
}

/// What the core keeps of a handler, but for the count of its sessions.
#[derive(Drop)]
pub struct Handler {
    /// What its next turn goes on from.
    pub stage: HandlerStage,
    /// The handlers that its last reserve step was for.
    pub entry: ArrayVec<HandlerNumber, 16>,
    /// The mark of that, if it waits.
    pub mark: WaitMark,
    /// The requests that its frames serve, the one taken last first.
    pub services: LinkedList<Posting>,
    /// The requests that it is to take, the next first.
    pub queue: LinkedList<Posting>,
    /// The one that it takes before any answer, if there is one.
    pub callback: LinkedList<Posting>,
    /// The answer that has come, and that it hasn't taken yet.
    pub answer: Option<Answer>,
    /// Why it has failed, if it has.
    pub failure: Option<Cause>,
    /// How many requests it refused for which no handler waited.
    pub refused: u64,
    /// The job that it is out with.
    pub out: JobSlot,
}

impl Handler {
    /// A handler to which nothing was ever posted.
    pub fn new(alloc: Global) -> Handler
        ensures { result ≡ fresh }
    {
        Handler {
            stage: HandlerStage::Idle,
            entry: ArrayVec::new(),
            mark: WaitMark::new(),
            services: LinkedList::new(alloc),
            queue: LinkedList::new(alloc),
            callback: LinkedList::new(alloc),
            answer: None,
            failure: None,
            refused: 0,
            out: JobSlot::new(),
        }
    }

    /// A handler that is asked for this alone.
    pub fn asked(alloc: Global, request: Request) -> Result<Handler, AllocError>
        ensures { IfOk result (λ h. h ≡ asked request) }
    {
        let mut handler = Handler::new(alloc);
        handler.queue.push_back(Posting {
            request: PostedRequest::new(alloc, &request)?,
            passed: Passing::none(),
            over: HandlerStage::Idle,
        })?;
        Ok(handler)
    }

    /// Whether its queue has a request.
    pub fn is_asked(&self) -> bool
        ensures { result ≡ has_requests (map posting_of self.now.queue) }
    {
        !self.queue.is_empty()
    }

    /// Whether it has no frames and hasn't failed, and its queue is empty.
    pub fn is_idle(&self) -> bool
        ensures { result ≡ (is_idle (standing_of (handler_of self.now)) && not (has_requests (map posting_of self.now.queue))) }
    {
        self.stage == HandlerStage::Idle && self.failure.is_none() && self.queue.is_empty()
    }

    /// Whether nothing was ever posted to it.
    pub fn is_fresh(&self) -> bool
        ensures { IsTrue result ↔ handler_of self.now ≡ new_handler }
    {
        self.stage == HandlerStage::Idle
            && self.entry.is_empty()
            && self.services.is_empty()
            && self.queue.is_empty()
            && self.callback.is_empty()
            && self.answer.is_none()
            && self.failure.is_none()
            && self.refused == 0
    }

    /// Whether its callback or an answer has come.
    pub fn is_called(&self) -> bool
        ensures { result ≡ (is_some (first_posted self.now.callback) || is_some (answers_of self.now.answer)) }
    {
        !self.callback.is_empty() || self.answer.is_some()
    }

    /// The next of its queue.
    pub fn job_idle(&self) -> Option<Job>
        ensures { result ≡ job_idle (map posting_of self.now.queue) }
    {
        match self.queue.front() {
            Some(posting) => Some(Job::Take(posting.request.to_request())),
            None => None,
        }
    }

    /// Its callback, or the answer that has come from the supplier.
    pub fn job_awaiting(&self, supplier: HandlerNumber, is_creation: bool) -> Option<Job>
        ensures { result ≡ job_awaiting supplier is_creation (first_posted self.now.callback) (answers_of self.now.answer) }
    {
        if let Some(posting) = self.callback.front() {
            return Some(Job::Take(posting.request.to_request()));
        }
        match self.answer {
            Some(answer) => Some(job_answered(supplier, is_creation, answer)),
            None => None,
        }
    }

    /// It is out with what it has to do, but where that is a reserve step.
    pub fn set_own(&mut self)
        ensures { IsOutWithOwn self.old self.new }
    {
        match self.stage {
            HandlerStage::Idle => self.set_idle(),
            HandlerStage::Runs => self.out.set_go(),
            HandlerStage::HasMade(made) => self.out.set_made(made),
            HandlerStage::Reserves => {}
            HandlerStage::Awaits {
                supplier,
                is_creation,
            } => self.set_awaiting(supplier, is_creation),
        }
    }

    /// It is out with the next of its queue.
    fn set_idle(&mut self)
        ensures { self.new ≡ record self.old { out = job_idle (map posting_of self.old.queue) } }
    {
        match self.queue.front() {
            Some(posting) => self.out.set_take(&posting.request),
            None => self.out.clear(),
        }
    }

    /// It is out with its callback, or with the answer that has come from the supplier.
    fn set_awaiting(&mut self, supplier: HandlerNumber, is_creation: bool)
        ensures { self.new ≡ record self.old { out = job_awaiting supplier is_creation (first_posted self.old.callback) (answers_of self.old.answer) } }
    {
        if let Some(posting) = self.callback.front() {
            self.out.set_take(&posting.request);
            return;
        }
        match self.answer {
            Some(answer) => set_answered(&mut self.out, supplier, is_creation, answer),
            None => self.out.clear(),
        }
    }
}

/// What a handler takes an answer by.
fn job_answered(supplier: HandlerNumber, is_creation: bool, answer: Answer) -> Job
    ensures { result ≡ job_answered supplier is_creation (answer_of answer) }
{
    match answer {
        Answer::Replied(value) => {
            if is_creation {
                Job::Made(supplier)
            } else {
                Job::Reply(value)
            }
        }
        Answer::SupplierFailed => Job::Failed,
        Answer::Refused => Job::Refused,
    }
}

/// Writes an answer into the place of the job that it is out with.
fn set_answered(out: &mut JobSlot, supplier: HandlerNumber, is_creation: bool, answer: Answer)
    ensures { out.new ≡ Some (job_answered supplier is_creation (answer_of answer)) }
{
    match answer {
        Answer::Replied(value) => {
            if is_creation {
                out.set_made(supplier);
            } else {
                out.set_reply(value);
            }
        }
        Answer::SupplierFailed => out.set_failed(),
        Answer::Refused => out.set_refused(),
    }
}
