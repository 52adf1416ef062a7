//! The place of the job that a handler is out with.
ghost use Rattle.std.specs.Prelude.{◌≡◌, None, Some, is_some};
ghost use Rattle.std.specs.Option.{option_map};
ghost use Rattle.sc_region.specs.declared.job.Job.TheVariants as job;

use crate::copy::{copy_handlers, copy_request, write_request};
use crate::posted_request::PostedRequest;
use sc_lockpass::HandlerNumber;
use sc_region::{Job, Request, Value};
use std::marker::Model;

/// The place of the job that a handler is out with. It is empty if the handler isn't out.
///
/// A job that goes leaves its memory as it is, so that the next one is written over it if it is of the same kind, and
/// no large value is moved.
#[derive(Drop)]
pub struct JobSlot {
    job: Job,
    is_full: bool,
}

impl Model for JobSlot {
    ghost use Rattle.std.specs.Prelude.{None, Option, Some, if◌then◌else◌};
    ghost use Rattle.sc_region.specs.declared.job.Job.{Job};

    ghost Value = { Option Job };

    ghost view = { λ s. if s.is_full then Some s.job else None };
}

impl JobSlot {
    /// An empty place.
    pub fn new() -> JobSlot
        ensures { result ≡ None }
    {
        JobSlot {
            job: Job::Go,
            is_full: false,
        }
    }

    /// Whether there is a job.
    pub fn is_some(&self) -> bool
        ensures { result ≡ is_some self.now }
    {
        self.is_full
    }

    /// The job, if there is one.
    pub fn get(&self) -> Option<&Job>
        ensures { option_map (λ job. job.now) result ≡ self.now }
    {
        if self.is_full { Some(&self.job) } else { None }
    }

    /// There is no job from now on.
    pub fn clear(&mut self)
        ensures { self.new ≡ None }
    {
        self.is_full = false;
    }

    /// This job comes, or none.
    pub fn put(&mut self, job: Option<Job>)
        ensures { self.new ≡ job }
    {
        match job {
            Some(job) => {
                self.job = job;
                self.is_full = true;
            }
            None => self.is_full = false,
        }
    }

    /// It takes this request.
    pub fn set_take(&mut self, request: &PostedRequest)
        ensures { self.new ≡ Some (job.Take request.now) }
    {
        write_posted(&mut self.job, request);
        self.is_full = true;
    }

    /// It takes this answer.
    pub fn set_reply(&mut self, value: Option<Value>)
        ensures { self.new ≡ Some (job.Reply value) }
    {
        write_reply(&mut self.job, value);
        self.is_full = true;
    }

    /// It goes on.
    pub fn set_go(&mut self)
        ensures { self.new ≡ Some job.Go }
    {
        write_go(&mut self.job);
        self.is_full = true;
    }

    /// It goes on with this handler, which was made for it.
    #[inline(never)]
    pub fn set_made(&mut self, made: HandlerNumber)
        ensures { self.new ≡ Some (job.Made made) }
    {
        self.job = Job::Made(made);
        self.is_full = true;
    }

    /// The handler that it waits for has failed.
    #[inline(never)]
    pub fn set_failed(&mut self)
        ensures { self.new ≡ Some job.Failed }
    {
        self.job = Job::Failed;
        self.is_full = true;
    }

    /// The request that it waits for was refused.
    #[inline(never)]
    pub fn set_refused(&mut self)
        ensures { self.new ≡ Some job.Refused }
    {
        self.job = Job::Refused;
        self.is_full = true;
    }
}

/// Makes a job equal to another one. If both are of one kind, no large value is moved.
pub fn write_job(place: &mut Job, job: &Job)
    ensures { place.new ≡ job.now }
{
    match job {
        Job::Take(request) => write_take(place, request),
        Job::Reply(value) => write_reply(place, *value),
        Job::Go => write_go(place),
        _ => renew_job(place, job),
    }
}

#[inline(never)]
fn renew_job(place: &mut Job, job: &Job)
    ensures { place.new ≡ job.now }
{
    *place = match job {
        Job::Take(request) => Job::Take(copy_request(request)),
        Job::Reply(value) => Job::Reply(*value),
        Job::Failed => Job::Failed,
        Job::Refused => Job::Refused,
        Job::Granted(handlers) => Job::Granted(copy_handlers(handlers)),
        Job::Made(made) => Job::Made(*made),
        Job::Go => Job::Go,
    };
}

fn write_take(place: &mut Job, request: &Request)
    ensures { place.new ≡ job.Take request.now }
{
    match place {
        Job::Take(kept) => write_request(kept, request, request.is_waited),
        _ => renew_take(place, request),
    }
}

#[inline(never)]
fn renew_take(place: &mut Job, request: &Request)
    ensures { place.new ≡ job.Take request.now }
{
    *place = Job::Take(copy_request(request));
}

/// Writes the job that takes a request from the handler's queue.
fn write_posted(place: &mut Job, request: &PostedRequest)
    ensures { place.new ≡ job.Take request.now }
{
    match place {
        Job::Take(kept) => request.write_to(kept),
        _ => renew_posted(place, request),
    }
}

#[inline(never)]
fn renew_posted(place: &mut Job, request: &PostedRequest)
    ensures { place.new ≡ job.Take request.now }
{
    *place = Job::Take(request.to_request());
}

fn write_reply(place: &mut Job, value: Option<Value>)
    ensures { place.new ≡ job.Reply value }
{
    match place {
        Job::Reply(kept) => *kept = value,
        _ => renew_reply(place, value),
    }
}

#[inline(never)]
fn renew_reply(place: &mut Job, value: Option<Value>)
    ensures { place.new ≡ job.Reply value }
{
    *place = Job::Reply(value);
}

fn write_go(place: &mut Job)
    ensures { place.new ≡ job.Go }
{
    match place {
        Job::Go => {}
        _ => renew_go(place),
    }
}

#[inline(never)]
fn renew_go(place: &mut Job)
    ensures { place.new ≡ job.Go }
{
    *place = Job::Go;
}
