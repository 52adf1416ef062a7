//! Settlements, jobs and wants as the log has them: without their values, which lie in a list of their own, so that those
//! that differ in values alone are kept once.
ghost use Rattle.std.specs.Prelude.{◌≡◌, ◌<◌, ◌≤◌, length};
ghost use Rattle.sc_handler.specs.Packed.{first_of_all, job_values, packed_job, packed_of, packed_request, packed_want, unpacked, unpacked_job, unpacked_request, unpacked_want, value_if, values_in, values_in_job, values_in_want, want_values};

use crate::copy::copy_handlers;
use crate::settlement::Settlement;
use arrayvec::ArrayVec;
use sc_lockpass::HandlerNumber;
use sc_model::Cause;
use sc_region::{ClassNumber, Errand, Job, NameNumber, Reference, Request, Value, Want};
use std::slice;

/// A request without its actuals: with how many there are in place of them.
#[derive(Clone, Copy)]
pub(crate) struct PackedRequest {
    pub(crate) poster: Option<HandlerNumber>,
    pub(crate) target: Reference,
    pub(crate) errand: Errand,
    pub(crate) actuals: u8,
    pub(crate) is_waited: bool,
}

/// A job without its values: with how many there are in place of them.
#[derive(Drop)]
pub(crate) enum PackedJob {
    Take(PackedRequest),
    Reply { has_value: bool },
    Failed,
    Refused,
    Granted(ArrayVec<HandlerNumber, 16>),
    Made(HandlerNumber),
    Go,
}

/// A want without its values: with how many there are in place of them.
#[derive(Drop)]
pub(crate) enum PackedWant {
    Continue,
    Reserve(ArrayVec<HandlerNumber, 16>),
    Post(PackedRequest),
    Ask {
        request: PackedRequest,
        passes: bool,
    },
    Create {
        class: ClassNumber,
        procedure: Option<NameNumber>,
        actuals: u8,
        passes: bool,
    },
    Release(ArrayVec<HandlerNumber, 16>),
    Wait(ArrayVec<HandlerNumber, 16>),
    Done {
        released: ArrayVec<HandlerNumber, 16>,
        has_reply: bool,
        refused: bool,
    },
    Fail(Cause),
}

/// A settlement without its values. Those of its job come first, then those of its want.
#[derive(Drop)]
pub(crate) struct PackedSettlement {
    pub(crate) handler: HandlerNumber,
    pub(crate) turns: u32,
    pub(crate) job: PackedJob,
    pub(crate) want: PackedWant,
}

impl PackedSettlement {
    /// How many values there are.
    pub(crate) fn values(&self) -> usize
        ensures { result ≡ values_in self.now }
    {
        self.job.values() + self.want.values()
    }

    /// The settlement that has the first of these values. Its job has the first of them.
    pub(crate) fn unpack(&self, values: &[Value]) -> Settlement
        requires few_in_job { values_in_job self.now.job ≤ 16 }
        requires few_in_want { values_in_want self.now.want ≤ 16 }
        requires there { values_in self.now ≤ length values.now }
        ensures { result ≡ unpacked self.now values.now }
    {
        Settlement {
            handler: self.handler,
            job: self.job.unpack(values),
            turns: self.turns,
            want: self.want.unpack(&values[self.job.values()..]),
        }
    }
}

/// These turns of a handler, packed.
pub(crate) fn pack(handler: HandlerNumber, job: &Job, turns: u32, want: &Want) -> PackedSettlement
    ensures { result ≡ packed_of handler job.now turns want.now }
{
    PackedSettlement {
        handler,
        turns,
        job: pack_job(job),
        want: pack_want(want),
    }
}

// ---- requests

fn pack_request(request: &Request) -> PackedRequest
    ensures { result ≡ packed_request request.now }
{
    PackedRequest {
        poster: request.poster,
        target: request.target,
        errand: request.errand,
        actuals: request.actuals.as_slice().len() as u8,
        is_waited: request.is_waited,
    }
}

/// The request that has the first of these actuals.
fn unpack_request(packed: PackedRequest, actuals: &[Value]) -> Request
    requires few { packed.actuals ≤ 16 }
    requires there { packed.actuals ≤ length actuals.now }
    ensures { result ≡ unpacked_request packed actuals.now }
{
    Request {
        poster: packed.poster,
        target: packed.target,
        errand: packed.errand,
        actuals: first_actuals(actuals, packed.actuals),
        is_waited: packed.is_waited,
    }
}

/// The first `count` of these actuals.
fn first_actuals(actuals: &[Value], count: u8) -> ArrayVec<Value, 16>
    requires few { count ≤ 16 }
    requires there { count ≤ length actuals.now }
    ensures { result ≡ first_of_all count actuals.now }
{
    let mut first = ArrayVec::new();
    let _ = first.try_extend_from_slice(&actuals[..count as usize]);
    first
}

/// The first of these values, if there is to be one.
fn first_value(values: &[Value], is_there: bool) -> Option<Value>
    ensures { result ≡ value_if is_there values.now }
{
    if is_there {
        return values.first().copied();
    }
    None
}

// ---- jobs

fn pack_job(job: &Job) -> PackedJob
    ensures { result ≡ packed_job job.now }
{
    match job {
        Job::Take(request) => PackedJob::Take(pack_request(request)),
        Job::Reply(value) => PackedJob::Reply {
            has_value: value.is_some(),
        },
        Job::Failed => PackedJob::Failed,
        Job::Refused => PackedJob::Refused,
        Job::Granted(handlers) => PackedJob::Granted(copy_handlers(handlers)),
        Job::Made(made) => PackedJob::Made(*made),
        Job::Go => PackedJob::Go,
    }
}

/// The values of a job.
pub(crate) fn job_values(job: &Job) -> &[Value]
    ensures values { result.now ≡ job_values job.now }
    ensures few { length result.now ≤ 16 }
{
    match job {
        Job::Take(request) => request.actuals.as_slice(),
        Job::Reply(Some(value)) => slice::from_ref(value),
        _ => &[],
    }
}

impl PackedJob {
    /// How many values there are.
    pub(crate) fn values(&self) -> usize
        ensures count { result ≡ values_in_job self.now }
        ensures few { result < 256 }
    {
        match self {
            PackedJob::Take(request) => request.actuals as usize,
            PackedJob::Reply { has_value: true } => 1,
            _ => 0,
        }
    }

    /// The job that has the first of these values.
    pub(crate) fn unpack(&self, values: &[Value]) -> Job
        requires few { values_in_job self.now ≤ 16 }
        requires there { values_in_job self.now ≤ length values.now }
        ensures { result ≡ unpacked_job self.now values.now }
    {
        match self {
            PackedJob::Take(request) => Job::Take(unpack_request(*request, values)),
            PackedJob::Reply { has_value } => Job::Reply(first_value(values, *has_value)),
            PackedJob::Failed => Job::Failed,
            PackedJob::Refused => Job::Refused,
            PackedJob::Granted(handlers) => Job::Granted(copy_handlers(handlers)),
            PackedJob::Made(made) => Job::Made(*made),
            PackedJob::Go => Job::Go,
        }
    }
}

// ---- wants

fn pack_want(want: &Want) -> PackedWant
    ensures { result ≡ packed_want want.now }
{
    match want {
        Want::Continue => PackedWant::Continue,
        Want::Reserve(handlers) => PackedWant::Reserve(copy_handlers(handlers)),
        Want::Post(request) => PackedWant::Post(pack_request(request)),
        Want::Ask { request, passes } => PackedWant::Ask {
            request: pack_request(request),
            passes: *passes,
        },
        Want::Create {
            class,
            procedure,
            actuals,
            passes,
        } => PackedWant::Create {
            class: *class,
            procedure: *procedure,
            actuals: actuals.as_slice().len() as u8,
            passes: *passes,
        },
        Want::Release(handlers) => PackedWant::Release(copy_handlers(handlers)),
        Want::Wait(handlers) => PackedWant::Wait(copy_handlers(handlers)),
        Want::Done {
            reply,
            released,
            refused,
        } => PackedWant::Done {
            released: copy_handlers(released),
            has_reply: reply.is_some(),
            refused: *refused,
        },
        Want::Fail(why) => PackedWant::Fail(*why),
    }
}

/// The values of a want.
pub(crate) fn want_values(want: &Want) -> &[Value]
    ensures values { result.now ≡ want_values want.now }
    ensures few { length result.now ≤ 16 }
{
    match want {
        Want::Post(request) => request.actuals.as_slice(),
        Want::Ask { request, passes: _ } => request.actuals.as_slice(),
        Want::Create {
            class: _,
            procedure: _,
            actuals,
            passes: _,
        } => actuals.as_slice(),
        Want::Done {
            reply: Some(value),
            released: _,
            refused: _,
        } => slice::from_ref(value),
        _ => &[],
    }
}

impl PackedWant {
    /// How many values there are.
    pub(crate) fn values(&self) -> usize
        ensures count { result ≡ values_in_want self.now }
        ensures few { result < 256 }
    {
        match self {
            PackedWant::Post(request) => request.actuals as usize,
            PackedWant::Ask { request, passes: _ } => request.actuals as usize,
            PackedWant::Create {
                class: _,
                procedure: _,
                actuals,
                passes: _,
            } => *actuals as usize,
            PackedWant::Done {
                released: _,
                has_reply: true,
                refused: _,
            } => 1,
            _ => 0,
        }
    }

    /// The want that has the first of these values.
    pub(crate) fn unpack(&self, values: &[Value]) -> Want
        requires few { values_in_want self.now ≤ 16 }
        requires there { values_in_want self.now ≤ length values.now }
        ensures { result ≡ unpacked_want self.now values.now }
    {
        match self {
            PackedWant::Continue => Want::Continue,
            PackedWant::Reserve(handlers) => Want::Reserve(copy_handlers(handlers)),
            PackedWant::Post(request) => Want::Post(unpack_request(*request, values)),
            PackedWant::Ask { request, passes } => Want::Ask {
                request: unpack_request(*request, values),
                passes: *passes,
            },
            PackedWant::Create {
                class,
                procedure,
                actuals,
                passes,
            } => Want::Create {
                class: *class,
                procedure: *procedure,
                actuals: first_actuals(values, *actuals),
                passes: *passes,
            },
            PackedWant::Release(handlers) => Want::Release(copy_handlers(handlers)),
            PackedWant::Wait(handlers) => Want::Wait(copy_handlers(handlers)),
            PackedWant::Done {
                released,
                has_reply,
                refused,
            } => Want::Done {
                reply: first_value(values, *has_reply),
                released: copy_handlers(released),
                refused: *refused,
            },
            PackedWant::Fail(why) => Want::Fail(*why),
        }
    }
}
