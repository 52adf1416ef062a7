//! Whether what two logs have packed is equal, and whether it is a settlement's.
ghost use Rattle.std.specs.Prelude.{◌≡◌, ◌≤◌, ◌↔◌, IsTrue, length, take};
ghost use Rattle.sc_handler.specs.Packed.{packed_job, packed_of, packed_request, packed_want, unpacked, values_in};

use crate::packed::{PackedJob, PackedRequest, PackedSettlement, PackedWant};
use arrayvec::ArrayVec;
use sc_lockpass::HandlerNumber;
use sc_region::{Errand, Job, Request, Value, Want};

/// Whether two packed settlements are equal, each with the first of its values.
pub(crate) fn same_told(
    a: &PackedSettlement,
    values: &[Value],
    b: &PackedSettlement,
    its: &[Value],
) -> bool
    requires there { values_in a.now ≤ length values.now }
    requires its_there { values_in b.now ≤ length its.now }
    ensures { IsTrue result ↔ unpacked a.now values.now ≡ unpacked b.now its.now }
{
    same_packed(a, b) && same_first(values, a.values(), its, b.values())
}

/// Whether the first values of two lists are equal, up to these counts.
fn same_first(values: &[Value], count: usize, its: &[Value], its_count: usize) -> bool
    requires there { count ≤ length values.now }
    requires its_there { its_count ≤ length its.now }
    ensures { IsTrue result ↔ take count values.now ≡ take its_count its.now }
{
    same_values(&values[..count], &its[..its_count])
}

/// Whether two packed settlements are equal.
pub(crate) fn same_packed(a: &PackedSettlement, b: &PackedSettlement) -> bool
    ensures { IsTrue result ↔ a.now ≡ b.now }
{
    a.handler == b.handler
        && a.turns == b.turns
        && same_job(&a.job, &b.job)
        && same_want(&a.want, &b.want)
}

fn same_job(a: &PackedJob, b: &PackedJob) -> bool
    ensures { IsTrue result ↔ a.now ≡ b.now }
{
    match (a, b) {
        (PackedJob::Take(x), PackedJob::Take(y)) => same_request(x, y),
        (PackedJob::Reply { has_value: x }, PackedJob::Reply { has_value: y }) => x == y,
        (PackedJob::Failed, PackedJob::Failed) => true,
        (PackedJob::Refused, PackedJob::Refused) => true,
        (PackedJob::Granted(x), PackedJob::Granted(y)) => same_handlers(x, y),
        (PackedJob::Made(x), PackedJob::Made(y)) => x == y,
        (PackedJob::Go, PackedJob::Go) => true,
        _ => false,
    }
}

fn same_request(a: &PackedRequest, b: &PackedRequest) -> bool
    ensures { IsTrue result ↔ a.now ≡ b.now }
{
    a.poster == b.poster
        && a.target == b.target
        && same_errand(a.errand, b.errand)
        && a.actuals == b.actuals
        && a.is_waited == b.is_waited
}

pub(crate) fn same_errand(a: Errand, b: Errand) -> bool
    ensures { IsTrue result ↔ a ≡ b }
{
    match (a, b) {
        (Errand::Calls(x), Errand::Calls(y)) => x == y,
        (Errand::Makes(x), Errand::Makes(y)) => x == y,
        _ => false,
    }
}

fn same_want(a: &PackedWant, b: &PackedWant) -> bool
    ensures { IsTrue result ↔ a.now ≡ b.now }
{
    match (a, b) {
        (PackedWant::Continue, PackedWant::Continue) => true,
        (PackedWant::Reserve(x), PackedWant::Reserve(y)) => same_handlers(x, y),
        (PackedWant::Post(x), PackedWant::Post(y)) => same_request(x, y),
        (
            PackedWant::Ask {
                request: x,
                passes: p,
            },
            PackedWant::Ask {
                request: y,
                passes: q,
            },
        ) => same_request(x, y) && p == q,
        (
            PackedWant::Create {
                class: c,
                procedure: f,
                actuals: x,
                passes: p,
            },
            PackedWant::Create {
                class: d,
                procedure: g,
                actuals: y,
                passes: q,
            },
        ) => c == d && f == g && x == y && p == q,
        (PackedWant::Release(x), PackedWant::Release(y)) => same_handlers(x, y),
        (PackedWant::Wait(x), PackedWant::Wait(y)) => same_handlers(x, y),
        (
            PackedWant::Done {
                released: x,
                has_reply: v,
                refused: p,
            },
            PackedWant::Done {
                released: y,
                has_reply: w,
                refused: q,
            },
        ) => same_handlers(x, y) && v == w && p == q,
        (PackedWant::Fail(x), PackedWant::Fail(y)) => x == y,
        _ => false,
    }
}

fn same_handlers(a: &ArrayVec<HandlerNumber, 16>, b: &ArrayVec<HandlerNumber, 16>) -> bool
    ensures { IsTrue result ↔ a.now ≡ b.now }
{
    have_same(a, b)
}

/// Whether two arrays have equal handlers, one after another.
fn have_same(a: &ArrayVec<HandlerNumber, 16>, b: &ArrayVec<HandlerNumber, 16>) -> bool
    ensures { IsTrue result ↔ a.now.items ≡ b.now.items }
{
    a.as_slice() == b.as_slice()
}

/// Whether two slices have equal values, one after another. Empty ones take no call.
#[inline(always)]
pub(crate) fn same_values(a: &[Value], b: &[Value]) -> bool
    ensures { IsTrue result ↔ a.now ≡ b.now }
{
    if a.is_empty() {
        return b.is_empty();
    }
    have_same_values(a, b)
}

/// Whether two slices have equal values, one after another.
#[inline(never)]
fn have_same_values(a: &[Value], b: &[Value]) -> bool
    ensures { IsTrue result ↔ a.now ≡ b.now }
{
    a == b
}

// ---- what isn't packed yet

/// Whether this is how these turns of a handler are packed.
pub(crate) fn is_packed(
    packed: &PackedSettlement,
    handler: HandlerNumber,
    job: &Job,
    turns: u32,
    want: &Want,
) -> bool
    ensures { IsTrue result ↔ packed.now ≡ packed_of handler job.now turns want.now }
{
    packed.handler == handler
        && packed.turns == turns
        && is_packed_job(&packed.job, job)
        && is_packed_want(&packed.want, want)
}

fn is_packed_job(packed: &PackedJob, job: &Job) -> bool
    ensures { IsTrue result ↔ packed.now ≡ packed_job job.now }
{
    match (packed, job) {
        (PackedJob::Take(x), Job::Take(y)) => is_packed_request(x, y),
        (PackedJob::Reply { has_value }, Job::Reply(value)) => *has_value == value.is_some(),
        (PackedJob::Failed, Job::Failed) => true,
        (PackedJob::Refused, Job::Refused) => true,
        (PackedJob::Granted(x), Job::Granted(y)) => same_handlers(x, y),
        (PackedJob::Made(x), Job::Made(y)) => x == y,
        (PackedJob::Go, Job::Go) => true,
        _ => false,
    }
}

fn is_packed_request(packed: &PackedRequest, request: &Request) -> bool
    ensures { IsTrue result ↔ packed.now ≡ packed_request request.now }
{
    packed.poster == request.poster
        && packed.target == request.target
        && same_errand(packed.errand, request.errand)
        && packed.actuals as usize == request.actuals.as_slice().len()
        && packed.is_waited == request.is_waited
}

fn is_packed_want(packed: &PackedWant, want: &Want) -> bool
    ensures { IsTrue result ↔ packed.now ≡ packed_want want.now }
{
    match (packed, want) {
        (PackedWant::Continue, Want::Continue) => true,
        (PackedWant::Reserve(x), Want::Reserve(y)) => same_handlers(x, y),
        (PackedWant::Post(x), Want::Post(y)) => is_packed_request(x, y),
        (
            PackedWant::Ask {
                request: x,
                passes: p,
            },
            Want::Ask {
                request: y,
                passes: q,
            },
        ) => is_packed_request(x, y) && p == q,
        (
            PackedWant::Create {
                class: c,
                procedure: f,
                actuals: x,
                passes: p,
            },
            Want::Create {
                class: d,
                procedure: g,
                actuals: y,
                passes: q,
            },
        ) => c == d && f == g && *x as usize == y.as_slice().len() && p == q,
        (PackedWant::Release(x), Want::Release(y)) => same_handlers(x, y),
        (PackedWant::Wait(x), Want::Wait(y)) => same_handlers(x, y),
        (
            PackedWant::Done {
                released: x,
                has_reply: v,
                refused: p,
            },
            Want::Done {
                reply: w,
                released: y,
                refused: q,
            },
        ) => same_handlers(x, y) && *v == w.is_some() && p == q,
        (PackedWant::Fail(x), Want::Fail(y)) => x == y,
        _ => false,
    }
}
