//! Hashes by which the log finds what it keeps once. Equal parts have equal hashes, and no contract says more of
//! them.

use crate::hashing::{errand_word, reference_word, value_word};
use arrayvec::ArrayVec;
use sc_lockpass::HandlerNumber;
use sc_region::{Job, Request, Value, Want};

/// The mark of a settlement, whatever its values are.
pub(crate) fn settlement_mark(handler: HandlerNumber, job: &Job, turns: u32, want: &Want) -> u64 {
    let whose = (handler as u64) << 32 | turns as u64;
    spread(spread(job_word(job) ^ whose) ^ want_word(want))
}

/// The mark of values.
pub(crate) fn values_mark(values: &[Value], others: &[Value]) -> u64 {
    let mut mark = 0;
    for value in values {
        mark = spread(mark ^ value_word(*value));
    }
    for value in others {
        mark = spread(mark ^ value_word(*value));
    }
    mark
}

fn job_word(job: &Job) -> u64 {
    match job {
        Job::Take(request) => request_word(request),
        Job::Reply(value) => 2 << 48 | value.is_some() as u64,
        Job::Failed => 3 << 48,
        Job::Refused => 4 << 48,
        Job::Granted(handlers) => 5 << 48 | handlers_word(handlers),
        Job::Made(made) => 6 << 48 | *made as u64,
        Job::Go => 7 << 48,
    }
}

fn want_word(want: &Want) -> u64 {
    match want {
        Want::Continue => 1,
        Want::Reserve(handlers) => 2 ^ handlers_word(handlers),
        Want::Post(request) => 3 ^ request_word(request),
        Want::Ask { request, .. } => 4 ^ request_word(request),
        Want::Create { class, .. } => 5 | (*class as u64) << 8,
        Want::Release(handlers) => 6 ^ handlers_word(handlers),
        Want::Wait(handlers) => 7 ^ handlers_word(handlers),
        Want::Done { released, .. } => 8 ^ handlers_word(released),
        Want::Fail(_) => 9,
    }
}

fn request_word(request: &Request) -> u64 {
    spread(reference_word(request.target)) ^ errand_word(request.errand)
}

fn handlers_word(handlers: &ArrayVec<HandlerNumber, 16>) -> u64 {
    let mut word = 0;
    for handler in handlers.as_slice() {
        word = spread(word ^ *handler as u64);
    }
    word
}

/// The number with its bits spread over the low ones.
fn spread(word: u64) -> u64 {
    let spread = word.wrapping_mul(0x9e37_79b9_7f4a_7c15);
    spread ^ spread >> 32
}
