//! Hashes of handlers.

use crate::handler::{Answer, Handler, HandlerStage, Posting};
use crate::posted_request::PostedRequest;
use sc_lockpass::HandlerNumber;
use sc_region::{Errand, NameNumber, Reference, Value};
use std::hash::{FoldHasher, Hasher};

/// Adds what is kept of a handler to a hash. No contract says which number that gives. It takes time for each request
/// in the handler's queue.
pub fn write_handler(hasher: &mut FoldHasher, handler: &Handler) {
    hasher.write_u64(stage_word(handler.stage));
    for reserved in handler.entry.as_slice() {
        hasher.write_u16(*reserved);
    }
    hasher.write_u64(answer_word(handler.answer));
    hasher.write_u64(handler.refused);
    hasher.write_u8(handler.failure.is_some() as u8);
    for posting in handler.services.iter() {
        write_posting(hasher, posting);
    }
    for posting in handler.queue.iter() {
        write_posting(hasher, posting);
    }
    for posting in handler.callback.iter() {
        write_posting(hasher, posting);
    }
}

fn write_posting(hasher: &mut FoldHasher, posting: &Posting) {
    hasher.write_u64(stage_word(posting.over));
    write_request(hasher, &posting.request);
}

fn write_request(hasher: &mut FoldHasher, request: &PostedRequest) {
    hasher.write_u64(errand_word(request.errand));
    hasher.write_u64(word_of(request.poster) | (request.is_waited as u64) << 32);
    hasher.write_u64(reference_word(request.target));
    for actual in request.actuals() {
        hasher.write_u64(value_word(*actual));
    }
}

// ---- words

/// A number for who holds a handler, or for whom something is: it differs for each, and for none.
pub fn word_of(handler: Option<HandlerNumber>) -> u64 {
    match handler {
        Some(handler) => 1 << 16 | handler as u64,
        None => 0,
    }
}

fn stage_word(stage: HandlerStage) -> u64 {
    match stage {
        HandlerStage::Idle => 0,
        HandlerStage::Runs => 1,
        HandlerStage::HasMade(made) => 2 | (made as u64) << 8,
        HandlerStage::Reserves => 3,
        HandlerStage::Awaits {
            supplier,
            is_creation,
        } => 4 | is_creation as u64 | (supplier as u64) << 8,
    }
}

fn answer_word(answer: Option<Answer>) -> u64 {
    match answer {
        None => 0,
        Some(Answer::Replied(None)) => 1,
        Some(Answer::Replied(Some(value))) => value_word(value).rotate_left(8),
        Some(Answer::SupplierFailed) => 2,
        Some(Answer::Refused) => 3,
    }
}

pub(crate) fn errand_word(errand: Errand) -> u64 {
    match errand {
        Errand::Calls(feature) => feature as u64,
        Errand::Makes(procedure) => 1 << 63 | procedure.unwrap_or(NameNumber::MAX) as u64,
    }
}

pub(crate) fn value_word(value: Value) -> u64 {
    match value {
        Value::Integer(integer) => integer.cast_unsigned(),
        Value::Boolean(boolean) => 1 << 62 | boolean as u64,
        Value::Void => 3 << 62,
        Value::Attached(reference) => 1 << 63 | reference_word(reference),
    }
}

pub(crate) fn reference_word(reference: Reference) -> u64 {
    reference.number as u64 | (reference.handler as u64) << 32 | (reference.class as u64) << 48
}
