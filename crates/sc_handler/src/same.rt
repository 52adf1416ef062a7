//! Whether two handlers are equal, and whether they are read alike.
ghost use Rattle.std.specs.Prelude.{◌≡◌, ◌↔◌, IsTrue, map, slice_index};
ghost use Rattle.std.specs.Option.{option_map};
ghost use Rattle.sc_lockpass.specs.Tables.{passed_of};
ghost use Rattle.sc_handler.specs.Canonical.{canon_handler, canon_stage};
ghost use Rattle.sc_handler.specs.InMemory.{first_posted, handler_of, posting_of, service_of, stage_of};
ghost use Rattle.sc_handler.specs.Same.{AreAskedAlike, StandAlike};

use crate::agreement::same_errand;
use crate::handler::{Handler, HandlerStage, Posting};
use crate::passing::Passing;
use crate::posted_request::PostedRequest;
use arrayvec::ArrayVec;
use sc_lockpass::HandlerNumber;
use std::collections::LinkedList;

/// Whether two handlers are equal, apart from the counts of their sessions and the jobs that they are out with.
pub fn same_handler(a: &Handler, b: &Handler) -> bool
    ensures { IsTrue result ↔ handler_of a.now ≡ handler_of b.now }
{
    same_standing(a, b) && same_requests(a, b)
}

/// Whether two handlers are read alike, each by the counts of the sessions in its core: they are equal but for the
/// counts in their marks, and if one may be tried again, so may the other.
pub fn read_alike(a: &Handler, sessions: &[u64], b: &Handler, their_sessions: &[u64]) -> bool
    ensures { IsTrue result ↔ canon_handler (slice_index sessions.now) (handler_of a.now) ≡ canon_handler (slice_index their_sessions.now) (handler_of b.now) }
{
    read_standing_alike(a, sessions, b, their_sessions) && same_requests(a, b)
}

/// Whether two handlers have stages that are read alike and equal counts of refusals, whatever they serve and whatever
/// is in their queues.
fn read_standing_alike(a: &Handler, sessions: &[u64], b: &Handler, their_sessions: &[u64]) -> bool
    ensures { IsTrue result
        ↔ StandAlike (canon_handler (slice_index sessions.now) (handler_of a.now)) (canon_handler (slice_index their_sessions.now) (handler_of b.now)) }
{
    read_stage_alike(a, sessions, b, their_sessions)
        && same_handlers(&a.entry, &b.entry)
        && a.answer == b.answer
        && a.failure == b.failure
        && a.refused == b.refused
}

/// Whether the stages of two handlers are read alike. An entry and its mark count only if they are to be reserved.
fn read_stage_alike(a: &Handler, sessions: &[u64], b: &Handler, their_sessions: &[u64]) -> bool
    ensures { IsTrue result
        ↔ canon_stage (slice_index sessions.now) (stage_of a.now.entry.items a.now.mark a.now.stage)
        ≡ canon_stage (slice_index their_sessions.now) (stage_of b.now.entry.items b.now.mark b.now.stage) }
{
    match (a.stage, b.stage) {
        (HandlerStage::Reserves, HandlerStage::Reserves) => {
            same_handlers(&a.entry, &b.entry)
                && a.mark.reads_alike(sessions, &b.mark, their_sessions)
        }
        (stage, its_stage) => stage == its_stage,
    }
}

/// Whether two handlers have equal stages and counts, whatever they serve and whatever is in their queues.
fn same_standing(a: &Handler, b: &Handler) -> bool
    ensures { IsTrue result ↔ StandAlike (handler_of a.now) (handler_of b.now) }
{
    same_stage(a, b)
        && same_handlers(&a.entry, &b.entry)
        && a.answer == b.answer
        && a.failure == b.failure
        && a.refused == b.refused
}

/// Whether two handlers serve equal requests and have equal queues.
fn same_requests(a: &Handler, b: &Handler) -> bool
    ensures { IsTrue result ↔ AreAskedAlike (handler_of a.now) (handler_of b.now) }
{
    same_services(&a.services, &b.services)
        && same_postings(&a.queue, &b.queue)
        && same_callback(&a.callback, &b.callback)
}

/// Whether two handlers have equal stages. An entry and its mark count only if they are to be reserved.
fn same_stage(a: &Handler, b: &Handler) -> bool
    ensures { IsTrue result ↔ stage_of a.now.entry.items a.now.mark a.now.stage ≡ stage_of b.now.entry.items b.now.mark b.now.stage }
{
    match (a.stage, b.stage) {
        (HandlerStage::Reserves, HandlerStage::Reserves) => {
            same_handlers(&a.entry, &b.entry) && a.mark.is_same(&b.mark)
        }
        (stage, its_stage) => stage == its_stage,
    }
}

fn same_handlers(a: &ArrayVec<HandlerNumber, 16>, b: &ArrayVec<HandlerNumber, 16>) -> bool
    ensures { IsTrue result ↔ a.now.items ≡ b.now.items }
{
    a.as_slice() == b.as_slice()
}

/// Whether equal requests are served, one after another, each over an equal stage.
fn same_services(a: &LinkedList<Posting>, b: &LinkedList<Posting>) -> bool
    ensures { IsTrue result ↔ map service_of a.now ≡ map service_of b.now }
{
    let (mut left, mut right) = (a.iter(), b.iter());
    while let Some(posting) = left.next() {
        let Some(its) = right.next() else {
            return false;
        };
        if !same_service(posting, its) {
            return false;
        }
    }
    right.next().is_none()
}

fn same_service(a: &Posting, b: &Posting) -> bool
    ensures { IsTrue result ↔ service_of a.now ≡ service_of b.now }
{
    a.over == b.over && same_posting(a, b)
}

/// Whether the requests are equal, one after another.
fn same_postings(a: &LinkedList<Posting>, b: &LinkedList<Posting>) -> bool
    ensures { IsTrue result ↔ map posting_of a.now ≡ map posting_of b.now }
{
    let (mut left, mut right) = (a.iter(), b.iter());
    while let Some(posting) = left.next() {
        let Some(its) = right.next() else {
            return false;
        };
        if !same_posting(posting, its) {
            return false;
        }
    }
    right.next().is_none()
}

/// Whether the first requests are equal, or there is none.
fn same_callback(a: &LinkedList<Posting>, b: &LinkedList<Posting>) -> bool
    ensures { IsTrue result ↔ first_posted a.now ≡ first_posted b.now }
{
    match (a.front(), b.front()) {
        (Some(posting), Some(its)) => same_posting(posting, its),
        (None, None) => true,
        _ => false,
    }
}

/// Whether two requests are equal, with the rights that were passed with them.
fn same_posting(a: &Posting, b: &Posting) -> bool
    ensures { IsTrue result ↔ posting_of a.now ≡ posting_of b.now }
{
    same_request(&a.request, &b.request) && same_passed(&a.passed, &b.passed)
}

fn same_passed(a: &Passing, b: &Passing) -> bool
    ensures { IsTrue result ↔ option_map passed_of a.now ≡ option_map passed_of b.now }
{
    match (a.get(), b.get()) {
        (Some(passed), Some(its)) => passed.is_same(its),
        (None, None) => true,
        _ => false,
    }
}

fn same_request(a: &PostedRequest, b: &PostedRequest) -> bool
    ensures { IsTrue result ↔ a.now ≡ b.now }
{
    a.poster == b.poster
        && a.target == b.target
        && same_errand(a.errand, b.errand)
        && same_actuals(a, b)
        && a.is_waited == b.is_waited
}

fn same_actuals(a: &PostedRequest, b: &PostedRequest) -> bool
    ensures { IsTrue result ↔ a.now.actuals ≡ b.now.actuals }
{
    a.actuals() == b.actuals()
}
