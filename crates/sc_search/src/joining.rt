//! Turns that may follow the one before them at once.
ghost use Rattle.std.specs.Prelude.{◌≡◌, IfOk, IfSome, Some, false, map, slice_get, true};
ghost use Rattle.std.specs.List.{list_any};
ghost use Rattle.std.specs.Option.{option_map};
ghost use Rattle.sc_request.specs.Cores.{center_of};
ghost use Rattle.sc_lockpass.specs.Rights.{is_handler};
ghost use Rattle.sc_request.specs.Logs.{pick_for};
ghost use Rattle.sc_request.specs.Settling.{are_handlers, may_post_to_all};
ghost use Rattle.sc_handler.specs.Changes.{first_of};
ghost use Rattle.sc_handler.specs.Fits.{is_request_of};
ghost use Rattle.sc_handler.specs.Handlers.{has_frames};
ghost use Rattle.sc_handler.specs.InMemory.{posting_of, service_of};
ghost use Rattle.sc_world.specs.Views.{world_in};
ghost use Rattle.sc_search.specs.Joined.{FollowsAtOnce, WantsToFollow, asks_free, ends_plainly, goes_at_once, is_free, is_next_plain, is_ready, is_uncontested, is_unlent_of, may_follow, takes_at_once};

use sc_handler::{Handler, HandlerStage, Posting, is_request_of};
use sc_lockpass::HandlerNumber;
use sc_model::Status;
use sc_play::Region;
use sc_region::{Job, Request, Want};
use sc_request::Core;
use sc_world::Configuration;
use std::alloc::{AllocError, Global};

/// The job of a handler, if its turn under it may follow at once.
pub(crate) fn ready_job(core: &Core, handler: HandlerNumber) -> Option<Job>
    ensures due { IfSome result (λ job. pick_for handler (center_of core.now) ≡ Some job) }
    ensures ready { IfSome result (λ job. is_ready handler job (center_of core.now).state ≡ true) }
{
    let job = core.pick_for(handler)?;
    if is_ready(core, handler, &job) {
        Some(job)
    } else {
        None
    }
}

/// Whether under this job a handler goes on with its routine, or takes a request of its queue and is uncontested.
fn is_ready(core: &Core, handler: HandlerNumber, job: &Job) -> bool
    ensures { result ≡ true → is_ready handler job.now (center_of core.now).state ≡ true }
{
    match job {
        Job::Go => true,
        Job::Take(_) => is_idle(core, handler) && is_uncontested(core, handler),
        _ => false,
    }
}

/// Whether a handler has no frames.
fn is_idle(core: &Core, handler: HandlerNumber) -> bool
    ensures { result ≡ true → has_frames ((center_of core.now).state.handlers handler).stage ≡ false }
{
    match core.kept_at(handler) {
        Some(kept) => matches!(kept.stage, HandlerStage::Idle),
        None => false,
    }
}

/// Whether no other handler may post to a handler before that takes a request: none has the right to, or the one that has
/// it waits for the last of the queue.
fn is_uncontested(core: &Core, handler: HandlerNumber) -> bool
    ensures { result ≡ true → is_uncontested handler (center_of core.now).state ≡ true }
{
    match core.holder(handler) {
        Some(holder) => holder == handler || waits_at(core, holder, handler),
        None => true,
    }
}

/// Whether a handler waits for the last request in the queue of another one, with which it passed nothing.
fn waits_at(core: &Core, poster: HandlerNumber, handler: HandlerNumber) -> bool
    ensures { result ≡ true → list_any (is_unlent_of poster) ((center_of core.now).state.handlers handler).queue ≡ true }
{
    match core.kept_at(handler) {
        Some(kept) => waits_in(poster, kept),
        None => false,
    }
}

fn waits_in(poster: HandlerNumber, kept: &Handler) -> bool
    ensures { result ≡ true → list_any (is_unlent_of poster) (map posting_of kept.now.queue) ≡ true }
{
    match kept.queue.back() {
        Some(posting) => is_unlent_of(poster, posting),
        None => false,
    }
}

/// Whether a handler waits for this request, with which it passed nothing.
fn is_unlent_of(poster: HandlerNumber, posting: &Posting) -> bool
    ensures { result ≡ is_unlent_of poster (posting_of posting.now) }
{
    posting.request.is_waited()
        && posting.request.poster() == Some(poster)
        && !posting.passed.is_some()
}

/// Whether the next turn of a handler under its job, which is ready, may follow at once.
///
/// # Errors
/// Memory ran out.
pub(crate) fn follows_at_once(
    alloc: Global,
    world: &Configuration<'_>,
    handler: HandlerNumber,
    job: &Job,
) -> Result<bool, AllocError>
    requires due { pick_for handler (world_in world.now).center ≡ Some job.now }
    requires ready { is_ready handler job.now (world_in world.now).center.state ≡ true }
    ensures { IfOk result (λ follows. follows ≡ true → FollowsAtOnce handler (world_in world.now)) }
{
    match world.region(handler) {
        Some(region) => wants_to_follow(alloc, world.core(), handler, job, region),
        None => Ok(false),
    }
}

/// Whether the turn of a handler under this job, with this region, may follow at once. A copy of the region makes it.
///
/// # Errors
/// Memory ran out.
fn wants_to_follow(
    alloc: Global,
    core: &Core,
    handler: HandlerNumber,
    job: &Job,
    region: &Region<'_>,
) -> Result<bool, AllocError>
    ensures { IfOk result (λ follows. follows ≡ true → WantsToFollow handler job.now (center_of core.now).state region.now) }
{
    let mut copy = region.copy(alloc)?;
    let outcome = copy.play(job, 1)?;
    Ok(may_follow(core, handler, job, &outcome.want))
}

/// Whether a turn under this job that wants this may follow at once.
fn may_follow(core: &Core, handler: HandlerNumber, job: &Job, asked: &Want) -> bool
    ensures { result ≡ true → may_follow handler job.now asked.now (center_of core.now).state ≡ true }
{
    match job {
        Job::Go => goes_at_once(core, handler, asked),
        Job::Take(_) => takes_at_once(core, handler, asked),
        _ => false,
    }
}

/// Whether a turn that takes a request wants nothing of others, or has served it and gives nothing back.
fn takes_at_once(core: &Core, handler: HandlerNumber, asked: &Want) -> bool
    ensures { result ≡ true → takes_at_once handler asked.now (center_of core.now).state ≡ true }
{
    match asked {
        Want::Continue => true,
        Want::Reserve(handlers) => are_there(core, handlers.as_slice()),
        Want::Done {
            reply: _,
            released,
            refused: false,
        } => released.is_empty() && is_next_plain(core, handler),
        _ => false,
    }
}

/// Whether nothing was passed with the first request in the queue of a handler.
fn is_next_plain(core: &Core, handler: HandlerNumber) -> bool
    ensures { result ≡ is_next_plain ((center_of core.now).state.handlers handler).queue }
{
    match next_request(core, handler) {
        Some(posting) => !posting.passed.is_some(),
        None => false,
    }
}

/// The first request in the queue of a handler, if there is one.
fn next_request(core: &Core, handler: HandlerNumber) -> Option<&Posting>
    ensures { option_map (λ posting. posting_of posting.now) result ≡ slice_get ((center_of core.now).state.handlers handler).queue 0 }
{
    core.kept_at(handler)?.queue.front()
}

/// Whether a turn of a routine that goes on asks nothing of others but a free handler, releases what is its handler's own, or
/// ends a request plainly, if it wants this.
fn goes_at_once(core: &Core, handler: HandlerNumber, asked: &Want) -> bool
    ensures { result ≡ true → goes_at_once handler asked.now (center_of core.now).state ≡ true }
{
    match asked {
        Want::Continue => true,
        Want::Reserve(handlers) => are_there(core, handlers.as_slice()),
        Want::Post(request) => !request.is_waited && asks_free(core, handler, request),
        Want::Ask {
            request,
            passes: false,
        } => request.is_waited && asks_free(core, handler, request),
        Want::Release(handlers) => are_own(core, handler, handlers.as_slice()),
        Want::Wait(handlers) => are_own(core, handler, handlers.as_slice()),
        Want::Done {
            reply: _,
            released,
            refused,
        } => are_own(core, handler, released.as_slice()) && ends_plainly(core, handler, *refused),
        _ => false,
    }
}

/// Whether nothing was passed with the request that a handler took last, and if it ends refused, its poster waits.
fn ends_plainly(core: &Core, handler: HandlerNumber, refused: bool) -> bool
    ensures { result ≡ true → ends_plainly refused ((center_of core.now).state.handlers handler).services ≡ true }
{
    match first_service(core, handler) {
        Some(posting) => !posting.passed.is_some() && (!refused || posting.request.is_waited()),
        None => false,
    }
}

/// The request that a handler took last, if it serves one.
fn first_service(core: &Core, handler: HandlerNumber) -> Option<&Posting>
    ensures { option_map (λ posting. service_of posting.now) result ≡ first_of ((center_of core.now).state.handlers handler).services }
{
    core.kept_at(handler)?.services.front()
}

/// Whether there are all of these handlers.
fn are_there(core: &Core, handlers: &[HandlerNumber]) -> bool
    ensures { result ≡ are_handlers handlers.now (center_of core.now).state }
{
    handlers
        .iter()
        .all(|handler| (*handler as usize) < core.handler_count())
}

/// Whether a request of a handler goes to a free one, to which its poster alone may post.
fn asks_free(core: &Core, poster: HandlerNumber, request: &Request) -> bool
    ensures { result ≡ true → (is_request_of poster request.now ≡ true) × (asks_free poster request.now.target.handler (center_of core.now).state ≡ true) }
{
    let target = request.target.handler;
    is_request_of(poster, request) && is_own(core, poster, target) && is_free(core, target)
}

/// Whether a handler has no frames and no requests, and hasn't failed.
fn is_free(core: &Core, handler: HandlerNumber) -> bool
    ensures { result ≡ true → is_free handler (center_of core.now).state ≡ true }
{
    match core.status(handler) {
        Some(Status::Free) => core.queue_len(handler) == 0,
        _ => false,
    }
}

/// Whether a handler may post to all of these.
fn are_own(core: &Core, holder: HandlerNumber, handlers: &[HandlerNumber]) -> bool
    ensures { result ≡ may_post_to_all holder handlers.now (center_of core.now).state }
{
    handlers
        .iter()
        .all(|handler| is_own(core, holder, *handler))
}

/// Whether a handler may post to another one.
fn is_own(core: &Core, holder: HandlerNumber, handler: HandlerNumber) -> bool
    ensures { result ≡ is_handler holder ((center_of core.now).state.rights.queue handler) }
{
    match core.holder(handler) {
        Some(own) => own == holder,
        None => false,
    }
}
