//! Whether what a handler's turns came to fits the job that they were made under.
ghost use Rattle.std.specs.Prelude.{◌≡◌, ℕ, List};
ghost use Rattle.sc_lockpass.specs.declared.wait_conditions.mark.Marked.{Marked};
ghost use Rattle.sc_handler.specs.Fits.{fits_turns, fits_first, may_take, may_take_answer, goes_on, fails_by_supplier, fails_by_precondition, is_call, is_request_of};
ghost use Rattle.sc_handler.specs.InMemory.{stage_of};
ghost use Rattle.sc_handler.specs.Kinds.{of_kind};

use crate::handler::HandlerStage;
use crate::job_kind::JobKind;
use sc_lockpass::HandlerNumber;
use sc_model::Cause;
use sc_region::{Errand, Request, Want};

/// Whether the last of this number of turns under the job may want this, after the handler had this stage.
pub fn fits_turns(turns: u32, stage: HandlerStage, kind: &JobKind, want: &Want) -> bool
    ensures { (entry : List ℕ) (mark : List Marked) → result ≡ fits_turns turns (stage_of entry mark stage) (of_kind kind.now) want.now }
{
    match turns {
        0 => false,
        1 => fits_first(stage, kind, want),
        _ => goes_on(kind),
    }
}

/// Whether the first turn under the job may ask this, where the handler stood so.
fn fits_first(stage: HandlerStage, kind: &JobKind, want: &Want) -> bool
    ensures { (entry : List ℕ) (mark : List Marked) → result ≡ fits_first (stage_of entry mark stage) (of_kind kind.now) want.now }
{
    match kind {
        JobKind::Take => may_take(want),
        JobKind::Reply | JobKind::Granted(_) => may_take_answer(want),
        JobKind::Failed => fails_by_supplier(want),
        JobKind::Refused => fails_by_precondition(want),
        JobKind::Made => match stage {
            HandlerStage::Awaits {
                supplier: _,
                is_creation: _,
            } => may_take_answer(want),
            _ => true,
        },
        JobKind::Go => true,
    }
}

/// Whether the turn that takes a request may ask this: it may begin a routine, or be done with the request.
fn may_take(want: &Want) -> bool
    ensures { result ≡ may_take want.now }
{
    match want {
        Want::Continue | Want::Reserve(_) | Want::Fail(_) => true,
        Want::Done {
            reply: _,
            released,
            refused,
        } => !*refused && released.is_empty(),
        _ => false,
    }
}

/// Whether the turn that takes an answer, or reserves, may ask this: it does no more.
fn may_take_answer(want: &Want) -> bool
    ensures { result ≡ may_take_answer want.now }
{
    match want {
        Want::Continue | Want::Fail(_) => true,
        _ => false,
    }
}

fn fails_by_supplier(want: &Want) -> bool
    ensures { result ≡ fails_by_supplier want.now }
{
    match want {
        Want::Fail(Cause::SupplierFailed) => true,
        _ => false,
    }
}

fn fails_by_precondition(want: &Want) -> bool
    ensures { result ≡ fails_by_precondition want.now }
{
    match want {
        Want::Fail(Cause::Precondition) => true,
        _ => false,
    }
}

/// Whether a further turn may come under the job.
fn goes_on(kind: &JobKind) -> bool
    ensures { result ≡ goes_on (of_kind kind.now) }
{
    match kind {
        JobKind::Failed | JobKind::Refused => false,
        _ => true,
    }
}

/// Whether this is a call on an object of another handler, in the handler's own name.
pub fn is_request_of(handler: HandlerNumber, request: &Request) -> bool
    ensures { result ≡ is_request_of handler request.now }
{
    match request.poster {
        Some(poster) => {
            poster == handler && is_call(request.errand) && request.target.handler != handler
        }
        None => false,
    }
}

fn is_call(errand: Errand) -> bool
    ensures { result ≡ is_call errand }
{
    match errand {
        Errand::Calls(_) => true,
        Errand::Makes(_) => false,
    }
}
