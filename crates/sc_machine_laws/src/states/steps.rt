//! Laws of rights, requests and chains over the steps of a turn, each the contract of a function that does nothing.
ghost use Rattle.sc_machine_laws.specs.states.Laws.{CallbackFirst, ChainHolds, FailureTells, HeldWhileItRuns, KeptForRequest, ListedReturns, OneAnswer, PostedUnderRight, ReachedAreLawful, ReservedWhileItRuns, StepsAreLawful, Told};

/// Each step keeps what holds of rights, waits and requests.
pub fn steps_are_lawful()
    ensures { StepsAreLawful }
{}

/// So it holds in every state that steps lead to from the opening.
pub fn reached_states_are_lawful()
    ensures { ReachedAreLawful }
{}

/// Posted under a right: a request that is added to a handler was posted by the handler that it names, which then may
/// post to its target or push on the target's waiting stack.
pub fn posted_under_right()
    ensures { PostedUnderRight }
{}

/// Kept for the request: from its post to its end its target isn't reserved.
pub fn kept_for_request()
    ensures { KeptForRequest }
{}

/// The chain: while a request is waited for and none of its chain has failed, one of the chain may post to its target
/// or push on the target's waiting stack.
pub fn chain_holds()
    ensures { ChainHolds }
{}

/// Held while it runs: a handler that goes on holds what its topmost routine and the open blocks of that routine need.
pub fn held_while_it_runs()
    ensures { HeldWhileItRuns }
{}

/// It may post to all that they newly reserved.
pub fn reserved_while_it_runs()
    ensures { ReservedWhileItRuns }
{}

/// A handler learns of a failure if it has an open wait for one that has failed, and only if it waits for one.
pub fn told()
    ensures { Told }
{}

/// A handler's failure reaches those who wait for it, and no other handler.
pub fn failure_tells()
    ensures { FailureTells }
{}

/// One answer: no reply meets a reply that is already there.
pub fn one_answer()
    ensures { OneAnswer }
{}

/// No handler has both a callback and a reply.
pub fn callback_first()
    ensures { CallbackFirst }
{}

/// With the end of a request exactly the rights that were listed with it return, each to its holder before.
pub fn listed_returns()
    ensures { ListedReturns }
{}
