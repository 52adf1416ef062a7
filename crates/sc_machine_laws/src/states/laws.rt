//! The headline's part on rights, requests and chains: laws of every run of the machine, with any number of handlers,
//! each the contract of a function that does nothing.
ghost use Rattle.sc_machine_laws.specs.states.Formals.{FormalsAreHeld, NamesAreHeld};
ghost use Rattle.sc_machine_laws.specs.states.Headline.{CallbacksComeFirst, ChainsHold, HasTrails, InEachReached, OnlyWaitersAreTold, PostedUnderRight, QueuesAreInOrder, RepliesMeetNone, ReservedAreHeld, TargetsAreKept, WaitersAreTold};

/// Each state that is reached has trails of its rights, with all that `steps` says of them.
pub fn trails_stand_behind_states()
    ensures { InEachReached HasTrails }
{}

/// Posted under a right: a request that a turn adds to a handler was posted by the turn's handler, which then held
/// the other, or created it in this turn.
pub fn posted_under_right()
    ensures { PostedUnderRight }
{}

/// Taken in order: in a turn a queue stays, gives its first request to its own handler, takes a request of the turn's
/// handler after its last, or is lost with its handler. So each request is taken at most once, in the order of its
/// queue.
pub fn queues_are_in_order()
    ensures { QueuesAreInOrder }
{}

/// Kept for the request: from its post to its end its target may not be reserved.
pub fn targets_are_kept()
    ensures { InEachReached TargetsAreKept }
{}

/// The chain: while a handler waits for another and none of its chain has failed, one of the chain may post to that
/// other or push on its waiting stack.
pub fn chains_hold()
    ensures { InEachReached ChainsHold }
{}

/// Held while it runs: a handler whose topmost frame isn't between an ask and its answer may post to all that the
/// frame's entry and its open blocks newly reserved.
pub fn reserved_are_held()
    ensures { InEachReached ReservedAreHeld }
{}

/// It holds the handler of each attached separate formal of that frame, once the frame is past its reserve step.
pub fn formals_are_held()
    ensures { InEachReached FormalsAreHeld }
{}

/// And it holds the handler of each name of that frame's open separate blocks, once the block is past its reserve step.
pub fn block_names_are_held()
    ensures { InEachReached NamesAreHeld }
{}

/// A handler that awaits an answer of one that has failed learns of the failure.
pub fn waiters_are_told()
    ensures { InEachReached WaitersAreTold }
{}

/// No other handler does: one that learns of a failure waits for a handler that has failed.
pub fn only_waiters_are_told()
    ensures { InEachReached OnlyWaitersAreTold }
{}

/// One answer: where a request that is waited for may end, its poster has no reply.
pub fn replies_meet_none()
    ensures { InEachReached RepliesMeetNone }
{}

/// No handler has both a callback and a reply.
pub fn callbacks_come_first()
    ensures { InEachReached CallbacksComeFirst }
{}
