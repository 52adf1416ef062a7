//! Laws of who waits for whom, and of what a turn leaves of other handlers, each the contract of a function that does
//! nothing.
ghost use Rattle.sc_machine_laws.specs.RequestLaws.{
  AnswersCome,
  BeyondIsUnused,
  CallbacksMeetWaiters,
  CalledBackWaits,
  CountGrows,
  EndsTheOne,
  IdleHasNoTop,
  NewIsIdle,
  NoCallback,
  OthersStay,
  OwnQueueShrinks,
  RightsStay,
  RunningIsClear,
  StandsOnce,
};

/// In each state that is reached, no handler may push on the waiting stack of one that has no frames and hasn't
/// failed.
pub fn idle_has_no_top()
    ensures { IdleHasNoTop }
{}

/// Where another one may push on a handler's waiting stack, and isn't waiting for it, that handler's topmost frame
/// awaits an answer, and neither a callback nor a reply has come.
pub fn called_back_waits()
    ensures { CalledBackWaits }
{}

/// Only a handler whose topmost frame awaits an answer has a callback.
pub fn callbacks_meet_waiters()
    ensures { CallbacksMeetWaiters }
{}

/// A handler whose topmost frame awaits no answer has neither a reply nor a callback.
pub fn running_is_clear()
    ensures { RunningIsClear }
{}

/// A handler that waits for a request with which it lent nothing waits with its topmost frame, and neither a callback
/// nor a reply has come.
pub fn no_callback()
    ensures { NoCallback }
{}

/// No other request that it waits for may end meanwhile: only this one, at its target.
pub fn ends_the_one()
    ensures { EndsTheOne }
{}

/// The request is in one place only, and it is the only one with which its poster lent nothing.
pub fn stands_once()
    ensures { StandsOnce }
{}

/// A handler that doesn't exist yet has neither frames nor requests, and no handler has a right over it.
pub fn beyond_is_unused()
    ensures { BeyondIsUnused }
{}

/// A turn takes no right from another handler, but perhaps that to push on the waiting stack of the handler of the
/// turn.
pub fn rights_stay()
    ensures { RightsStay }
{}

/// A turn leaves the objects, the frames and the failure of another handler as they are. It may add a request there:
/// at the queue's end if its handler may post, as the callback if it may push.
pub fn others_stay()
    ensures { OthersStay }
{}

/// The queue of the turn's handler stays, or gives its first request if nothing runs, or is lost with its handler.
pub fn own_queue_shrinks()
    ensures { OwnQueueShrinks }
{}

/// A handler that comes with a turn of another one has no frames.
pub fn new_is_idle()
    ensures { NewIsIdle }
{}

/// No turn takes a handler away.
pub fn count_grows()
    ensures { CountGrows }
{}

/// What another handler is answered in a turn is that the handler of the turn has failed, or the outcome of a request
/// that was waited for and ended there: its routine's result, a refusal, the attribute asked for, or that the object
/// is made.
pub fn answers_come()
    ensures { AnswersCome }
{}
