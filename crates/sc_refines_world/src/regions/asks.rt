//! What calls, creations, separate blocks and requests that are taken ask of the core, and what such requests and the numbers
//! of handlers that were made make of a store, each the contract of a function that does nothing.
ghost use Rattle.sc_refines_world.specs.regions.Making.{CreatorsAreTold, MadeAreAnswers};
ghost use Rattle.sc_refines_world.specs.regions.Reserving.{BlocksAsk, CallsAsk, ObjectCreationsAsk};
ghost use Rattle.sc_refines_world.specs.regions.Taking.{RequestsAreTaken, TakenRequestsAsk};

use crate::regions::half_laws::programs_serve;

/// If a routine of the same handler is called, the turn wants its reserve step, if it has attached separate formals,
/// unless the store has failed.
pub fn calls_ask()
    ensures { CallsAsk }
{
    programs_serve();
}

/// If an object of the same handler is created, the turn wants the reserve step of its procedure, or nothing without
/// one, unless the store has failed.
pub fn object_creations_ask()
    ensures { ObjectCreationsAsk }
{
    programs_serve();
}

/// Where a separate block begins the turn asks for its reserve step, if its heads are there and slots for them, unless the
/// store has failed.
pub fn blocks_ask()
    ensures { BlocksAsk }
{
    programs_serve();
}

/// If a request is taken, the store represents what the job makes of the half, if its name has its number and the
/// reference to its target has that object's class, each object has as many attributes as its class, and no routine
/// runs on the next object.
pub fn requests_are_taken()
    ensures { RequestsAreTaken }
{}

/// Where a request is taken that asks for the reserve step of a routine that begins, or ends at once, the turn asks that, unless
/// the store has failed.
pub fn taken_requests_ask()
    ensures { TakenRequestsAsk }
{}

/// If the creator of a handler gets its number, the store represents the half after that.
pub fn creators_are_told()
    ensures { CreatorsAreTold }
{}

/// If a creator that passed its locks gets the number of the handler that was made, it goes on, and the store
/// represents what the job makes of the half.
pub fn made_are_answers()
    ensures { MadeAreAnswers }
{}
