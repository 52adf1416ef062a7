//! What turns make of stores, each the contract of a function that does nothing.
ghost use Rattle.sc_refines_world.specs.regions.Jobs.{AnswersAreTaken, BadAnswersAreTaken, GrantsAreTaken};
ghost use Rattle.sc_refines_world.specs.regions.Wanting.{BlockEndsAsk, CreationsAsk, DistinctNamesHaveNumbers, RefusalsAsk, RequestsAsk, RoutineEndsAsk};
ghost use Rattle.sc_refines_world.specs.regions.Waiting.{RoutinesWait};
ghost use Rattle.sc_refines_world.specs.regions.Acting.{BlocksBegin, BlocksEnd, BodiesStart, BooleansArePrinted, CallsAreMade, CallsAreRefused, FailuresAreTold, HandlersAreCreated, IntegersArePrinted, NoBlockEnds, ObjectsAreCreated, ObjectsAreCreatedBy, RequestsAreMade, RoundsEnd, RoutinesAreEntered, RoutinesEnd, RoutinesFail, SilentOperationsFollow, SilentOperationsJoin, SimpleStepsAskNothing, TextsArePrinted};

use crate::regions::half_laws::programs_serve;

/// Silent operations do to a store what silent steps do to the half that it represents.
pub fn silent_operations_follow()
    ensures { SilentOperationsFollow }
{
    programs_serve();
}

/// If an integer is printed, the store represents what the turn makes of the half.
pub fn integers_are_printed()
    ensures { IntegersArePrinted }
{
    programs_serve();
}

/// If a truth value is printed, the store represents what the turn makes of the half.
pub fn booleans_are_printed()
    ensures { BooleansArePrinted }
{
    programs_serve();
}

/// If a text is printed, the store represents what the turn makes of the half.
pub fn texts_are_printed()
    ensures { TextsArePrinted }
{
    programs_serve();
}

/// If a loop ends or its body comes again, the store represents what the turn makes of the half.
pub fn rounds_end()
    ensures { RoundsEnd }
{
    programs_serve();
}

/// If a body begins after its precondition, the store represents what the turn makes of the half.
pub fn bodies_start()
    ensures { BodiesStart }
{
    programs_serve();
}

/// If a routine fails, the store represents what the turn makes of the half.
pub fn routines_fail()
    ensures { RoutinesFail }
{
    programs_serve();
}

/// If a routine ends, the store represents what the turn makes of the half, if each object has as many attributes as
/// its class, and the caller, if it takes a value, is given one and has room for it.
pub fn routines_end()
    ensures { RoutinesEnd }
{
    programs_serve();
}

/// If a clause of the precondition is false that isn't waited for, the request is refused or the own call fails, and
/// the store represents what the turn makes of the half, if each object has as many attributes as its class.
pub fn calls_are_refused()
    ensures { CallsAreRefused }
{
    programs_serve();
}

/// If a clause of the precondition is false that is waited for, the routine begins anew with its reserve step, and
/// the store represents what the turn makes of the half, if the routine is the version of a name and is in its
/// contract.
pub fn routines_wait()
    ensures { RoutinesWait }
{
    programs_serve();
}

/// If a request goes to another handler, the store represents what the turn makes of the half.
pub fn requests_are_made()
    ensures { RequestsAreMade }
{
    programs_serve();
}

/// If a handler is created, the store represents what the turn makes of the half.
pub fn handlers_are_created()
    ensures { HandlersAreCreated }
{
    programs_serve();
}

/// If a separate block begins, the store represents what the turn makes of the half.
pub fn blocks_begin()
    ensures { BlocksBegin }
{
    programs_serve();
}

/// If a separate block ends, the store represents what the turn makes of the half.
pub fn blocks_end()
    ensures { BlocksEnd }
{
    programs_serve();
}

/// If a separate block ends and none is open, the handler fails, and the store represents what the turn makes of the
/// half.
pub fn no_block_ends()
    ensures { NoBlockEnds }
{
    programs_serve();
}

/// If a routine is entered by its name, the store represents what the definition makes of the half.
pub fn routines_are_entered()
    ensures { RoutinesAreEntered }
{}

/// If a routine of the same handler is called, the store represents what the turn makes of the half, if the name has
/// its number and the operands are there.
pub fn calls_are_made()
    ensures { CallsAreMade }
{
    programs_serve();
}

/// If an object is created without a procedure, the store represents what the turn makes of the half, if the store
/// hasn't failed, the routine runs on an object of the handler, and none runs on the next object.
pub fn objects_are_created()
    ensures { ObjectsAreCreated }
{
    programs_serve();
}

/// If an object is created by a procedure, whose name has its number and is that of a routine, the store represents
/// what the turn makes of the half, if its operands are there and have room for the reference.
pub fn objects_are_created_by()
    ensures { ObjectsAreCreatedBy }
{
    programs_serve();
}

/// Silent operations that were done before are done first.
pub fn silent_operations_join()
    ensures { SilentOperationsJoin }
{}

/// Where something is printed, a loop's end is tested or a body begins, the turn asks nothing, unless the store has failed.
pub fn simple_steps_ask_nothing()
    ensures { SimpleStepsAskNothing }
{
    programs_serve();
}

/// A turn that leaves a store that has failed says why.
pub fn failures_are_told()
    ensures { FailuresAreTold }
{}

/// Where a routine ends the turn asks what the end of the routine asks, unless the store has failed.
pub fn routine_ends_ask()
    ensures { RoutineEndsAsk }
{
    programs_serve();
}

/// Where a separate block ends the turn asks that what the block newly reserved is released, unless the store has failed.
pub fn block_ends_ask()
    ensures { BlockEndsAsk }
{
    programs_serve();
}

/// Where a clause of the precondition is false the turn asks that the routine waits or that its request is refused, unless the
/// store has failed.
pub fn refusals_ask()
    ensures { RefusalsAsk }
{
    programs_serve();
}

/// Among distinct names each has its own place as its number.
pub fn distinct_names_have_numbers()
    ensures { DistinctNamesHaveNumbers }
{}

/// Where a request goes to another handler the turn asks for it, unless the store has failed.
pub fn requests_ask()
    ensures { RequestsAsk }
{
    programs_serve();
}

/// Where a handler is created the turn asks for it, unless the store has failed.
pub fn creations_ask()
    ensures { CreationsAsk }
{
    programs_serve();
}

/// Where the supplier has failed, or has refused what was waited for, the handler fails.
pub fn bad_answers_are_taken()
    ensures { BadAnswersAreTaken }
{}

/// If a reserve step has reserved handlers, the store represents what the job makes of the half.
pub fn grants_are_taken()
    ensures { GrantsAreTaken }
{}

/// If an answer is taken, the store represents what the job makes of the half, if a routine that waits for a value is
/// given one and has room for it.
pub fn answers_are_taken()
    ensures { AnswersAreTaken }
{}
