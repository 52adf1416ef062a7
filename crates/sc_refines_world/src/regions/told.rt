//! What turns do to stores for the operation that they have reached, each the contract of a function that does
//! nothing.
ghost use Rattle.sc_refines_world.specs.regions.Told.{ToldBlocksBegin, ToldCallsAreMade, ToldHandlersAreCreated, ToldObjectsAreCreated, ToldObjectsAreCreatedBy, ToldRequestsAreMade};

use crate::regions::half_laws::programs_serve;

/// If a routine of the same handler is called, the store represents what the turn makes of the half, if requests have
/// room for what the program names.
pub fn told_calls_are_made()
    ensures { ToldCallsAreMade }
{
    programs_serve();
}

/// If a request goes to another handler, the store represents what the turn makes of the half, and the turn wants the
/// request, if requests have room for what the program names.
pub fn told_requests_are_made()
    ensures { ToldRequestsAreMade }
{
    programs_serve();
}

/// If a handler is created, the store represents what the turn makes of the half, and the turn wants the handler, if
/// requests have room for what the program names.
pub fn told_handlers_are_created()
    ensures { ToldHandlersAreCreated }
{
    programs_serve();
}

/// If a separate block begins, the store represents what the turn makes of the half, if requests have room for what
/// the program names.
pub fn told_blocks_begin()
    ensures { ToldBlocksBegin }
{
    programs_serve();
}

/// If an object is created without a procedure, the store represents what the turn makes of the half, if requests
/// have room for what the program names, the store hasn't failed, the routine runs on an object of the handler, and
/// none runs on the next object.
pub fn told_objects_are_created()
    ensures { ToldObjectsAreCreated }
{
    programs_serve();
}

/// If an object is created by a procedure, whose name is that of a routine, the store represents what the turn makes
/// of the half, if there is room for the reference.
pub fn told_objects_are_created_by()
    ensures { ToldObjectsAreCreatedBy }
{
    programs_serve();
}
