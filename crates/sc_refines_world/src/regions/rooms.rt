//! Routines that are to be given a value have room for it, each a law that is the contract of a function that does nothing.
ghost use Rattle.sc_refines_world.specs.regions.Rooms.{AnswersHaveRoom, RoomIsKept, RoutinesEndWithRoom};

use crate::regions::half_laws::programs_serve;

/// An operation that was returned leaves each routine that is to be given a value room for it.
pub fn room_is_kept()
    ensures { RoomIsKept }
{}

/// A routine that waits for a value has room for it, if each has that is to be given one.
pub fn answers_have_room()
    ensures { AnswersHaveRoom }
{}

/// If a routine ends, the store represents what the turn makes of the half, if each object has as many attributes as
/// its class, each routine that is to be given a value has room for it, and the caller, if it takes a value, is given
/// one.
pub fn routines_end_with_room()
    ensures { RoutinesEndWithRoom }
{
    programs_serve();
}
