//! What holds of the code of every routine and class, each the contract of a function that does nothing.
ghost use Rattle.sc_code.specs.Invariants.{InvariantsAreJoined, InvariantsAreKnown};
ghost use Rattle.sc_code.specs.Lowered.{EntriesBegin, LoweredStands, MovesFollow, ObjectsMayChange, RoutinesAreTyped, RoutinesFollow, RoutinesStand};

/// If each of its expressions has its type, a routine's code represents the routine at its first place.
pub fn lowered_stands()
    ensures { LoweredStands }
{}

/// From a place that represents a point, the code makes the model's silent steps silently, reaches the same visible
/// step, and represents the point after it.
pub fn moves_follow()
    ensures { MovesFollow }
{}

/// A routine begins where the model enters it.
pub fn entries_begin()
    ensures { EntriesBegin }
{}

/// A place represents a point whatever the objects are.
pub fn objects_may_change()
    ensures { ObjectsMayChange }
{}

/// In a well-formed system each expression of each routine that may run has its static type, and so has each of the
/// contract that the routine keeps.
pub fn checked_routines_are_typed()
    ensures { RoutinesAreTyped }
{}

/// In a well-formed system the first place of a routine's code represents the routine.
pub fn checked_routines_stand()
    ensures { RoutinesStand }
{}

/// In a well-formed system the code of a routine that begins makes the model's silent steps silently, reaches the
/// same visible step, and represents the point after it.
pub fn checked_routines_follow()
    ensures { RoutinesFollow }
{}

/// In an accepted system the clauses of the joined invariant of a class are formulas.
pub fn invariants_are_known()
    ensures { InvariantsAreKnown }
{}

/// In an accepted system the formulas that a class and its ancestors have in flat code make up its joined invariant.
pub fn invariants_are_joined()
    ensures { InvariantsAreJoined }
{}
