//! Laws of the combiners, each the contract of a function that does nothing.

ghost use Rattle.sc_rules.specs.entity_types.CallLaws.{ExactArgument, ExactResult, NoTraitor, OwnResult};

/// A result that is a reference is of the current handler only where the target is.
pub fn results_stay_foreign()
    ensures { OwnResult }
{}

/// No reference to an object of any handler may be passed where the called routine takes one of its own.
pub fn no_traitor_is_passed()
    ensures { NoTraitor }
{}

/// A result may be taken for one of a tag exactly where the combined tag conforms to it.
pub fn result_tag_is_exact()
    ensures { ExactResult }
{}

/// An actual of a tag lies where the formal says exactly where its tag conforms to the combined one.
pub fn argument_tag_is_exact()
    ensures { ExactArgument }
{}
