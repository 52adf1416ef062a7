//! Laws of the instructions of well-formed systems, each the contract of a function that does nothing.
ghost use Rattle.sc_rules.specs.InstructionLaws.{VariablesStand, CreationsStand, ConditionsAreBoolean};

/// In a well-formed system what is assigned or created is a local, a Result or an attribute, of some type.
pub fn variables_stand()
    ensures { VariablesStand }
{}

/// In a well-formed system each creation makes an object of the current handler or of a new one, in a way that its
/// class allows.
pub fn creations_stand()
    ensures { CreationsStand }
{}

/// In a well-formed system each condition of an instruction is of type BOOLEAN.
pub fn conditions_are_boolean()
    ensures { ConditionsAreBoolean }
{}
