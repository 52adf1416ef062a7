//! Laws of well-formed systems, each the contract of a function that does nothing.
ghost use Rattle.sc_rules.specs.SystemLaws.{EachIsTyped, TargetsAreControlled, CallsStand, ActualsConform, CreationActualsConform, RightSidesConform};

/// In a well-formed system each expression has a type.
pub fn each_expression_has_a_type()
    ensures { EachIsTyped }
{}

/// In a well-formed system the target of each call is attached, and of the current handler or of one that is reserved.
pub fn targets_are_controlled()
    ensures { TargetsAreControlled }
{}

/// In a well-formed system the name of each call is that of a feature that may be called there.
pub fn calls_stand()
    ensures { CallsStand }
{}

/// In a well-formed system each actual of a call conforms to its formal, combined with the target and the actuals.
pub fn actuals_conform()
    ensures { ActualsConform }
{}

/// In a well-formed system each actual of a creation conforms to its formal, combined with the created entity's type
/// and the actuals.
pub fn creation_actuals_conform()
    ensures { CreationActualsConform }
{}

/// In a well-formed system what is assigned conforms to what it is assigned to.
pub fn right_sides_conform()
    ensures { RightSidesConform }
{}
