//! Laws of purity, each the contract of a function that does nothing.
ghost use Rattle.sc_rules.specs.PurityLaws.{NeverBoth, OnePurity, PureBodiesCallPure, PureBodiesHaveNoEffect, PureIsClosed, SomePurity, VersionsStayPure};

/// No function is both pure and not.
pub fn never_pure_and_impure()
    ensures { NeverBoth }
{}

/// There is only one test that separates the pure functions from all others.
pub fn purity_is_one()
    ensures { OnePurity }
{}

/// Every system has a test that separates the pure functions from all others.
pub fn purity_is_known()
    ensures { SomePurity }
{}

/// What a pure function calls is pure, in every system.
pub fn pure_is_closed()
    ensures { PureIsClosed }
{}

/// Each version of a pure function is pure.
pub fn versions_stay_pure()
    ensures { VersionsStayPure }
{}

/// The body of a pure function has no effect.
pub fn pure_bodies_have_no_effect()
    ensures { PureBodiesHaveNoEffect }
{}

/// What the body of a pure function calls is pure.
pub fn pure_bodies_call_pure()
    ensures { PureBodiesCallPure }
{}
