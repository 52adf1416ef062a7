//! Laws of contracts, invariants, conditions and separate blocks, each the contract of a function that does nothing.
ghost use Rattle.sc_rules.specs.TextLaws.{BlocksReserve, ClausesAreBoolean, ConditionsGive, HeadsConform, InvariantsAreFormulas, PrintTakesValues};

/// In a well-formed system each head of a separate block is an attached reference.
pub fn heads_conform()
    ensures { HeadsConform }
{}

/// In a well-formed system an actual of `print` is no reference.
pub fn print_takes_values()
    ensures { PrintTakesValues }
{}

/// In a well-formed system each clause of a contract or an invariant is of type BOOLEAN.
pub fn clauses_are_boolean()
    ensures { ClausesAreBoolean }
{}

/// In a well-formed system each clause of an invariant is a formula over the attributes of its class.
pub fn invariants_are_formulas()
    ensures { InvariantsAreFormulas }
{}

/// In a well-formed system each condition binds its names, and they are in scope wherever it holds.
pub fn conditions_give()
    ensures { ConditionsGive }
{}

/// In a well-formed system each separate block gives names, which are known in its body.
pub fn blocks_reserve()
    ensures { BlocksReserve }
{}
