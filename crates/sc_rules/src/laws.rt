//! Laws of types, of declarations and of well-formed systems, each the contract of a function that does nothing.
ghost use Rattle.sc_rules.specs.Laws.{DeclaredIfWellFormed, EveryTyped, NamesTyped, NoneWhereARuleFails, OneType, TypeOrFault, WellFormedOrFault};

/// An expression has one type at most.
pub fn one_type()
    ensures { OneType }
{}

/// An expression in which a rule fails has no type.
pub fn no_type_where_a_rule_fails()
    ensures { NoneWhereARuleFails }
{}

/// An expression has a type, or a rule fails in it.
pub fn type_or_fault()
    ensures { TypeOrFault }
{}

/// If the declarations are right, an expression in which no rule fails has a type.
pub fn every_expression_is_typed()
    ensures { EveryTyped }
{}

/// Nothing is wrong with the declarations of a well-formed system.
pub fn well_formed_declares()
    ensures { DeclaredIfWellFormed }
{}

/// If a routine's declarations are right, its names have types.
pub fn names_are_typed()
    ensures { NamesTyped }
{}

/// A system is well formed, or a rule fails at some place of it.
pub fn well_formed_or_fault()
    ensures { WellFormedOrFault }
{}
