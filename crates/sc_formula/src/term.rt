//! Terms: integers made from the attributes of one object.
#![tactic(auto, unfolding(crate::specs::Plain::plain_term))]

ghost use Rattle.std.specs.Prelude.{◌≡◌, IfOk};
ghost use Rattle.sc_formula.specs.Plain.{plain_term};
ghost use Rattle.sc_formula.specs.Term.{Arithmetic, Identity, Opposite, value_of};

use crate::arithmetic::{self, ArithmeticOperator};
use crate::atom::{Atom, integer_at};
use std::alloc::{AllocError, Global};

/// An integer made from the attributes of one object.
#[derive(Drop)]
pub enum Term {
    /// A number of the text.
    Integer(i64),
    /// The INTEGER attribute of this number.
    Attribute(u8),
    /// `+`, which changes nothing.
    Identity(Box<Term>),
    /// `-`
    Opposite(Box<Term>),
    /// An operator on two integers.
    Arithmetic(Box<Term>, ArithmeticOperator, Box<Term>),
}

impl Term {
    /// `+ operand`.
    pub fn identity(alloc: Global, operand: Term) -> Result<Term, AllocError>
        ensures { IfOk result (λ term. plain_term term ≡ Identity (plain_term operand)) }
    {
        Ok(Term::Identity(Box::new(alloc, operand)?))
    }

    /// `- operand`.
    pub fn opposite(alloc: Global, operand: Term) -> Result<Term, AllocError>
        ensures { IfOk result (λ term. plain_term term ≡ Opposite (plain_term operand)) }
    {
        Ok(Term::Opposite(Box::new(alloc, operand)?))
    }

    /// `left operator right`.
    pub fn arithmetic(
        alloc: Global,
        left: Term,
        operator: ArithmeticOperator,
        right: Term,
    ) -> Result<Term, AllocError>
        ensures { IfOk result (λ term.
            plain_term term ≡ Arithmetic (plain_term left) operator (plain_term right)) }
    {
        let left = Box::new(alloc, left)?;
        let right = Box::new(alloc, right)?;
        Ok(Term::Arithmetic(left, operator, right))
    }

    /// The value of the term, or None if it overflows, divides by zero, or names an attribute that has no INTEGER.
    pub fn value(&self, atoms: &[Atom]) -> Option<i64>
        ensures { result ≡ value_of (plain_term self.now) atoms.now }
    {
        match self {
            Term::Integer(value) => Some(*value),
            Term::Attribute(number) => integer_at(atoms, *number),
            Term::Identity(operand) => operand.value(atoms),
            Term::Opposite(operand) => arithmetic::opposite(operand.value(atoms)?).ok(),
            Term::Arithmetic(left, operator, right) => {
                operator.apply(left.value(atoms)?, right.value(atoms)?).ok()
            }
        }
    }
}
