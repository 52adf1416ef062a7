//! Formulas: the clauses of a class invariant, over the attributes of one object.
#![tactic(auto, unfolding(crate::specs::Plain::plain_term, crate::specs::Plain::plain_formula))]

ghost use Rattle.std.specs.Prelude.{◌≡◌, ◌↔◌, IfOk, IsTrue, map};
ghost use Rattle.sc_formula.specs.Formula.{Connected, Not, truth_of};
ghost use Rattle.sc_formula.specs.Invariant.{Meets};
ghost use Rattle.sc_formula.specs.Plain.{plain_formula};

use crate::atom::{Atom, boolean_at, void_at};
use crate::comparison::Comparison;
use crate::connective::Connective;
use crate::term::Term;
use std::alloc::{AllocError, Global};

/// A truth value made from the attributes of one object.
#[derive(Drop)]
pub enum Formula {
    /// `True` or `False`.
    Constant(bool),
    /// The BOOLEAN attribute of this number.
    Attribute(u8),
    /// `= Void` of the reference attribute of this number.
    IsVoid(u8),
    /// `/= Void` of the reference attribute of this number.
    NotVoid(u8),
    /// `not`
    Not(Box<Formula>),
    /// A comparison of two integers.
    Compared(Term, Comparison, Term),
    /// An operator on two truth values.
    Connected(Box<Formula>, Connective, Box<Formula>),
}

impl Formula {
    /// `not operand`.
    pub fn not(alloc: Global, operand: Formula) -> Result<Formula, AllocError>
        ensures { IfOk result (λ formula. plain_formula formula ≡ Not (plain_formula operand)) }
    {
        Ok(Formula::Not(Box::new(alloc, operand)?))
    }

    /// `left connective right`.
    pub fn connected(
        alloc: Global,
        left: Formula,
        connective: Connective,
        right: Formula,
    ) -> Result<Formula, AllocError>
        ensures { IfOk result (λ formula.
            plain_formula formula ≡ Connected (plain_formula left) connective (plain_formula right)) }
    {
        let left = Box::new(alloc, left)?;
        let right = Box::new(alloc, right)?;
        Ok(Formula::Connected(left, connective, right))
    }
}

/// The truth of a formula, or None if it overflows, divides by zero, or names an attribute that has no atom of its
/// kind.
///
/// It takes no memory but a stack frame for each level of the formula: a parsed clause has at most 64, and some
/// thousands fit into a megabyte.
pub fn eval(formula: &Formula, atoms: &[Atom]) -> Option<bool>
    ensures { result ≡ truth_of (plain_formula formula.now) atoms.now }
{
    match formula {
        Formula::Constant(value) => Some(*value),
        Formula::Attribute(number) => boolean_at(atoms, *number),
        Formula::IsVoid(number) => void_at(atoms, *number),
        Formula::NotVoid(number) => Some(!void_at(atoms, *number)?),
        Formula::Not(operand) => Some(!eval(operand, atoms)?),
        Formula::Compared(left, comparison, right) => {
            Some(comparison.holds(left.value(atoms)?, right.value(atoms)?))
        }
        Formula::Connected(left, connective, right) => {
            let left = eval(left, atoms)?;
            match connective.decision(left) {
                Some(truth) => Some(truth),
                None => Some(connective.apply(left, eval(right, atoms)?)),
            }
        }
    }
}

/// Whether an object meets its class invariant: each clause is true.
pub fn meets(clauses: &[Formula], atoms: &[Atom]) -> bool
    ensures { IsTrue result ↔ Meets (map plain_formula clauses.now) atoms.now }
{
    clauses
        .iter()
        .all(|clause| eval(clause, atoms) == Some(true))
}
