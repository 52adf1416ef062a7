//! Actuals and formals (ECMA-367, 8.23): whether an actual may be passed, whatever the others are.

ghost use Rattle.std.specs.Prelude.{◌≡◌, IfOk, Some, drop, map};
ghost use Rattle.sc_tree.specs.View.{expr_of};
ghost use Rattle.sc_class.specs.SystemIn.{system_in};
ghost use Rattle.sc_rules.specs.declared.position.Position.TheVariants.{Source};
ghost use Rattle.sc_rules.specs.Judging as judging;
ghost use Rattle.sc_rules.specs.Names as names;
ghost use Rattle.sc_rules.specs.Positions.{span_of};
ghost use Rattle.sc_rules.specs.Typing as typing;
ghost use Rattle.sc_typing.specs.Judges.{Passes};
ghost use Rattle.sc_typing.specs.Views.{entity_of, formals_in, routine_in, types_in};
ghost use Rattle.sc_faults.specs.Internal.Listing as listing;

use sc_class::Tables;
use sc_rules::entity_types::{EntityType, Known, combine_argument, conforms};
use sc_rules::{Context, Position, Rule};
use sc_tree::Expr;
use sc_typing::{
    CheckFault, Entity, Formals, JudgedActual, RoutineContext, declared_type, judged_type,
    known_handler, may_pass, named_formal, names_untyped, required,
};
use std::alloc::{AllocError, Global};

/// What is known of the handlers of the actuals.
pub fn known_handlers(alloc: Global, found: &[JudgedActual]) -> Result<Vec<Known>, AllocError>
    ensures { IfOk result (λ known. known.items ≡ typing.known_handlers (types_in found.now)) }
{
    let mut known = Vec::with_capacity(alloc, found.len())?;
    for actual in found {
        known.push(known_handler(judged_type(actual.judged)))?;
    }
    Ok(known)
}

/// The actuals of a call, with what is known of their handlers, and what they are judged by.
#[derive(Drop)]
pub struct Passing<'a, 's> {
    /// The type of the call's target, if it has one.
    pub receiver: Option<EntityType>,
    /// The type of the target as what is called sees it.
    pub target: EntityType,
    pub formals: Formals<'s>,
    pub found: &'a [JudgedActual],
    pub known: &'a [Known],
    ghost is_known: { known.now ≡ typing.known_handlers (types_in found.now) },
}

impl<'a, 's> Passing<'a, 's> {
    /// Whether an actual of this type may be passed to a formal of that type.
    fn takes(&self, tables: &Tables, formal: EntityType, actual: EntityType) -> bool
        ensures { result ≡ typing.takes (system_in tables.now) self.now.target (types_in self.now.found.now)
            (names.of_type formal) actual }
    {
        names_untyped(self.found, named_formal(formal.tag))
            || conforms(
                tables,
                actual,
                combine_argument(self.target, formal, self.known),
            )
    }

    /// Whether an actual of this type may be passed to the formal at a number, if there is one.
    fn takes_at(&self, tables: &Tables, number: usize, actual: EntityType) -> bool
        ensures { result ≡ judging.is_taken (system_in tables.now) self.now.target (types_in self.now.found.now)
            (drop number (formals_in (system_in tables.now) self.now.formals)) (Some actual) }
    {
        match self.formals {
            Formals::Declared(declared) => match declared.get(number) {
                None => true,
                Some(formal) => match declared_type(tables, declared, &formal.declared_type) {
                    None => true,
                    Some(formal) => self.takes(tables, formal, actual),
                },
            },
            Formals::Printed => number != 0 || actual.is_expanded(),
        }
    }

    /// Whether an actual of this type, if it has one, may be passed to the formal at a number, if there is one.
    fn is_taken(&self, tables: &Tables, number: usize, actual: Option<EntityType>) -> bool
        ensures { result ≡ judging.is_taken (system_in tables.now) self.now.target (types_in self.now.found.now)
            (drop number (formals_in (system_in tables.now) self.now.formals)) actual }
    {
        match actual {
            None => true,
            Some(actual) => self.takes_at(tables, number, actual),
        }
    }

    /// Judges the actual at a number: its expression, then whether it may be passed there.
    pub fn judge<'n>(
        &self,
        routine: &RoutineContext<'_, 'n>,
        context: Context,
        names: &[Entity<'n>],
        number: usize,
        actual: &'n Expr,
    ) -> Result<(), CheckFault>
        ensures { Passes (listing.judge_passed (routine_in routine.now) context self.now.receiver self.now.target
            (types_in self.now.found.now)
            (drop number (formals_in (system_in routine.now.tables.now) self.now.formals)) (
              span_of (expr_of actual.now),
              judging.judge (routine_in routine.now) context Source
                  (map entity_of names.now) (expr_of actual.now),
            )) result }
    {
        let typing = routine.expression(context, Position::Source, names, actual)?;
        let is_taken = self.is_taken(routine.tables, number, typing.entity_type);
        required(is_taken, Rule::ArgumentType, actual.span())?;
        let may_pass = may_pass(context, self.receiver, typing.entity_type);
        required(may_pass, Rule::PreconditionArgument, actual.span())
    }
}
