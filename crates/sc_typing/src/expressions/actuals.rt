//! Actuals and formals (ECMA-367, 8.23).

ghost use Rattle.std.specs.Prelude.{◌≡◌, false, IfOk, drop, length, map, slice_get};
ghost use Rattle.sc_tree.specs.Plain as plain;
ghost use Rattle.sc_tree.specs.View.{declaration_of, type_of};
ghost use Rattle.sc_rules.specs.Types as types;
ghost use Rattle.sc_rules.specs.Names as names;
ghost use Rattle.sc_rules.specs.Typing as spec;
ghost use Rattle.sc_rules.specs.Judging as judging;
ghost use Rattle.sc_typing.specs.Views.{routine_in, formals_in, formal_in, formal_if_any, actual_in, types_in};
ghost use Rattle.sc_class.specs.SystemIn.{system_in};
ghost use Rattle.sc_typing.specs.Judges.{Judges, any_separate};

use crate::declarations::types::declared_type;
use crate::expressions::typing::{
    JudgedActual, as_check_result, is_either_separate, judged_type, may_pass,
};
use crate::fault::{CheckFault, required};
use crate::routine_context::{Formals, RoutineContext};
use sc_class::Tables;
use sc_rules::entity_types::{EntityType, Known, Reserved, Tag, combine_argument, conforms};
use sc_rules::{Context, Rule};
use sc_tree::{Declaration, DeclaredType};
use smallvec::SmallVec;
use std::alloc::{AllocError, Global};

/// How many formals a feature has at most.
const MOST_FORMALS: usize = 16;

/// What a formal takes.
#[derive(Clone, Copy)]
pub enum FormalType {
    /// Values of this type, as it is declared.
    Typed(EntityType),
    /// Anything: its declaration is faulty.
    Untyped,
    /// Any value that is no reference.
    Expanded,
}

/// What a formal takes, by its declaration.
fn formal_type(tables: &Tables, formals: &[Declaration], declared: &DeclaredType) -> FormalType
    ensures { formal_in result
        ≡ names.formal_type (types.declared_type (system_in tables.now) (map declaration_of formals.now)
        (type_of declared.now)) }
{
    match declared_type(tables, formals, declared) {
        None => FormalType::Untyped,
        Some(declared) => FormalType::Typed(declared),
    }
}

/// What the formal at a number takes.
fn formal_at(tables: &Tables, formals: Formals, number: usize) -> Option<FormalType>
    ensures { formal_if_any result ≡ slice_get (formals_in (system_in tables.now) formals.entry) number }
{
    match formals {
        Formals::Declared(declared) => match declared.get(number) {
            None => None,
            Some(formal) => Some(formal_type(tables, declared, &formal.declared_type)),
        },
        Formals::Printed => {
            if number == 0 {
                Some(FormalType::Expanded)
            } else {
                None
            }
        }
    }
}

/// How many formals there are.
pub fn count(formals: Formals) -> usize
    ensures { (s : plain.System) → result ≡ length (formals_in s formals.entry) }
{
    match formals {
        Formals::Declared(declared) => declared.len(),
        Formals::Printed => 1,
    }
}

/// The formal that a formal's tag names.
pub fn named_formal(tag: Tag) -> Option<usize>
    ensures { result ≡ spec.named_formal tag }
{
    match tag {
        Tag::With(Reserved::Formal(number)) => Some(number),
        Tag::With(Reserved::BlockName(_)) | Tag::Own | Tag::Any | Tag::None => None,
    }
}

/// Whether there is an actual at a number, and it has no type.
fn is_untyped(found: &[JudgedActual], number: usize) -> bool
    ensures { result ≡ spec.is_untyped (slice_get (types_in found.now) number) }
{
    match found.get(number) {
        None => false,
        Some(actual) => judged_type(actual.judged).is_none(),
    }
}

/// Whether the formal that a tag names, if it names one, has such an actual: then nothing can be combined with it. Where
/// its actual is missing, the tag names no handler.
pub fn names_untyped(found: &[JudgedActual], named: Option<usize>) -> bool
    ensures { result ≡ spec.names_untyped (types_in found.now) named }
{
    match named {
        None => false,
        Some(number) => is_untyped(found, number),
    }
}

/// What is known of the handler of an actual of this type, if it has one.
pub fn known_handler(actual: Option<EntityType>) -> Known
    ensures { result ≡ spec.known_handler actual }
{
    match actual {
        None => Known::Neither,
        Some(actual) => Known::of(actual.tag),
    }
}

/// What is known of the handlers of the actuals. Up to 16 take no memory, and no feature has more formals.
fn known_handlers(
    alloc: Global,
    found: &[JudgedActual],
) -> Result<SmallVec<Known, MOST_FORMALS>, AllocError>
    ensures { IfOk result (λ known. known.items ≡ spec.known_handlers (types_in found.now)) }
{
    let mut known = SmallVec::with_capacity(alloc, found.len())?;
    for actual in found {
        known.push(known_handler(judged_type(actual.judged)))?;
    }
    Ok(known)
}

/// The actuals of a call, with what is known of their handlers, and the type of the call's target.
#[derive(Drop)]
struct Passing<'a> {
    target: EntityType,
    found: &'a [JudgedActual],
    known: &'a [Known],
    ghost is_known: { known.now ≡ spec.known_handlers (types_in found.now) },
}

impl<'a> Passing<'a> {
    /// Whether an actual of this type may be passed to the formal.
    fn takes(&self, tables: &Tables, formal: FormalType, actual: EntityType) -> bool
        ensures { result ≡ spec.takes (system_in tables.now) self.now.target (types_in self.now.found.now)
            (formal_in formal) actual }
    {
        match formal {
            FormalType::Typed(formal) => {
                names_untyped(self.found, named_formal(formal.tag))
                    || conforms(
                        tables,
                        actual,
                        combine_argument(self.target, formal, self.known),
                    )
            }
            FormalType::Untyped => true,
            FormalType::Expanded => actual.is_expanded(),
        }
    }

    /// Whether an actual of this type, if it has one, may be passed to the formal.
    fn takes_if_any(&self, tables: &Tables, formal: FormalType, actual: Option<EntityType>) -> bool
        ensures { result ≡ spec.takes_if_any (system_in tables.now) self.now.target (types_in self.now.found.now)
            (formal_in formal) actual }
    {
        match actual {
            None => true,
            Some(actual) => self.takes(tables, formal, actual),
        }
    }

    /// Whether the actual at a number, of this type, may be passed to its formal, if there is one.
    fn is_taken(
        &self,
        tables: &Tables,
        formals: Formals,
        number: usize,
        actual: Option<EntityType>,
    ) -> bool
        ensures { result ≡ judging.is_taken (system_in tables.now) self.now.target (types_in self.now.found.now)
            (drop number (formals_in (system_in tables.now) formals.entry)) actual }
    {
        match formal_at(tables, formals, number) {
            None => true,
            Some(formal) => self.takes_if_any(tables, formal, actual),
        }
    }
}

impl<'t, 's> RoutineContext<'t, 's> {
    /// Judges the actuals in order, each with its formal, and returns whether one of them makes a separate call. The
    /// first type is the target's own, the second is that of the signature.
    pub(crate) fn judge_actuals(
        &self,
        context: Context,
        receiver: Option<EntityType>,
        target: EntityType,
        formals: Formals,
        found: &[JudgedActual],
    ) -> Result<bool, CheckFault>
        ensures { Judges (λ b. b) (any_separate false
            (judging.judge_actuals (routine_in self.now) context receiver target (types_in found.now)
            (formals_in (system_in self.now.tables.now) formals.entry) (map actual_in found.now))) result }
    {
        let known = known_handlers(self.alloc, found)?;
        let passing = Passing {
            target,
            found,
            known: known.as_slice(),
        };
        let mut is_separate = false;
        for number in 0..found.len() {
            let actual = found[number];
            let typing = as_check_result(actual.judged)?;
            let is_taken = passing.is_taken(self.tables, formals, number, typing.entity_type);
            required(is_taken, Rule::ArgumentType, actual.span)?;
            let may_pass = may_pass(context, receiver, typing.entity_type);
            required(may_pass, Rule::PreconditionArgument, actual.span)?;
            is_separate = is_either_separate(is_separate, typing.is_separate);
        }
        Ok(is_separate)
    }
}
