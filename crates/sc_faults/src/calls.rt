//! What is judged of calls and creations in parts: the target, the name, and what they mean.

ghost use Rattle.std.specs.Prelude.{◌≡◌, false, IfOk, None, map};
ghost use Rattle.sc_tree.specs.Plain as plain;
ghost use Rattle.sc_tree.specs.View.{expr_of, exprs_of, name_of, target_of, variable_of};
ghost use Rattle.sc_class.specs.SystemIn.{system_in};
ghost use Rattle.sc_rules.specs.declared.rule.Rule.TheVariants.{CreationTag};
ghost use Rattle.sc_rules.specs.Judging as judging;
ghost use Rattle.sc_rules.specs.JudgingPurity as judging_purity;
ghost use Rattle.sc_rules.specs.JudgingText as judging_text;
ghost use Rattle.sc_rules.specs.Typing as spec;
ghost use Rattle.sc_typing.specs.Judges.{Passes};
ghost use Rattle.sc_typing.specs.Views.{actual_in, entity_of, formals_in, meaning_in, routine_in, typing_of};
ghost use Rattle.sc_faults.specs.Internal.Listing as listing;

use sc_class::{ClassId, Tables};
use sc_rules::entity_types::{EntityType, Tag};
use sc_rules::{Context, Position, Rule, Use};
use sc_text::Span;
use sc_tree::{Expr, Name, Variable};
use sc_typing::{
    Assignee, CallContext, CheckFault, Entity, Formals, JudgedActual, Meaning, RoutineContext,
    Typing, judge_receiver, judged_type, keep_fault, required,
};
use std::alloc::{AllocError, Global};

/// What is found of an expression of which nothing is known.
pub fn untyped() -> Typing
    ensures { typing_of result ≡ spec.typing None false }
{
    Typing {
        entity_type: None,
        is_separate: false,
    }
}

/// Judges what is before the dot of a call, and whether it may be a target.
pub fn judge_before<'s>(
    routine: &RoutineContext<'_, 's>,
    context: Context,
    names: &[Entity<'s>],
    target: &Expr,
) -> Result<(), CheckFault>
    ensures { Passes (listing.judge_before (routine_in routine.now) context (map entity_of names.now)
        (expr_of target.now)) result }
{
    let found = routine.expression(context, Position::Plain, names, target)?;
    match judge_receiver(target.span(), found) {
        Ok(_) => Ok(()),
        Err(fault) => Err(fault),
    }
}

/// The type of what is before the dot of a call, or of Current if there is no dot, as far as it has one.
pub fn receiver_type<'s>(
    routine: &RoutineContext<'_, 's>,
    context: Context,
    names: &[Entity<'s>],
    target: &Option<Box<Expr>>,
) -> Result<Option<EntityType>, AllocError>
    ensures { IfOk result (λ t. t ≡ judging_purity.receiver_type (routine_in routine.now) context
        (map entity_of names.now) (target_of target.now)) }
{
    match target {
        None => Ok(Some(routine.current())),
        Some(target) => {
            match keep_fault(routine.expression(context, Position::Plain, names, target)) {
                Ok(found) => Ok(judged_type(found)),
                Err(_) => Err(AllocError),
            }
        }
    }
}

/// What is found of the actuals of a call.
pub fn found_actuals<'s>(
    routine: &RoutineContext<'_, 's>,
    context: Context,
    names: &[Entity<'s>],
    actuals: &[Expr],
) -> Result<Vec<JudgedActual>, AllocError>
    ensures { IfOk result (λ found. map actual_in found.items ≡ judging.judged_actuals (routine_in routine.now) context
        (map entity_of names.now) (exprs_of actuals.now)) }
{
    match routine.judged_actuals(context, names, actuals) {
        Ok(found) => Ok(found),
        Err(_) => Err(AllocError),
    }
}

/// The formals of what is called.
pub fn formals_of<'s>(meaning: &Meaning<'s>) -> Formals<'s>
    ensures { (s : plain.System) → formals_in s result ≡ judging.formals_of (meaning_in s meaning.now) }
{
    match meaning {
        Meaning::Unknown | Meaning::TargetUntyped => Formals::Declared(&[]),
        Meaning::Named(signature) => signature.formals,
    }
}

/// The type of the target as what is called sees it.
pub fn target_type(routine: &RoutineContext, meaning: &Meaning) -> EntityType
    ensures { (s : plain.System) → result ≡ judging.target_of (routine_in routine.now) (meaning_in s meaning.now) }
{
    match meaning {
        Meaning::Unknown | Meaning::TargetUntyped => routine.current(),
        Meaning::Named(signature) => signature.target,
    }
}

/// Judges the name of a call with this number of actuals, whatever they are.
pub fn judge_name(
    routine: &RoutineContext,
    site: &CallContext,
    meaning: &Meaning,
    actuals: usize,
) -> Result<(), CheckFault>
    ensures { Passes (listing.judge_named (routine_in routine.now) site.now.context site.now.usage
        (target_of site.now.target.now) (meaning_in (system_in routine.now.tables.now) meaning.now) actuals
        site.now.span) result }
{
    let unknown = JudgedActual {
        span: site.span,
        judged: Ok(untyped()),
    };
    let found = vec![in routine.alloc; unknown; actuals]?;
    match routine.judge_actuals_and_name(site, meaning, &found, untyped()) {
        Ok(_) => Ok(()),
        Err(fault) => Err(fault),
    }
}

// ---- creations

/// The type of the entity of a creation, if it has one.
pub fn created_type(
    routine: &RoutineContext,
    names: &[Entity],
    variable: &Variable,
) -> Option<EntityType>
    ensures { result ≡ listing.created_type (routine_in routine.now) (map entity_of names.now)
        (variable_of variable.now) }
{
    match routine.assignee(names, variable) {
        Assignee::Unknown | Assignee::NotAssignable => None,
        Assignee::Local(created) | Assignee::Attribute(created) => created,
    }
}

/// Whether an entity of this type is declared without the tag of a formal or a block, as far as it has a type.
fn is_untagged(created: Option<EntityType>) -> bool
    ensures { result ≡ judging_text.is_untagged created }
{
    match created {
        None => true,
        Some(created) => match created.tag {
            Tag::With(_) => false,
            Tag::Own | Tag::Any | Tag::None => true,
        },
    }
}

/// Judges the tag of the entity of a creation.
pub fn judge_created_tag(created: Option<EntityType>, span: Span) -> Result<(), CheckFault>
    ensures { Passes (judging.required (judging_text.is_untagged created) CreationTag span) result }
{
    required(is_untagged(created), Rule::CreationTag, span)
}

/// Whether an object for an entity of this type is made by the procedure, as far as it has a type.
fn is_made_by(tables: &Tables, created: Option<EntityType>, name: &Name) -> bool
    ensures { result ≡ judging_text.is_made_by_if_any (system_in tables.now) created (name_of name.now) }
{
    match created {
        None => true,
        Some(created) => match created.class {
            ClassId::Declared(number) => tables.is_creator(number, name.as_str()),
            ClassId::Any | ClassId::None | ClassId::Integer | ClassId::Boolean => false,
        },
    }
}

/// What the procedure of a creation means, after an entity of this type, if it has one.
pub fn creation_meaning<'s>(
    routine: &RoutineContext<'_, 's>,
    created: Option<EntityType>,
    name: &Name,
) -> Meaning<'s>
    ensures { meaning_in (system_in routine.now.tables.now) result
        ≡ judging_text.creation_meaning (routine_in routine.now) created (name_of name.now) }
{
    match created {
        None => Meaning::TargetUntyped,
        Some(created) => routine.qualified_meaning(created, name.as_str()),
    }
}

/// Judges the procedure of this name and meaning, called with this number of actuals, that makes an object for an entity
/// of this type.
pub fn judge_made(
    routine: &RoutineContext,
    created: Option<EntityType>,
    meaning: &Meaning,
    name: &Name,
    actuals: usize,
) -> Result<(), CheckFault>
    ensures { Passes (listing.judge_made (routine_in routine.now) created
        (meaning_in (system_in routine.now.tables.now) meaning.now) (name_of name.now) actuals) result }
{
    let site = CallContext {
        context: Context::Body,
        usage: Use::Instruction,
        target: &None,
        span: name.span,
    };
    judge_name(routine, &site, meaning, actuals)?;
    let is_made_by = is_made_by(routine.tables, created, name);
    required(is_made_by, Rule::NotCreation, name.span)
}
