//! Creations of objects: the first rule that fails (ECMA-367, 8.20).

ghost use Rattle.std.specs.Prelude.{◌≡◌, map};
ghost use Rattle.sc_tree.specs.View.{creation_call_of, exprs_of, name_of};
ghost use Rattle.sc_rules.specs.TextRules as text;
ghost use Rattle.sc_rules.specs.JudgingText as judging_text;
ghost use Rattle.sc_typing.specs.Views.{routine_in, entity_of, meaning_in};
ghost use Rattle.sc_class.specs.SystemIn.{system_in};
ghost use Rattle.sc_typing.specs.Judges.{Passes};
ghost use Rattle.sc_check.specs.Internal.Parts as parts;

use sc_class::{ClassId, Tables};
use sc_rules::entity_types::{EntityType, Tag};
use sc_rules::{Context, Rule, Use};
use sc_text::Span;
use sc_tree::{CreationCall, Name};
use sc_typing::{CallContext, CheckFault, Entity, Meaning, RoutineContext, Typing, required};

/// Whether the tag names a formal or a block.
fn is_tagged(tag: Tag) -> bool
    ensures { result ≡ text.is_tagged tag }
{
    match tag {
        Tag::With(_) => true,
        Tag::Own | Tag::Any | Tag::None => false,
    }
}

/// Whether an entity of this type is declared without the tag of a formal or a block, as far as it has a type.
fn is_untagged(created: Option<EntityType>) -> bool
    ensures { result ≡ judging_text.is_untagged created }
{
    match created {
        None => true,
        Some(created) => !is_tagged(created.tag),
    }
}

/// Whether the class lists nothing under `create`.
fn is_empty(names: &[Name]) -> bool
    ensures { result ≡ text.is_empty (map name_of names.now) }
{
    match names {
        [] => true,
        [_, ..] => false,
    }
}

/// Whether an object of the class is made without a procedure.
fn is_made_without_procedure(tables: &Tables, class: ClassId) -> bool
    ensures { result ≡ text.is_made_without_procedure (system_in tables.now) class }
{
    match class {
        ClassId::Declared(number) => is_empty(tables.creators(number)),
        ClassId::Any | ClassId::None | ClassId::Integer | ClassId::Boolean => false,
    }
}

/// Whether the class lists the procedure under `create`.
fn is_made_by(tables: &Tables, class: ClassId, name: &Name) -> bool
    ensures { result ≡ text.is_made_by (system_in tables.now) class (name_of name.now) }
{
    match class {
        ClassId::Declared(number) => tables.is_creator(number, name.as_str()),
        ClassId::Any | ClassId::None | ClassId::Integer | ClassId::Boolean => false,
    }
}

/// Whether an object for an entity of this type is made without a procedure, as far as it has a type.
fn is_made_without_procedure_if_any(tables: &Tables, created: Option<EntityType>) -> bool
    ensures { result ≡ judging_text.is_made_without_procedure_if_any (system_in tables.now) created }
{
    match created {
        None => true,
        Some(created) => is_made_without_procedure(tables, created.class),
    }
}

/// Whether an object for an entity of this type is made by the procedure, as far as it has a type.
fn is_made_by_if_any(tables: &Tables, created: Option<EntityType>, name: &Name) -> bool
    ensures { result ≡ judging_text.is_made_by_if_any (system_in tables.now) created (name_of name.now) }
{
    match created {
        None => true,
        Some(created) => is_made_by(tables, created.class, name),
    }
}

/// The meaning of a creation's procedure, after an entity of this type, if it has one.
fn creation_meaning<'s>(
    routine: &RoutineContext<'_, 's>,
    created: Option<EntityType>,
    name: &Name,
) -> Meaning<'s>
    ensures { meaning_in (system_in routine.now.tables.now) result
        ≡ judging_text.creation_meaning (routine_in routine.now) created (name_of name.now) }
{
    match created {
        None => Meaning::TargetUntyped,
        Some(created) => routine.qualified_meaning(created, name.as_str()),
    }
}

/// Judges the call that an object is created by.
fn judge_creation_call<'s>(
    routine: &RoutineContext<'_, 's>,
    names: &[Entity<'s>],
    created: Option<EntityType>,
    call: &CreationCall,
) -> Result<(), CheckFault>
    ensures { Passes (parts.judge_creation_call (routine_in routine.now) (map entity_of names.now) created
        (name_of call.now.name) (exprs_of call.now.actuals.items)) result }
{
    let found = routine.judged_actuals(Context::Body, names, &call.actuals)?;
    let meaning = creation_meaning(routine, created, &call.name);
    let site = CallContext {
        context: Context::Body,
        usage: Use::Instruction,
        target: &None,
        span: call.name.span,
    };
    let entity = Typing {
        entity_type: created,
        is_separate: false,
    };
    routine.judge_actuals_and_name(&site, &meaning, &found, entity)?;
    let is_made_by = is_made_by_if_any(routine.tables, created, &call.name);
    required(is_made_by, Rule::NotCreation, call.name.span)
}

/// Judges the creation of an object for an entity of this type, if it has one.
pub fn judge_creation<'s>(
    routine: &RoutineContext<'_, 's>,
    names: &[Entity<'s>],
    span: Span,
    created: Option<EntityType>,
    call: &Option<CreationCall>,
) -> Result<(), CheckFault>
    ensures { Passes (judging_text.judge_creation (routine_in routine.now) (map entity_of names.now) span created
        (creation_call_of call.now)) result }
{
    match call {
        None => {
            let is_made_without_procedure = is_made_without_procedure_if_any(
                routine.tables,
                created,
            );
            required(is_made_without_procedure, Rule::NotCreation, span)?;
            required(is_untagged(created), Rule::CreationTag, span)
        }
        Some(call) => {
            required(is_untagged(created), Rule::CreationTag, span)?;
            judge_creation_call(routine, names, created, call)
        }
    }
}
