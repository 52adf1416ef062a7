//! Creations of objects (ECMA-367, 8.20).

ghost use Rattle.std.specs.Prelude.{◌≡◌, ◌++◌, IfOk, OnOk, Some, map};
ghost use Rattle.std.specs.Option.{option_copied};
ghost use Rattle.sc_tree.specs.View.{creation_call_of, exprs_of, variable_of};
ghost use Rattle.sc_rules.specs.CallRules.{count};
ghost use Rattle.sc_rules.specs.Names.{assignee_type, qualified_meaning};
ghost use Rattle.sc_typing.specs.Views.{assignee_in, entity_of, meaning_in};
ghost use Rattle.sc_class.specs.SystemIn.{system_in};
ghost use Rattle.sc_model.specs.Creations.{formals_meant};
ghost use Rattle.sc_model.specs.Instructions as instructions;
ghost use Rattle.sc_code.specs.Emitted.{create_code};
ghost use Rattle.sc_code.specs.Emitted as emitted;
ghost use Rattle.sc_routines.specs.Parts.{created_code};
ghost use Rattle.sc_routines.specs.Settings.{setting_in};
ghost use Rattle.sc_routines.specs.Told.{creation_depth};

use crate::calls::types_pass;
use crate::code::Code;
use crate::instructions::assignment::{assignee_at, push_store};
use crate::instructions::needs::Needs;
use crate::setting::Setting;
use crate::unlinked::{UnlinkedCreation, UnlinkedOperation};
use sc_class::{ClassId, Tables};
use sc_code::{SiteKind, TextSite};
use sc_rules::entity_types::{EntityType, Tag};
use sc_text::Span;
use sc_tree::{CreationCall, Expr, Variable};
use sc_typing::{Assignee, Entity, Meaning};
use std::alloc::AllocError;

/// The type of what is created, if it has one.
fn created_type(assigned: Assignee) -> Option<EntityType>
    ensures { result ≡ assignee_type (assignee_in assigned) }
{
    match assigned {
        Assignee::Unknown | Assignee::NotAssignable => None,
        Assignee::Local(entity_type) | Assignee::Attribute(entity_type) => entity_type,
    }
}

/// The name of the creation procedure, if there is one.
fn procedure_of<'s>(call: &'s Option<CreationCall>) -> Option<&'s str>
    ensures { option_copied result ≡ instructions.procedure_of (creation_call_of call.now) }
{
    match call {
        None => None,
        Some(call) => Some(call.name.as_str()),
    }
}

/// The actuals of the creation procedure.
fn actuals_of<'s>(call: &'s Option<CreationCall>) -> &'s [Expr]
    ensures { exprs_of result.now ≡ instructions.actuals_of (creation_call_of call.now) }
{
    match call {
        None => &[],
        Some(call) => &call.actuals,
    }
}

/// Whether locks are passed to what is called with actuals of these types.
fn passes_to(tables: &Tables, meaning: Meaning, types: &[EntityType]) -> bool
    ensures { result ≡ emitted.types_pass (formals_meant (meaning_in (system_in tables.now) meaning.entry)) types.now }
{
    match meaning {
        Meaning::Unknown | Meaning::TargetUntyped => false,
        Meaning::Named(signature) => types_pass(tables, signature.formals, types),
    }
}

/// Whether the creation procedure is called with lock passing.
fn creation_passes(
    setting: &Setting,
    created: EntityType,
    procedure: Option<&str>,
    types: &[EntityType],
) -> bool
    ensures { result ≡ emitted.creation_passes (setting_in setting.now) created (option_copied procedure.entry) types.now }
{
    match procedure {
        None => false,
        Some(name) => {
            let meaning = setting.context.qualified_meaning(created, name);
            passes_to(setting.context.tables, meaning, types)
        }
    }
}

/// Adds the operation that makes an object of this type.
fn push_creation_of<'s>(
    setting: &Setting<'_, 's>,
    code: &mut Code<'s>,
    site: TextSite,
    procedure: Option<&'s str>,
    count: usize,
    types: &[EntityType],
    created: EntityType,
) -> Result<(), AllocError>
    ensures { OnOk result (code.new ≡ code.old ++ create_code (setting_in setting.now) (option_copied procedure.entry) count types.now (Some created)) }
{
    let ClassId::Declared(class) = created.class else {
        return Ok(());
    };
    match created.tag {
        Tag::With(_) | Tag::None => Ok(()),
        Tag::Own => code.push(
            site,
            UnlinkedOperation::Create(UnlinkedCreation {
                class,
                procedure,
                count,
                passes: false,
            }),
        ),
        Tag::Any => code.push(
            site,
            UnlinkedOperation::CreateHandler(UnlinkedCreation {
                class,
                procedure,
                count,
                passes: creation_passes(setting, created, procedure, types),
            }),
        ),
    }
}

/// Adds the operation that makes an object of this type, if there is one.
fn push_creation<'s>(
    setting: &Setting<'_, 's>,
    code: &mut Code<'s>,
    site: TextSite,
    procedure: Option<&'s str>,
    count: usize,
    types: &[EntityType],
    created: Option<EntityType>,
) -> Result<(), AllocError>
    ensures { OnOk result (code.new ≡ code.old ++ create_code (setting_in setting.now) (option_copied procedure.entry) count types.now created) }
{
    match created {
        None => Ok(()),
        Some(created) => { push_creation_of(setting, code, site, procedure, count, types, created) }
    }
}

/// Lowers a creation: its actuals, the creation itself, and the assignment of the object.
pub fn lower_creation<'s>(
    setting: &Setting<'_, 's>,
    names: &mut Vec<Entity<'s>>,
    code: &mut Code<'s>,
    span: Span,
    variable: &'s Variable,
    call: &'s Option<CreationCall>,
) -> Result<Needs, AllocError>
    ensures code { let h = setting_in setting.now in let n = map entity_of names.old.items in
        OnOk result (code.new ≡ code.old ++ created_code h n (variable_of variable.now) (creation_call_of call.now)) }
    ensures names { OnOk result (map entity_of names.new.items ≡ map entity_of names.old.items) }
    ensures depth { IfOk result (λ n. n.depth ≡ creation_depth (setting_in setting.now) (map entity_of names.old.items) (creation_call_of call.now)) }
    ensures slots { IfOk result (λ n. n.slots ≡ 0) }
    ensures blocks { IfOk result (λ n. n.blocks ≡ 0) }
{
    let actuals = actuals_of(call);
    let lowered = setting.lower_actuals(names, 0, code, actuals)?;
    let created = created_type(assignee_at(setting, names, variable));
    let kind = SiteKind::Creation;
    push_creation(
        setting,
        code,
        TextSite { span, kind },
        procedure_of(call),
        actuals.len(),
        &lowered.types,
        created,
    )?;
    let kind = SiteKind::Created;
    push_store(setting, names, code, TextSite { span, kind }, variable)?;
    Ok(Needs::of_operands(lowered.depth.max(1)))
}
