//! Assignments (ECMA-367, 8.22).

ghost use Rattle.std.specs.Prelude.{◌≡◌, ◌++◌, IfOk, OnOk, map};
ghost use Rattle.sc_tree.specs.Plain.{Named, ResultVariable};
ghost use Rattle.sc_tree.specs.View.{expr_of, name_of, variable_of};
ghost use Rattle.sc_rules.specs.Names.{assignee};
ghost use Rattle.sc_typing.specs.Views.{assignee_in, entity_of};
ghost use Rattle.sc_code.specs.Places.{here};
ghost use Rattle.sc_code.specs.Emitted.{assign_code, store_code, expr_code, expr_depth};
ghost use Rattle.sc_routines.specs.Parts.{stored_code};
ghost use Rattle.sc_routines.specs.Settings.{setting_in};

use crate::code::Code;
use crate::instructions::needs::Needs;
use crate::known_names::slot_named;
use crate::setting::Setting;
use crate::unlinked::UnlinkedOperation;
use sc_code::{SiteKind, TextSite};
use sc_text::Span;
use sc_tree::{Expr, Name, Variable};
use sc_typing::{Assignee, Entity};
use std::alloc::AllocError;

/// What the left side of an assignment, or the entity of a creation, means.
pub fn assignee_at(setting: &Setting, names: &[Entity], variable: &Variable) -> Assignee
    ensures { assignee_in result ≡ assignee (here (setting_in setting.now)) (map entity_of names.now) (variable_of variable.now) }
{
    setting.context.assignee(names, variable)
}

/// Adds the operation that assigns to a name.
fn push_store_to_name<'s>(
    names: &[Entity<'s>],
    code: &mut Code<'s>,
    site: TextSite,
    name: &'s Name,
    assigned: Assignee,
) -> Result<(), AllocError>
    ensures { OnOk result (code.new ≡ code.old ++ stored_code (Named (name_of name.now)) (assignee_in assigned) (map entity_of names.now)) }
{
    match assigned {
        Assignee::Unknown | Assignee::NotAssignable => Ok(()),
        Assignee::Attribute(_) => {
            code.push(site, UnlinkedOperation::StoreAttribute(name.as_str()))
        }
        Assignee::Local(_) => match slot_named(name.as_str(), names) {
            None => Ok(()),
            Some((slot, _)) => code.push(site, UnlinkedOperation::StoreSlot(slot)),
        },
    }
}

/// Adds the operation that assigns to Result.
fn push_store_to_result(
    code: &mut Code,
    site: TextSite,
    span: Span,
    assigned: Assignee,
) -> Result<(), AllocError>
    ensures { OnOk result (code.new ≡ code.old ++ store_code (ResultVariable span) (assignee_in assigned) None) }
{
    match assigned {
        Assignee::Local(Some(_)) => code.push(site, UnlinkedOperation::StoreResult),
        Assignee::Local(None) => Ok(()),
        Assignee::Unknown | Assignee::NotAssignable | Assignee::Attribute(_) => Ok(()),
    }
}

/// Adds the operation by which the last value becomes the variable's.
pub fn push_store<'s>(
    setting: &Setting<'_, 's>,
    names: &[Entity<'s>],
    code: &mut Code<'s>,
    site: TextSite,
    variable: &'s Variable,
) -> Result<(), AllocError>
    ensures { OnOk result (code.new ≡ code.old ++ assign_code (setting_in setting.now) (map entity_of names.now) (variable_of variable.now)) }
{
    let assigned = assignee_at(setting, names, variable);
    match variable {
        Variable::Named(name) => push_store_to_name(names, code, site, name, assigned),
        Variable::Result(span) => push_store_to_result(code, site, *span, assigned),
    }
}

/// Lowers an assignment.
pub fn lower_assignment<'s>(
    setting: &Setting<'_, 's>,
    names: &mut Vec<Entity<'s>>,
    code: &mut Code<'s>,
    span: Span,
    variable: &'s Variable,
    value: &'s Expr,
) -> Result<Needs, AllocError>
    ensures code { OnOk result (code.new ≡ code.old ++ (expr_code (setting_in setting.now) (map entity_of names.old.items) 0 (expr_of value.now)
        ++ assign_code (setting_in setting.now) (map entity_of names.old.items) (variable_of variable.now))) }
    ensures names { OnOk result (map entity_of names.new.items ≡ map entity_of names.old.items) }
    ensures depth { IfOk result (λ n. n.depth ≡ expr_depth (setting_in setting.now) (map entity_of names.old.items) 0 (expr_of value.now)) }
    ensures slots { IfOk result (λ n. n.slots ≡ 0) }
    ensures blocks { IfOk result (λ n. n.blocks ≡ 0) }
{
    let value = setting.lower_expr(names, 0, code, value)?;
    let kind = SiteKind::Assignment;
    push_store(setting, names, code, TextSite { span, kind }, variable)?;
    Ok(Needs::of_operands(value.depth))
}
