//! The locals and the body of a routine (ECMA-367, 8.8 and 8.19).

ghost use Rattle.std.specs.Prelude.{◌≡◌, ◌+◌, ◌++◌, IfOk, OnOk, length, map, max};
ghost use Rattle.sc_tree.specs.View.{declaration_of, instrs_of};
ghost use Rattle.sc_typing.specs.Views.{entity_of};
ghost use Rattle.sc_model.specs.Environments.{scope_of};
ghost use Rattle.sc_code.specs.Emitted.{declare_code, instrs_code, instrs_depth, instrs_slots};
ghost use Rattle.sc_code.specs.Room.{instrs_blocks};
ghost use Rattle.sc_routines.specs.Settings.{bound_locals, locals_in, setting_in};

use crate::code::Code;
use crate::instructions::lower_instructions;
use crate::instructions::needs::Needs;
use crate::setting::Setting;
use crate::unlinked::UnlinkedOperation;
use sc_class::Tables;
use sc_code::{DefaultValue, SiteKind, TextSite};
use sc_rules::Role;
use sc_tree::{Declaration, Instr};
use sc_typing::{Entity, declared_type};
use std::alloc::AllocError;

/// Lowers the defaults of the locals of a routine with these formals, and makes the locals known.
fn lower_locals<'s>(
    tables: &Tables,
    formals: &[Declaration],
    names: &mut Vec<Entity<'s>>,
    code: &mut Code<'s>,
    locals: &'s [Declaration],
) -> Result<(), AllocError>
    ensures code { OnOk result (code.new ≡ code.old ++ declare_code (length (map entity_of names.old.items)) (locals_in tables.now formals.now locals.now)) }
    ensures names { OnOk result (map entity_of names.new.items ≡ map entity_of names.old.items ++ scope_of (locals_in tables.now formals.now locals.now)) }
{
    for local in locals {
        if let Some(entity_type) = declared_type(tables, formals, &local.declared_type) {
            let kind = SiteKind::Local;
            let span = local.name.span;
            code.push(
                TextSite { span, kind },
                UnlinkedOperation::Initialize {
                    slot: names.len(),
                    value: DefaultValue::of(entity_type.class),
                },
            )?;
            names.push(Entity {
                name: local.name.as_str(),
                entity_type: Some(entity_type),
                role: Role::Local,
            })?;
        }
    }
    Ok(())
}

/// Lowers the defaults of a routine's locals and its body, where the formals are known.
pub fn lower_body<'s>(
    setting: &Setting<'_, 's>,
    names: &mut Vec<Entity<'s>>,
    code: &mut Code<'s>,
    locals: &'s [Declaration],
    body: &'s [Instr],
) -> Result<Needs, AllocError>
    ensures code { let h = setting_in setting.now in let n = map entity_of names.old.items in let ls = bound_locals h (map declaration_of locals.now) in
        OnOk result (code.new ≡ code.old ++ (declare_code (length n) ls ++ instrs_code h (n ++ scope_of ls) (instrs_of body.now))) }
    ensures names { OnOk result (map entity_of names.new.items ≡ map entity_of names.old.items) }
    ensures depth { let h = setting_in setting.now in let n = map entity_of names.old.items in let ls = bound_locals h (map declaration_of locals.now) in
        IfOk result (λ l. l.depth ≡ instrs_depth h (n ++ scope_of ls) (instrs_of body.now)) }
    ensures slots { let h = setting_in setting.now in let n = map entity_of names.old.items in let ls = bound_locals h (map declaration_of locals.now) in
        IfOk result (λ l. l.slots ≡ max (length n + length ls) (instrs_slots h (n ++ scope_of ls) (instrs_of body.now))) }
    ensures blocks { IfOk result (λ l. l.blocks ≡ instrs_blocks (instrs_of body.now)) }
{
    let formals = names.len();
    lower_locals(
        setting.context.tables,
        setting.context.formals,
        names,
        code,
        locals,
    )?;
    let declared = names.len();
    let needs = lower_instructions(setting, names, code, body)?;
    names.truncate(formals);
    Ok(Needs {
        depth: needs.depth,
        slots: declared.max(needs.slots),
        blocks: needs.blocks,
    })
}
