//! Calls that are instructions (ECMA-367, 8.23), and `print`.

ghost use Rattle.std.specs.Prelude.{◌≡◌, ◌++◌, [], IfOk, OnOk, map, max, suc};
ghost use Rattle.sc_tree.specs.View.{expr_of, exprs_of, instr_of, name_of};
ghost use Rattle.sc_tree.specs.declared.instruction.Instr.TheVariants as instr;
ghost use Rattle.sc_rules.specs.CallRules.{count};
ghost use Rattle.sc_typing.specs.Views.{entity_of};
ghost use Rattle.sc_code.specs.Places.{exprs_types};
ghost use Rattle.sc_code.specs.Emitted.{expr_depth, exprs_code, exprs_depth, instr_code, instr_depth};
ghost use Rattle.sc_routines.specs.Parts.{own_call_code, qualified_call_code};
ghost use Rattle.sc_routines.specs.Settings.{setting_in};

use crate::code::Code;
use crate::instructions::needs::Needs;
use crate::setting::Setting;
use crate::text_sites::call_site;
use crate::unlinked::UnlinkedOperation;
use sc_code::{SiteKind, TextSite};
use sc_rules::entity_types::EntityType;
use sc_tree::{Call, Expr, Name};
use sc_typing::Entity;
use std::alloc::AllocError;

/// Adds the operation of `print`, or that of a call of a routine of Current with actuals of these types.
fn push_own_call<'s>(
    setting: &Setting<'_, 's>,
    code: &mut Code<'s>,
    site: TextSite,
    name: &'s Name,
    types: &[EntityType],
    count: usize,
) -> Result<(), AllocError>
    ensures { OnOk result (code.new ≡ code.old ++ own_call_code (setting_in setting.now) (name_of name.now).text [] count types.now) }
{
    if name.is_print() {
        let kind = SiteKind::Print;
        let span = site.span;
        code.push(TextSite { span, kind }, UnlinkedOperation::Print)
    } else {
        setting.push_routine_call(code, site, name.as_str(), types, count)
    }
}

/// Lowers `print` of a value, or a call of a routine of Current.
fn lower_own_call<'s>(
    setting: &Setting<'_, 's>,
    names: &mut Vec<Entity<'s>>,
    code: &mut Code<'s>,
    site: TextSite,
    name: &'s Name,
    actuals: &'s [Expr],
) -> Result<Needs, AllocError>
    ensures code { let h = setting_in setting.now in let n = map entity_of names.old.items in let es = exprs_of actuals.now in
        OnOk result (code.new ≡ code.old ++ own_call_code h (name_of name.now).text (exprs_code h n 0 es) (count es) (exprs_types h n 0 es)) }
    ensures names { OnOk result (map entity_of names.new.items ≡ map entity_of names.old.items) }
    ensures depth { IfOk result (λ n. n.depth ≡ exprs_depth (setting_in setting.now) (map entity_of names.old.items) 0 (exprs_of actuals.now)) }
    ensures slots { IfOk result (λ n. n.slots ≡ 0) }
    ensures blocks { IfOk result (λ n. n.blocks ≡ 0) }
{
    let lowered = setting.lower_actuals(names, 0, code, actuals)?;
    push_own_call(setting, code, site, name, &lowered.types, actuals.len())?;
    Ok(Needs::of_operands(lowered.depth))
}

/// Lowers a call on a target.
fn lower_qualified_call<'s>(
    setting: &Setting<'_, 's>,
    names: &mut Vec<Entity<'s>>,
    code: &mut Code<'s>,
    call: &'s Call,
    target: &'s Expr,
) -> Result<Needs, AllocError>
    ensures code { let h = setting_in setting.now in let n = map entity_of names.old.items in
        OnOk result (code.new ≡ code.old ++ qualified_call_code h n (expr_of target.now) (name_of call.now.name).text (exprs_of call.now.actuals.items)) }
    ensures names { OnOk result (map entity_of names.new.items ≡ map entity_of names.old.items) }
    ensures depth { IfOk result (λ n. n.depth ≡ max (expr_depth (setting_in setting.now) (map entity_of names.old.items) 0 (expr_of target.now))
        (suc (exprs_depth (setting_in setting.now) (map entity_of names.old.items) 0 (exprs_of call.now.actuals.items)))) }
    ensures slots { IfOk result (λ n. n.slots ≡ 0) }
    ensures blocks { IfOk result (λ n. n.blocks ≡ 0) }
{
    let target = setting.lower_expr(names, 0, code, target)?;
    let actuals = setting.lower_actuals(names, 0, code, &call.actuals)?;
    let called = setting.close_feature_call(code, call, target, &actuals)?;
    Ok(Needs::of_operands(called.depth))
}

/// Lowers a call that is an instruction.
#[tactic(auto, unfolding(sc_tree::specs::View::instr_of))]
pub fn lower_call_instruction<'s>(
    setting: &Setting<'_, 's>,
    names: &mut Vec<Entity<'s>>,
    code: &mut Code<'s>,
    call: &'s Call,
) -> Result<Needs, AllocError>
    ensures code { OnOk result (code.new ≡ code.old ++ instr_code (setting_in setting.now) (map entity_of names.old.items) (instr_of (instr.Call call.now))) }
    ensures names { OnOk result (map entity_of names.new.items ≡ map entity_of names.old.items) }
    ensures depth { IfOk result (λ n. n.depth ≡ instr_depth (setting_in setting.now) (map entity_of names.old.items) (instr_of (instr.Call call.now))) }
    ensures slots { IfOk result (λ n. n.slots ≡ 0) }
    ensures blocks { IfOk result (λ n. n.blocks ≡ 0) }
{
    match &call.target {
        None => {
            let site = call_site(call);
            lower_own_call(setting, names, code, site, &call.name, &call.actuals)
        }
        Some(target) => lower_qualified_call(setting, names, code, call, target),
    }
}
