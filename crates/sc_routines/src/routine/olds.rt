//! The values that a postcondition compares with (ECMA-367, 8.9).

ghost use Rattle.std.specs.Prelude.{◌≡◌, ◌++◌, IfOk, OnOk, map};
ghost use Rattle.sc_tree.specs.View.{clause_of};
ghost use Rattle.sc_typing.specs.Views.{entity_of};
ghost use Rattle.sc_model.specs.Olds as model;
ghost use Rattle.sc_code.specs.Emitted.{olds_code, olds_depth};
ghost use Rattle.sc_routines.specs.Settings.{operands_of, setting_in, with_olds};

use crate::code::Code;
use crate::leaves::push_type;
use crate::olds::{OldValue, add_olds};
use crate::setting::Setting;
use crate::unlinked::UnlinkedOperation;
use sc_code::{SiteKind, TextSite};
use sc_tree::Clause;
use sc_typing::Entity;
use std::alloc::{AllocError, Global};

/// The operands of `old` in a postcondition, in the order of the text.
#[tactic(auto, unfolding(sc_tree::specs::View::clause_of))]
pub fn olds_of_clauses<'s>(
    alloc: Global,
    clauses: &'s [Clause],
) -> Result<Vec<OldValue<'s>>, AllocError>
    ensures { IfOk result (λ olds. operands_of olds.items ≡ model.olds_of_clauses (map clause_of clauses.now)) }
{
    let mut olds = Vec::new(alloc);
    for clause in clauses {
        add_olds(&mut olds, &clause.condition)?;
    }
    Ok(olds)
}

/// Lowers the operands of `old`, whose values are kept, and gives how many operands they need. Their types join those of
/// the setting.
pub fn lower_olds<'s>(
    setting: &mut Setting<'_, 's>,
    names: &mut Vec<Entity<'s>>,
    code: &mut Code<'s>,
    olds: &[OldValue<'s>],
) -> Result<usize, AllocError>
    ensures code { OnOk result (code.new ≡ code.old ++ olds_code (setting_in setting.old) (map entity_of names.old.items) (operands_of olds.now)) }
    ensures names { OnOk result (map entity_of names.new.items ≡ map entity_of names.old.items) }
    ensures setting { OnOk result (setting_in setting.new ≡ with_olds (setting_in setting.old) (map entity_of names.old.items) (operands_of olds.now)) }
    ensures depth { IfOk result (λ d. d ≡ olds_depth (setting_in setting.old) (map entity_of names.old.items) (operands_of olds.now)) }
{
    let mut depth = 0;
    for kept in olds {
        let value = setting.lower_expr(names, 0, code, kept.operand)?;
        let (span, kind) = (kept.span, SiteKind::Keep);
        code.push(TextSite { span, kind }, UnlinkedOperation::KeepOld)?;
        push_type(&mut setting.olds, value.value)?;
        depth = value.depth.max(depth);
    }
    Ok(depth)
}
