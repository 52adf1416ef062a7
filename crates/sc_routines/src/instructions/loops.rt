//! Ends of loops (ECMA-367, 8.17).

ghost use Rattle.std.specs.Prelude.{◌≡◌, ◌<◌, ◌+◌, ◌-◌, ◌++◌, [], ◌∷◌, IfOk, OnOk, length, map};
ghost use Rattle.sc_tree.specs.View.{expr_of};
ghost use Rattle.sc_typing.specs.Views.{entity_of};
ghost use Rattle.sc_code.specs.Emitted.{expr_code, expr_depth};
ghost use Rattle.sc_routines.specs.Jumps.{looped};
ghost use Rattle.sc_routines.specs.Settings.{setting_in};

use crate::code::Code;
use crate::instructions::needs::Needs;
use crate::setting::Setting;
use crate::unlinked::UnlinkedOperation;
use sc_code::{SiteKind, TextSite};
use sc_tree::Expr;
use sc_typing::Entity;
use std::alloc::AllocError;

/// Lowers the condition of a loop after its body, which follows the jump at this place. The jump goes to the
/// condition, and the end of the loop back to the body.
pub fn end_loop<'s>(
    setting: &Setting<'_, 's>,
    names: &mut Vec<Entity<'s>>,
    code: &mut Code<'s>,
    jump: usize,
    until: &'s Expr,
) -> Result<Needs, AllocError>
    requires { jump < length code.old }
    ensures code { OnOk result (code.new ≡ looped jump (expr_code (setting_in setting.now) (map entity_of names.old.items) 0 (expr_of until.now)) code.old) }
    ensures names { OnOk result (map entity_of names.new.items ≡ map entity_of names.old.items) }
    ensures depth { IfOk result (λ n. n.depth ≡ expr_depth (setting_in setting.now) (map entity_of names.old.items) 0 (expr_of until.now)) }
    ensures slots { IfOk result (λ n. n.slots ≡ 0) }
    ensures blocks { IfOk result (λ n. n.blocks ≡ 0) }
{
    let ahead = code.len() - jump - 1;
    let span = until.span();
    let until = setting.lower_expr(names, 0, code, until)?;
    let back = code.len() - jump - 1;
    let kind = SiteKind::Until;
    code.push(TextSite { span, kind }, UnlinkedOperation::EndLoop(back))?;
    code.set(jump, UnlinkedOperation::Jump(ahead));
    Ok(Needs::of_operands(until.depth))
}
