//! `check` instructions (ECMA-367, 8.9).

ghost use Rattle.std.specs.Prelude.{◌≡◌, ◌++◌, IfOk, OnOk, map};
ghost use Rattle.sc_tree.specs.View.{clause_of};
ghost use Rattle.sc_typing.specs.Views.{entity_of};
ghost use Rattle.sc_code.specs.Emitted.{checks_code, checks_depth};
ghost use Rattle.sc_routines.specs.Settings.{setting_in};

use crate::code::Code;
use crate::instructions::needs::Needs;
use crate::setting::Setting;
use crate::text_sites::clause_site;
use crate::unlinked::UnlinkedOperation;
use sc_code::Assertion;
use sc_model::Cause;
use sc_tree::Clause;
use sc_typing::Entity;
use std::alloc::AllocError;

/// Lowers the clauses of a `check`.
#[tactic(auto, unfolding(sc_tree::specs::View::clause_of))]
pub fn lower_checks<'s>(
    setting: &Setting<'_, 's>,
    names: &mut Vec<Entity<'s>>,
    code: &mut Code<'s>,
    clauses: &'s [Clause],
) -> Result<Needs, AllocError>
    ensures code { OnOk result (code.new ≡ code.old ++ checks_code (setting_in setting.now) (map entity_of names.old.items) (map clause_of clauses.now)) }
    ensures names { OnOk result (map entity_of names.new.items ≡ map entity_of names.old.items) }
    ensures depth { IfOk result (λ n. n.depth ≡ checks_depth (setting_in setting.now) (map entity_of names.old.items) (map clause_of clauses.now)) }
    ensures slots { IfOk result (λ n. n.slots ≡ 0) }
    ensures blocks { IfOk result (λ n. n.blocks ≡ 0) }
{
    let mut depth = 0;
    for clause in clauses {
        let condition = setting.lower_expr(names, 0, code, &clause.condition)?;
        let site = clause_site(Assertion::Check, clause);
        code.push(site, UnlinkedOperation::Expect(Cause::Check))?;
        depth = condition.depth.max(depth);
    }
    Ok(Needs::of_operands(depth))
}
