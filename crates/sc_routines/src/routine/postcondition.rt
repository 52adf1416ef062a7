//! Postconditions (ECMA-367, 8.9).

ghost use Rattle.std.specs.Prelude.{◌≡◌, ◌++◌, IfOk, OnOk, map};
ghost use Rattle.sc_tree.specs.View.{clause_of};
ghost use Rattle.sc_typing.specs.Views.{entity_of};
ghost use Rattle.sc_code.specs.Emitted.{clauses_depth, ensure_code};
ghost use Rattle.sc_routines.specs.Settings.{setting_in};

use crate::code::Code;
use crate::setting::Setting;
use crate::text_sites::clause_site;
use crate::unlinked::UnlinkedOperation;
use sc_code::Assertion;
use sc_model::Cause;
use sc_tree::Clause;
use sc_typing::Entity;
use std::alloc::AllocError;

/// Lowers a postcondition, and gives how many operands it needs.
#[tactic(auto, unfolding(sc_tree::specs::View::clause_of))]
pub fn lower_postcondition<'s>(
    setting: &Setting<'_, 's>,
    names: &mut Vec<Entity<'s>>,
    code: &mut Code<'s>,
    clauses: &'s [Clause],
) -> Result<usize, AllocError>
    ensures code { OnOk result (code.new ≡ code.old ++ ensure_code (setting_in setting.now) (map entity_of names.old.items) 0 (map clause_of clauses.now)) }
    ensures names { OnOk result (map entity_of names.new.items ≡ map entity_of names.old.items) }
    ensures depth { IfOk result (λ d. d ≡ clauses_depth (setting_in setting.now) (map entity_of names.old.items) 0 (map clause_of clauses.now)) }
{
    let mut olds = 0;
    let mut depth = 0;
    for clause in clauses {
        let condition = setting.lower_expr(names, olds, code, &clause.condition)?;
        let site = clause_site(Assertion::Postcondition, clause);
        code.push(site, UnlinkedOperation::Expect(Cause::Postcondition))?;
        olds = condition.olds;
        depth = condition.depth.max(depth);
    }
    Ok(depth)
}
