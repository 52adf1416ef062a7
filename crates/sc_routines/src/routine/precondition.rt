//! Preconditions (ECMA-367, 8.9).

ghost use Rattle.std.specs.Prelude.{◌≡◌, ◌++◌, IfOk, OnOk, map};
ghost use Rattle.sc_tree.specs.View.{clause_of};
ghost use Rattle.sc_typing.specs.Views.{entity_of};
ghost use Rattle.sc_code.specs.Emitted.{checks_depth, clauses_code, require_code};
ghost use Rattle.sc_routines.specs.Settings.{setting_in};

use crate::code::Code;
use crate::routine::formals::formals_in;
use crate::setting::Setting;
use crate::text_sites::clause_site;
use crate::unlinked::UnlinkedOperation;
use sc_code::{Assertion, SiteKind, TextSite};
use sc_text::Span;
use sc_tree::Clause;
use sc_typing::Entity;
use std::alloc::AllocError;

/// Lowers clauses of a precondition, before the routine with this name starts, and returns how many operands they
/// need.
#[tactic(auto, unfolding(sc_tree::specs::View::clause_of))]
fn lower_demands<'s>(
    setting: &Setting<'_, 's>,
    names: &mut Vec<Entity<'s>>,
    code: &mut Code<'s>,
    name: Span,
    clauses: &'s [Clause],
) -> Result<usize, AllocError>
    ensures code { OnOk result (code.new ≡ code.old ++ clauses_code (setting_in setting.now) (map entity_of names.old.items) (map clause_of clauses.now)) }
    ensures names { OnOk result (map entity_of names.new.items ≡ map entity_of names.old.items) }
    ensures depth { IfOk result (λ d. d ≡ checks_depth (setting_in setting.now) (map entity_of names.old.items) (map clause_of clauses.now)) }
{
    let mut depth = 0;
    for clause in clauses {
        let condition = setting.lower_expr(names, 0, code, &clause.condition)?;
        let formals = formals_in(setting.context.alloc, names, clause)?;
        let site = clause_site(Assertion::Precondition, clause);
        code.push(site, UnlinkedOperation::Demand(formals))?;
        depth = condition.depth.max(depth);
    }
    let kind = SiteKind::Start;
    code.push(TextSite { span: name, kind }, UnlinkedOperation::Start)?;
    Ok(depth)
}

/// Lowers the precondition of the routine with this name, and returns how many operands it needs.
pub fn lower_precondition<'s>(
    setting: &Setting<'_, 's>,
    names: &mut Vec<Entity<'s>>,
    code: &mut Code<'s>,
    name: Span,
    clauses: &'s [Clause],
) -> Result<usize, AllocError>
    ensures code { OnOk result (code.new ≡ code.old ++ require_code (setting_in setting.now) (map entity_of names.old.items) (map clause_of clauses.now)) }
    ensures names { OnOk result (map entity_of names.new.items ≡ map entity_of names.old.items) }
    ensures depth { IfOk result (λ d. d ≡ checks_depth (setting_in setting.now) (map entity_of names.old.items) (map clause_of clauses.now)) }
{
    match clauses {
        [] => Ok(0),
        [_, ..] => lower_demands(setting, names, code, name, clauses),
    }
}
