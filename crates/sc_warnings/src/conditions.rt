//! Conditions that are constant.

ghost use Rattle.std.specs.Prelude.{◌≡◌, ◌++◌, OnOk, map};
ghost use Rattle.std.specs.List.{flat_map};
ghost use Rattle.sc_tree.specs.View.{clause_of, expr_of};
ghost use Rattle.sc_warnings.specs.Warnings as spec;
ghost use Rattle.sc_warnings.specs.Views.{site_of};

use crate::sites::Site;
use crate::warning::{Warning, WarningKind};
use sc_text::Span;
use sc_tree::{Clause, Expr};
use std::alloc::AllocError;

/// Adds a warning, if it is one.
pub fn add_if(
    is_one: bool,
    kind: WarningKind,
    span: Span,
    warnings: &mut Vec<Warning>,
) -> Result<(), AllocError>
    ensures { OnOk result (warnings.new.items ≡ warnings.old.items ++ spec.warn_if is_one kind span) }
{
    if !is_one {
        return Ok(());
    }
    warnings.push(Warning { kind, span })?;
    Ok(())
}

/// Whether an expression has neither a name nor a call in it.
#[tactic(auto, unfolding(crate::specs::Warnings::is_constant, sc_tree::specs::View::expr_of))]
fn is_constant(e: &Expr) -> bool
    ensures { result ≡ spec.is_constant (expr_of e.now) }
{
    match e {
        Expr::Integer(_, _) | Expr::Boolean(_, _) | Expr::Void(_) => true,
        Expr::Current(_) | Expr::Result(_) => false,
        Expr::Call(_) | Expr::ObjectTest(_, _, _, _) => false,
        Expr::Unary(_, _, operand) => is_constant(operand),
        Expr::Binary(_, _, left, right) => is_constant(left) && is_constant(right),
    }
}

/// Whether an expression is `False`.
#[tactic(auto, unfolding(sc_tree::specs::View::expr_of))]
fn is_false(e: &Expr) -> bool
    ensures { result ≡ spec.is_false (expr_of e.now) }
{
    match e {
        Expr::Boolean(_, value) => !*value,
        Expr::Integer(_, _) | Expr::Void(_) => false,
        Expr::Current(_) | Expr::Result(_) | Expr::Call(_) => false,
        Expr::Unary(_, _, _) | Expr::Binary(_, _, _, _) | Expr::ObjectTest(_, _, _, _) => false,
    }
}

/// Whether a condition that ends a loop is constant, and isn't `False`.
fn is_constant_end(e: &Expr) -> bool
    ensures { result ≡ spec.is_constant_end (expr_of e.now) }
{
    is_constant(e) && !is_false(e)
}

/// What is warned of at a clause of a `check` that is constant.
fn kind_of_check(e: &Expr) -> WarningKind
    ensures { result ≡ spec.kind_of_check (expr_of e.now) }
{
    if is_false(e) {
        WarningKind::CheckFalse
    } else {
        WarningKind::ConstantCondition
    }
}

/// Adds the warning of a condition that is constant.
fn add_warnings_at(site: &Site, warnings: &mut Vec<Warning>) -> Result<(), AllocError>
    ensures { OnOk result (warnings.new.items ≡ warnings.old.items ++ spec.warnings_at (site_of site.now)) }
{
    match site {
        Site::Condition(e) => add_if(
            is_constant(e),
            WarningKind::ConstantCondition,
            e.span(),
            warnings,
        ),
        Site::Until(e) => add_if(
            is_constant_end(e),
            WarningKind::ConstantCondition,
            e.span(),
            warnings,
        ),
        Site::Checked(e) => add_if(is_constant(e), kind_of_check(e), e.span(), warnings),
        Site::Used(_) | Site::Asked(_) | Site::Passed(_, _, _) => Ok(()),
    }
}

/// Adds the warnings of the conditions of a body.
pub fn add_conditions(sites: &[Site], warnings: &mut Vec<Warning>) -> Result<(), AllocError>
    ensures { OnOk result (warnings.new.items
        ≡ warnings.old.items ++ flat_map spec.warnings_at (map site_of sites.now)) }
{
    for site in sites {
        add_warnings_at(site, warnings)?;
    }
    Ok(())
}

/// Adds the warning of a clause that is constant.
#[tactic(auto, unfolding(sc_tree::specs::View::clause_of))]
pub fn add_clause(clause: &Clause, warnings: &mut Vec<Warning>) -> Result<(), AllocError>
    ensures { OnOk result (warnings.new.items ≡ warnings.old.items ++ spec.warnings_of_clause (clause_of clause.now)) }
{
    add_if(
        is_constant(&clause.condition),
        WarningKind::ConstantCondition,
        clause.condition.span(),
        warnings,
    )
}

/// Adds the warnings of clauses that are constant.
pub fn add_clause_warnings(
    clauses: &[Clause],
    warnings: &mut Vec<Warning>,
) -> Result<(), AllocError>
    ensures { OnOk result (warnings.new.items
        ≡ warnings.old.items ++ flat_map spec.warnings_of_clause (map clause_of clauses.now)) }
{
    for clause in clauses {
        add_clause(clause, warnings)?;
    }
    Ok(())
}
