//! Clauses that are never waited for.

ghost use Rattle.std.specs.Prelude.{◌≡◌, ◌++◌, OnOk, map};
ghost use Rattle.std.specs.List.{flat_map, list_any};
ghost use Rattle.sc_tree.specs.View.{clause_of, declaration_of};
ghost use Rattle.sc_warnings.specs.Warnings as spec;
ghost use Rattle.sc_warnings.specs.Views.{site_of};

use crate::conditions::{add_clause, add_if};
use crate::routines::is_separate;
use crate::sites::{Site, add_expression, has};
use crate::warning::{Warning, WarningKind};
use sc_tree::{Clause, Declaration};
use std::alloc::{AllocError, Global};

/// Whether a clause names a separate formal.
fn is_named(clause: &[Site], formal: &Declaration) -> bool
    ensures { result ≡ spec.is_named (map site_of clause.now) (declaration_of formal.now) }
{
    is_separate(&formal.declared_type) && has(Site::Used(formal.name.as_str()), clause)
}

/// Whether a clause calls a feature on a separate formal.
fn is_asked(clause: &[Site], formal: &Declaration) -> bool
    ensures { result ≡ spec.is_asked (map site_of clause.now) (declaration_of formal.now) }
{
    is_separate(&formal.declared_type) && has(Site::Asked(formal.name.as_str()), clause)
}

/// Whether a clause calls a feature on one of these formals that is separate.
fn asks_some(clause: &[Site], formals: &[Declaration]) -> bool
    ensures { result ≡ list_any (spec.is_asked (map site_of clause.now)) (map declaration_of formals.now) }
{
    for formal in formals {
        if is_asked(clause, formal) {
            return true;
        }
    }
    false
}

/// Whether each caller of a feature of this name has reserved the handler of the actual of this number.
fn is_always_reserved(calls: &[Site], feature: &str, index: usize) -> bool
    ensures { result ≡ spec.is_always_reserved (map site_of calls.now) feature.now index }
{
    has(Site::Passed(feature, index, true), calls)
        && !has(Site::Passed(feature, index, false), calls)
}

/// Whether each caller has reserved the handler of the formal of this number, if a clause names it.
fn is_reserved_if_named(
    calls: &[Site],
    feature: &str,
    index: usize,
    clause: &[Site],
    formal: &Declaration,
) -> bool
    ensures { result ≡ spec.is_reserved_if_named (map site_of calls.now) feature.now index (map site_of clause.now)
        (declaration_of formal.now) }
{
    !is_named(clause, formal) || is_always_reserved(calls, feature, index)
}

/// Whether each caller has reserved the handlers of the formals that a clause names.
fn are_reserved(calls: &[Site], feature: &str, formals: &[Declaration], clause: &[Site]) -> bool
    ensures { result ≡ spec.are_reserved (map site_of calls.now) feature.now 0 (map declaration_of formals.now)
        (map site_of clause.now) }
{
    for index in 0..formals.len() {
        if !is_reserved_if_named(calls, feature, index, clause, &formals[index]) {
            return false;
        }
    }
    true
}

/// Whether a clause asks separate formals, and each caller has reserved their handlers.
fn never_waits(calls: &[Site], feature: &str, formals: &[Declaration], clause: &[Site]) -> bool
    ensures { result ≡ spec.never_waits (map site_of calls.now) feature.now (map declaration_of formals.now)
        (map site_of clause.now) }
{
    asks_some(clause, formals) && are_reserved(calls, feature, formals, clause)
}

/// Adds the warning of a clause that is never waited for.
#[tactic(auto, unfolding(sc_tree::specs::View::clause_of))]
fn add_waiting(
    alloc: Global,
    calls: &[Site],
    feature: &str,
    formals: &[Declaration],
    clause: &Clause,
    warnings: &mut Vec<Warning>,
) -> Result<(), AllocError>
    ensures { OnOk result (warnings.new.items ≡ warnings.old.items ++ spec.warnings_of_waiting (map site_of calls.now)
        feature.now (map declaration_of formals.now) (clause_of clause.now)) }
{
    let mut sites = Vec::new(alloc);
    add_expression(&[], &clause.condition, &mut sites)?;
    let never_waits = never_waits(calls, feature, formals, &sites);
    add_if(
        never_waits,
        WarningKind::NeverWaits,
        clause.condition.span(),
        warnings,
    )
}

/// Adds the warnings of the clauses of a `require`.
pub fn add_require(
    alloc: Global,
    calls: &[Site],
    feature: &str,
    formals: &[Declaration],
    clauses: &[Clause],
    warnings: &mut Vec<Warning>,
) -> Result<(), AllocError>
    ensures { OnOk result (warnings.new.items ≡ warnings.old.items ++ flat_map (spec.warnings_of_require
        (map site_of calls.now) feature.now (map declaration_of formals.now)) (map clause_of clauses.now)) }
{
    for clause in clauses {
        add_clause(clause, warnings)?;
        add_waiting(alloc, calls, feature, formals, clause, warnings)?;
    }
    Ok(())
}
