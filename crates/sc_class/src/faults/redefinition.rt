//! What classes redefine.

ghost use Rattle.std.specs.Prelude.{◌≡◌, OnOk, map};
ghost use Rattle.sc_tree.specs.View.{clause_of, class_of, declaration_of, kind_of, name_of, type_if_any};
ghost use Rattle.sc_class.specs.Internal.Found.{FindsOnly};
ghost use Rattle.sc_class.specs.Internal.Places.{Gains};
ghost use Rattle.sc_class.specs.Faults.Redefinition as redefinition;
ghost use Rattle.sc_class.specs.Internal.Lines.{KnowsAbove};
ghost use Rattle.sc_class.specs.Internal.Systems.{in_hierarchy, in_outline};

use crate::class_tables::conformance::{is_same_type, type_conforms};
use crate::class_tables::declared_names::redefined_in;
use crate::class_tables::hierarchy::Hierarchy;
use crate::class_tables::line::Line;
use crate::class_tables::outline::Outline;
use crate::faults::places::Places;
use crate::names::is_same_text;
use sc_text::Span;
use sc_tree::{Class, Clause, Declaration, DeclaredType, FeatureKind, Name};
use std::alloc::AllocError;

/// Finds the faults of what the class redefines.
pub fn find_bad_redefinitions(
    outline: &Outline,
    line: &Line,
    number: usize,
    class: &Class,
    found: &mut Places,
) -> Result<(), AllocError>
    requires { KnowsAbove (in_outline outline.now) number line.now }
    ensures { OnOk result (Gains (redefinition.BadlyRedefines (in_outline outline.now) number (class_of class.now))
        found.old found.new) }
{
    let redefined = redefined_in(class);
    for name in redefined {
        found.insert_if_any(badly_redefined(outline, line, number, name))?;
    }
    Ok(())
}

/// The fault of one name that the class redefines.
fn badly_redefined(outline: &Outline, line: &Line, number: usize, name: &Name) -> Option<Span>
    requires { KnowsAbove (in_outline outline.now) number line.now }
    ensures { FindsOnly (redefinition.NameBadlyRedefined (in_outline outline.now) number (name_of name.now)) result }
{
    let Some(inherited) = line.inherited(outline, number, name.as_str()) else {
        return Some(name.span);
    };
    let Some(declared) = outline.declared(number, name.as_str()) else {
        return Some(name.span);
    };
    if can_redefine(
        &outline.hierarchy,
        &declared.feature.kind,
        &inherited.feature.kind,
    ) {
        return None;
    }
    Some(declared.feature.name.span)
}

/// Whether the first can redefine the second.
#[tactic(auto, unfolding(sc_tree::specs::View::kind_of))]
fn can_redefine(hierarchy: &Hierarchy, declared: &FeatureKind, inherited: &FeatureKind) -> bool
    ensures { result
        ≡ redefinition.can_redefine (in_hierarchy hierarchy.now) (kind_of declared.now) (kind_of inherited.now) }
{
    match declared {
        FeatureKind::Attribute(_) => false,
        FeatureKind::Routine(declared) => match inherited {
            FeatureKind::Attribute(_) => false,
            FeatureKind::Routine(inherited) => {
                is_same_formals(&declared.formals, &inherited.formals)
                    && result_fits(hierarchy, &declared.result_type, &inherited.result_type)
                    && is_empty_contract(&declared.precondition)
                    && is_empty_contract(&declared.postcondition)
            }
        },
    }
}

/// Whether there is no clause.
fn is_empty_contract(clauses: &[Clause]) -> bool
    ensures { result ≡ redefinition.is_empty_contract (map clause_of clauses.now) }
{
    match clauses {
        [] => true,
        [_, ..] => false,
    }
}

/// Whether the result can redefine the inherited one: none for none, or a type that conforms.
fn result_fits(
    hierarchy: &Hierarchy,
    declared: &Option<DeclaredType>,
    inherited: &Option<DeclaredType>,
) -> bool
    ensures { result
        ≡ redefinition.result_fits (in_hierarchy hierarchy.now) (type_if_any declared.now) (type_if_any
        inherited.now) }
{
    match declared {
        None => inherited.is_none(),
        Some(declared) => match inherited {
            None => false,
            Some(inherited) => type_conforms(hierarchy, declared, inherited),
        },
    }
}

/// Whether two formals have equal names and types.
fn is_same_formal(declared: &Declaration, inherited: &Declaration) -> bool
    ensures { result ≡ redefinition.is_same_formal (declaration_of declared.now) (declaration_of inherited.now) }
{
    is_same_text(declared.name.as_str(), inherited.name.as_str())
        && is_same_type(&declared.declared_type, &inherited.declared_type)
}

/// Whether the formals have equal names and types, one by one.
fn is_same_formals(declared: &[Declaration], inherited: &[Declaration]) -> bool
    ensures { result
        ≡ redefinition.is_same_formals (map declaration_of declared.now) (map declaration_of inherited.now) }
{
    if declared.len() != inherited.len() {
        return false;
    }
    for (i, declaration) in declared.iter().enumerate() {
        let Some(other) = inherited.get(i) else {
            return false;
        };
        if !is_same_formal(declaration, other) {
            return false;
        }
    }
    true
}
