//! The faults of classes, and of a system.

ghost use Rattle.std.specs.Prelude.{◌≡◌, ◌++◌, [], IfOk, OnOk, map};
ghost use Rattle.sc_tree.specs.View.{class_of, clause_of, expr_of, feature_of, name_of};
ghost use Rattle.sc_class.specs.SystemIn.{system_in};
ghost use Rattle.sc_rules.specs.declared.position.Context.TheVariants.{Invariant};
ghost use Rattle.sc_rules.specs.declared.position.Position.TheVariants.{Plain};
ghost use Rattle.sc_rules.specs.Purity.{IsPurity};
ghost use Rattle.sc_rules.specs.SystemRules.{invariant_context};
ghost use Rattle.sc_typing.specs.Marks.{is_marked};
ghost use Rattle.sc_faults.specs.FaultLists.{IsFaultList};
ghost use Rattle.sc_faults.specs.Internal.Adding.{AddsFaults};
ghost use Rattle.sc_faults.specs.Internal.Listing as listing;

use crate::expressions::add_site;
use crate::features::{add_feature, context_of};
use crate::formulas::add_form;
use crate::found::add_alone;
use sc_check::{ClassText, clause_span, may_be_formula, pure_functions};
use sc_class::Tables;
use sc_rules::{Context, Fault, Position};
use sc_tree::{Class, Clause, Expr, Feature, Name};
use sc_typing::{CheckFault, Purity};
use std::alloc::{AllocError, Global};

/// Adds the fault of each name that the class lists under `create`.
fn add_creators(
    class: &ClassText<'_, '_>,
    names: &[Name],
    faults: &mut Vec<Fault>,
) -> Result<(), AllocError>
    ensures { OnOk result (faults.new.items ≡ faults.old.items ++ listing.faults_of_each (listing.faults_of_creator
        (system_in class.now.tables.now) class.now.class) (map name_of names.now)) }
{
    for name in names {
        add_alone(class.judge_creator(name), faults)?;
    }
    Ok(())
}

/// Adds the faults of the features of the class.
#[tactic(auto, unfolding(sc_tree::specs::View::feature_of))]
fn add_features<'s>(
    class: &ClassText<'_, 's>,
    features: &'s [Feature],
    faults: &mut Vec<Fault>,
) -> Result<(), AllocError>
    ensures { OnOk result (faults.new.items ≡ faults.old.items ++ listing.faults_of_features
        (system_in class.now.tables.now) (is_marked class.now.purity.now) class.now.class
        (map feature_of features.now)) }
{
    for feature in features {
        add_feature(class, &feature.kind, faults)?;
    }
    Ok(())
}

/// Adds the fault that judging a clause of the invariant has reported, if it has reported one, then those of its condition.
fn add_judged<'s>(
    class: &ClassText<'_, 's>,
    judged: &Result<(), CheckFault>,
    condition: &'s Expr,
    faults: &mut Vec<Fault>,
) -> Result<(), AllocError>
    ensures { AddsFaults judged.now (listing.faults_of (invariant_context (system_in class.now.tables.now)
        (is_marked class.now.purity.now) class.now.class) Invariant Plain [] (expr_of condition.now)) result faults.old.items
        faults.new.items }
{
    let routine = context_of(class, &[], &None);
    add_site(
        &routine,
        Context::Invariant,
        Position::Plain,
        &[],
        condition,
        judged,
        faults,
    )
}

/// Adds the faults of a clause of the invariant.
#[tactic(auto, unfolding(sc_tree::specs::View::clause_of))]
fn add_invariant<'s>(
    class: &ClassText<'_, 's>,
    clause: &'s Clause,
    faults: &mut Vec<Fault>,
) -> Result<(), AllocError>
    ensures { OnOk result (faults.new.items ≡ faults.old.items ++ listing.faults_of_invariant
        (system_in class.now.tables.now) (is_marked class.now.purity.now) class.now.class (clause_of clause.now)) }
{
    let judged = class.judge_invariant(clause);
    add_judged(class, &judged, &clause.condition, faults)?;
    let is_formula = may_be_formula(class.tables, class.class, &clause.condition);
    add_form(&judged, is_formula, clause_span(clause), faults)
}

/// Adds the faults of the clauses of the invariant.
fn add_invariants<'s>(
    class: &ClassText<'_, 's>,
    clauses: &'s [Clause],
    faults: &mut Vec<Fault>,
) -> Result<(), AllocError>
    ensures { OnOk result (faults.new.items ≡ faults.old.items ++ listing.faults_of_each (listing.faults_of_invariant
        (system_in class.now.tables.now) (is_marked class.now.purity.now) class.now.class) (map clause_of clauses.now)) }
{
    for clause in clauses {
        add_invariant(class, clause, faults)?;
    }
    Ok(())
}

/// Adds the faults of a class: of its `create` list, its features and its invariant.
#[tactic(auto, unfolding(sc_tree::specs::View::class_of))]
fn add_class<'s>(
    class: &ClassText<'_, 's>,
    text: &'s Class,
    faults: &mut Vec<Fault>,
) -> Result<(), AllocError>
    ensures { OnOk result (faults.new.items ≡ faults.old.items ++ listing.faults_of_class
        (system_in class.now.tables.now) (is_marked class.now.purity.now) class.now.class (class_of text.now)) }
{
    add_creators(class, &text.creators, faults)?;
    add_features(class, &text.features, faults)?;
    add_invariants(class, &text.invariant, faults)
}

/// Adds the faults of the text of each class, in the order of the source.
fn add_classes<'t, 's>(
    alloc: Global,
    tables: &'t Tables<'s>,
    purity: &'t Purity<'t, 's>,
    faults: &mut Vec<Fault>,
) -> Result<(), AllocError>
    ensures { OnOk result (faults.new.items ≡ faults.old.items ++ listing.faults_of_system (system_in tables.now)
        (is_marked purity.now)) }
{
    let classes = tables.classes();
    for class in 0..classes.len() {
        let declared = &classes[class];
        let text = ClassText {
            alloc,
            tables,
            purity,
            class,
        };
        add_class(&text, declared, faults)?;
    }
    Ok(())
}

/// The faults of a system, where these marks separate the pure functions from the others.
fn faults_by<'t, 's>(
    alloc: Global,
    tables: &'t Tables<'s>,
    purity: &'t Purity<'t, 's>,
) -> Result<Vec<Fault>, AllocError>
    ensures { IsPurity (system_in tables.now) (is_marked purity.now)
        → IfOk result (λ faults. IsFaultList (system_in tables.now) faults.items) }
{
    let mut faults = Vec::new(alloc);
    add_classes(alloc, tables, purity, &mut faults)?;
    Ok(faults)
}

/// The faults of a system: a rule that fails, and where. Their places are exactly those at which some rule fails; at each
/// the list has the rule that `check` would report there if nothing else failed, and it may have others. The first is the
/// fault that `check` reports. The list goes through the text as `check` does.
///
/// No rule is judged at an expression, an instruction or an operand that depends on an expression without a type: at a
/// call on it, or where a name of an object test or a block's head is known that would have its type.
///
/// The walk takes the time of `check`, and that of judging a faulty expression again for each expression around it, of
/// which there are at most 64. Each condition and each block copies the names that it knows.
pub fn all_faults(alloc: Global, tables: &Tables) -> Result<Vec<Fault>, AllocError>
    ensures { IfOk result (λ faults. IsFaultList (system_in tables.now) faults.items) }
{
    match pure_functions(alloc, tables) {
        Ok(purity) => faults_by(alloc, tables, &purity),
        Err(_) => Err(AllocError),
    }
}
