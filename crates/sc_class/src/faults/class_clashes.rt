//! Names of features that clash in the classes of a system.

ghost use Rattle.std.specs.Prelude.{◌≡◌, [], OnOk, map};
ghost use Rattle.sc_tree.specs.View.{class_of, clause_of, feature_of};
ghost use Rattle.sc_class.specs.declared.faults.scopes.features.Part.TheVariants.{All, Inherited};
ghost use Rattle.sc_class.specs.Internal.Places.{union};
ghost use Rattle.sc_class.specs.Internal.ScopeSearch as search;
ghost use Rattle.sc_class.specs.Internal.Lines.{KnowsAbove, KnowsAll};
ghost use Rattle.sc_class.specs.Internal.Systems.{in_outline};

use crate::class_tables::line::Line;
use crate::class_tables::outline::Outline;
use crate::faults::places::Places;
use crate::faults::scopes::{Features, Part, declare_features, in_clauses, in_feature};
use crate::names::NameIndex;
use sc_tree::{Class, Clause, Feature};
use std::alloc::{AllocError, Global};

/// Finds the features that the class declares and that equal another one, or one that it inherits and doesn't redefine.
pub fn find_clashes_of_features(
    alloc: Global,
    outline: &Outline,
    line: &Line,
    number: usize,
    declared: &[Feature],
    found: &mut Places,
) -> Result<(), AllocError>
    requires { KnowsAbove (in_outline outline.now) number line.now }
    ensures { let inherited = search.names_of_part Inherited (in_outline outline.now) number in
        OnOk result (found.new
        ≡ union found.old (search.names_clash inherited [] (map (λ f. f.name) (map feature_of declared.now)))) }
{
    let inherited = Features::of(alloc, outline, line, number, Part::Inherited);
    let mut known = NameIndex::new(alloc);
    declare_features(&inherited, &mut known, declared, found)
}

/// Finds where names clash in the routines.
fn in_features(
    alloc: Global,
    features: &Features,
    declared: &[Feature],
    found: &mut Places,
) -> Result<(), AllocError>
    ensures { OnOk result (found.new
        ≡ union found.old (search.kinds_clash features.now (map feature_of declared.now))) }
{
    for feature in declared {
        in_feature(alloc, features, &feature.kind, found)?;
    }
    Ok(())
}

/// Finds where the name of an object test in an invariant clashes with that of a feature.
fn in_invariant(
    alloc: Global,
    features: &Features,
    clauses: &[Clause],
    found: &mut Places,
) -> Result<(), AllocError>
    ensures { OnOk result (found.new
        ≡ union found.old (search.clauses_clash features.now [] (map clause_of clauses.now))) }
{
    let known = NameIndex::new(alloc);
    in_clauses(features, &known, clauses, found)
}

/// Finds where names clash in the routines of a class or in its invariant.
pub fn find_clashes_in_texts(
    alloc: Global,
    outline: &Outline,
    line: &Line,
    number: usize,
    class: &Class,
    found: &mut Places,
) -> Result<(), AllocError>
    requires { KnowsAll (in_outline outline.now) number line.now }
    ensures { let known = search.names_of_part All (in_outline outline.now) number in
        OnOk result (found.new ≡ union found.old (search.texts_clash known (class_of class.now))) }
{
    let names = Features::of(alloc, outline, line, number, Part::All);
    in_features(alloc, &names, &class.features, found)?;
    in_invariant(alloc, &names, &class.invariant, found)
}
