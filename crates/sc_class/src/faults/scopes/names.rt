//! Names that can't follow those in scope.

ghost use Rattle.std.specs.Prelude.{◌≡◌, ◌++◌, ◌∷◌, [], OnOk, map};
ghost use Rattle.sc_tree.specs.View.{name_of, head_of, declaration_of, feature_of};
ghost use Rattle.sc_class.specs.Faults.Scopes.{head_names, entity_names};
ghost use Rattle.sc_class.specs.Internal.Places.{union};
ghost use Rattle.sc_class.specs.Internal.ScopeSearch as search;

use crate::faults::places::Places;
use crate::faults::scopes::features::Features;
use crate::faults::scopes::later::insert_unless_before;
use crate::names::NameIndex;
use sc_tree::{Declaration, Feature, Head, Name};
use std::alloc::AllocError;

/// Adds the place of a name that is `print`.
#[tactic(auto, unfolding(crate::specs::Internal::Places::union))]
fn insert_if_print(name: &Name, found: &mut Places) -> Result<(), AllocError>
    ensures { OnOk result (found.new ≡ union found.old (search.print_place (name_of name.now))) }
{
    if name.is_print() {
        return found.insert(name.span);
    }
    Ok(())
}

/// Adds the places at which a name clashes with features.
#[tactic(auto, unfolding(crate::specs::Internal::Places::union))]
fn find_features(features: &Features, name: &Name, found: &mut Places) -> Result<(), AllocError>
    ensures { OnOk result (found.new ≡ union found.old (search.like_places features.now (name_of name.now))) }
{
    let Some(first) = features.place(name.as_str()) else {
        return Ok(());
    };
    insert_unless_before(first, name, found)?;
    features.find_later(name, found)
}

/// Adds the places at which a name clashes with formals, locals, object tests and heads of blocks.
#[tactic(auto, unfolding(crate::specs::Internal::Places::union))]
fn find_entities(known: &NameIndex, name: &Name, found: &mut Places) -> Result<(), AllocError>
    ensures { OnOk result (found.new ≡ union found.old (search.like_places known.now (name_of name.now))) }
{
    let Some(first) = known.place(name.as_str()) else {
        return Ok(());
    };
    insert_unless_before(first, name, found)?;
    known.find_later(name, found)
}

/// Adds the places at which a name clashes with known ones: the later one of the two.
#[tactic(auto, unfolding(crate::specs::Internal::ScopeSearch::name_clash))]
pub fn find_clashes(
    features: &Features,
    known: &NameIndex,
    name: &Name,
    found: &mut Places,
) -> Result<(), AllocError>
    ensures { OnOk result (found.new ≡ union found.old (search.name_clash features.now known.now (name_of name.now))) }
{
    insert_if_print(name, found)?;
    find_features(features, name, found)?;
    find_entities(known, name, found)
}

/// Brings a name into scope, and finds where it clashes.
pub fn declare<'s>(
    features: &Features,
    known: &mut NameIndex<'s>,
    name: &'s Name,
    found: &mut Places,
) -> Result<(), AllocError>
    ensures found { OnOk result (found.new
        ≡ union found.old (search.name_clash features.now known.old (name_of name.now))) }
    ensures added { OnOk result (known.new ≡ known.old ++ name_of name.now ∷ []) }
{
    find_clashes(features, known, name, found)?;
    known.push(name)
}

/// Brings the names of a block's heads into scope, and finds where they clash.
pub fn declare_heads<'s>(
    features: &Features,
    known: &mut NameIndex<'s>,
    heads: &'s [Head],
    found: &mut Places,
) -> Result<(), AllocError>
    ensures found { OnOk result (found.new
        ≡ union found.old (search.names_clash features.now known.old (head_names (map head_of heads.now)))) }
    ensures added { OnOk result (known.new ≡ known.old ++ head_names (map head_of heads.now)) }
{
    for head in heads {
        declare(features, known, &head.name, found)?;
    }
    Ok(())
}

/// Brings formals or locals into scope, and finds where they clash.
pub fn declare_entities<'s>(
    features: &Features,
    known: &mut NameIndex<'s>,
    declarations: &'s [Declaration],
    found: &mut Places,
) -> Result<(), AllocError>
    ensures found { OnOk result (found.new
        ≡ union found.old (search.names_clash features.now known.old (entity_names (map declaration_of declarations.now)))) }
    ensures added { OnOk result (known.new ≡ known.old ++ entity_names (map declaration_of declarations.now)) }
{
    for declaration in declarations {
        declare(features, known, &declaration.name, found)?;
    }
    Ok(())
}

/// Brings features into scope, and finds where they clash.
pub fn declare_features<'s>(
    features: &Features,
    known: &mut NameIndex<'s>,
    declared: &'s [Feature],
    found: &mut Places,
) -> Result<(), AllocError>
    ensures { OnOk result (found.new
        ≡ union found.old (search.names_clash features.now known.old (map (λ f. f.name) (map feature_of declared.now)))) }
{
    for feature in declared {
        declare(features, known, &feature.name, found)?;
    }
    Ok(())
}
