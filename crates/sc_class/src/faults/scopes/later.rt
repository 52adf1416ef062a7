//! Names that are like another one.

ghost use Rattle.std.specs.Prelude.{◌≡◌, ◌∷◌, [], OnOk};
ghost use Rattle.sc_tree.specs.View.{name_of};
ghost use Rattle.sc_class.specs.Internal.Places.{union};
ghost use Rattle.sc_class.specs.Internal.ScopeSearch as search;

use crate::faults::places::Places;
use crate::names::is_same_text;
use sc_text::Span;
use sc_tree::Name;
use std::alloc::AllocError;

/// Whether a name is like another one and stands after it in the text.
fn is_later_like(one: &Name, name: &Name) -> bool
    ensures { result ≡ search.is_later_like (name_of one.now) (name_of name.now) }
{
    is_same_text(one.as_str(), name.as_str()) && name.span.start < one.span.start
}

/// Adds the place of a name that is like another one and stands after it in the text.
pub fn insert_if_later(one: &Name, name: &Name, found: &mut Places) -> Result<(), AllocError>
    ensures { OnOk result (found.new
        ≡ union found.old (search.later_places (name_of one.now ∷ []) (name_of name.now))) }
{
    if is_later_like(one, name) {
        return found.insert(one.span);
    }
    Ok(())
}

/// Adds the place of a name, unless it stands before the first one that is like it.
pub fn insert_unless_before(first: Span, name: &Name, found: &mut Places) -> Result<(), AllocError>
    ensures { OnOk result (found.new ≡ union found.old (search.own_place first (name_of name.now))) }
{
    if name.span.start < first.start {
        return Ok(());
    }
    found.insert(name.span)
}
