//! What holds of places themselves.

ghost use Rattle.sc_parse.specs.Laws.{OnePlacedTree};

/// The tokens of a text leave at most one tree, the places of its parts included.
pub fn one_placed_tree()
    ensures { OnePlacedTree }
{}
