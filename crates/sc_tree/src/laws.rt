//! Laws of the grammar, each the contract of a function that does nothing.

ghost use Rattle.sc_tree.specs.Laws.{EachTokenHasDepth, NestingIsDepth, OneNesting, OneTree};

/// No list of tokens has two trees.
pub fn one_tree()
    ensures { OneTree }
{}

/// No list of tokens has two nestings.
pub fn one_nesting()
    ensures { OneNesting }
{}

/// Each token of a system has its depth in the constructs around it.
pub fn each_token_has_depth()
    ensures { EachTokenHasDepth }
{}

/// The nesting that the grammar gives a system is the greatest depth of its tokens.
pub fn nesting_is_depth()
    ensures { NestingIsDepth }
{}
