//! What holds of the elements of a text.

ghost use Rattle.sc_format.specs.Elements.{OneListOfElements};

/// No text has two lists of tokens and comments.
pub fn one_list_of_elements()
    ensures { OneListOfElements }
{}
