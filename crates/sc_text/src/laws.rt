//! What holds of spelling itself.

ghost use Rattle.sc_text.specs.Spelling.{OneSpelling, OneFault, NoSpellingOfFaults};

/// A text spells at most one list of tokens.
pub fn one_spelling()
    ensures { OneSpelling }
{}

/// A text has at most one fault.
pub fn one_fault()
    ensures { OneFault }
{}

/// A text that has a fault spells nothing.
pub fn no_spelling_of_faults()
    ensures { NoSpellingOfFaults }
{}
