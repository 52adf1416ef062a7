//! Laws of records, each the contract of a function that does nothing.
ghost use Rattle.sc_audit.specs.Laws.{OneLineAtFault, OneRecord};

/// One text has one record.
pub fn one_record()
    ensures { OneRecord }
{}

/// One text has one line at fault.
pub fn one_line_at_fault()
    ensures { OneLineAtFault }
{}
