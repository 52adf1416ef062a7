//! Laws of audits, each the contract of a function that does nothing.
ghost use Rattle.sc_driver.specs.Laws.{MisfitsAreNoRecord, OneMisfit, RunsAuditYes, SameWorldsHaveSameReports};

use sc_plant::laws::{lines_are_a_record, runs_are_one_threads};

/// Lines with one that doesn't fit are no record's.
pub fn misfits_are_no_record()
    ensures { MisfitsAreNoRecord }
{}

/// There is one first line that doesn't fit.
pub fn one_misfit()
    ensures { OneMisfit }
{}

/// What a run of at most 10,000,000 turns left is what one thread makes of its record.
pub fn runs_audit_yes()
    ensures { RunsAuditYes }
{
    runs_are_one_threads();
    lines_are_a_record();
}

/// Worlds that hold the same have equal reports.
pub fn same_worlds_have_same_reports()
    ensures { SameWorldsHaveSameReports }
{}
