//! The results of tests as lines for people.

ghost use Rattle.std.specs.Prelude.{◌≡◌, ◌++◌, IfOk, OnOk, string_bytes};
ghost use Rattle.sc_class.specs.View.{root_of};
ghost use Rattle.sc_test_cases.specs.Lines as spec;

use crate::outcome::{Outcome, TestResult, Verdict, count};
use sc_class::Root;
use std::alloc::{AllocError, Global};

/// What a test is called: `CLASS.procedure`.
pub fn test_name(alloc: Global, root: &Root) -> Result<String, AllocError>
    ensures { IfOk result (λ name. string_bytes name ≡ spec.name_of (root_of root.now)) }
{
    let mut name = root.class.as_str().to_ascii_uppercase(alloc)?;
    name.push_str(".")?;
    name.push_str(root.procedure.as_str())?;
    Ok(name)
}

/// A line for each test, and one with the numbers of those that pass and fail.
pub fn result_lines(alloc: Global, results: &[TestResult]) -> Result<Vec<u8>, AllocError>
    ensures { IfOk result (λ lines. lines.items ≡ spec.result_lines results.now) }
{
    let mut lines = Vec::new(alloc);
    for result in results {
        push_result(alloc, &mut lines, result)?;
    }
    let summary = summary_of(alloc, results)?;
    lines.extend_from_slice(summary.as_bytes())?;
    Ok(lines)
}

/// Adds the line of a test.
fn push_result(alloc: Global, lines: &mut Vec<u8>, test: &TestResult) -> Result<(), AllocError>
    ensures { OnOk result (lines.new.items ≡ lines.old.items ++ spec.line_of test.now) }
{
    let line = result_line(alloc, test.name.as_str(), test.outcome)?;
    lines.extend_from_slice(line.as_bytes())
}

/// The line of a test of this name.
fn result_line(alloc: Global, name: &str, outcome: Outcome) -> Result<String, AllocError>
    ensures { IfOk result (λ line. string_bytes line ≡ spec.result_line name.now outcome) }
{
    match outcome {
        Outcome::Passes => format!(in alloc; "passes {name}\n"),
        Outcome::AlwaysPasses => format!(in alloc; "passes {name} in every order (proved)\n"),
        Outcome::FailsAfter(turns) => format!(in alloc; "fails {name} after {turns} turns\n"),
        Outcome::GoesOn => format!(in alloc; "fails {name} in an order that goes on for ever\n"),
        Outcome::Undecided => format!(in alloc; "undecided {name}\n"),
    }
}

/// The line with the numbers of tests that pass, fail and are undecided.
fn summary_of(alloc: Global, results: &[TestResult]) -> Result<String, AllocError>
    ensures { IfOk result (λ line. string_bytes line ≡ spec.summary_of results.now) }
{
    let passed = count(results, Verdict::Passed);
    let failed = count(results, Verdict::Failed);
    match count(results, Verdict::Undecided) {
        0 => format!(in alloc; "{passed} passed, {failed} failed\n"),
        open => format!(in alloc; "{passed} passed, {failed} failed, {open} undecided\n"),
    }
}
