//! The results of tests as lines of the Test Anything Protocol.

use crate::outcome::{Outcome, TestResult};
use sc_explain_text::Lines;
use std::alloc::{AllocError, Global};

/// The results of tests as lines of the Test Anything Protocol, version 13: why a test fails is a comment below its line.
pub fn tap_lines(alloc: Global, results: &[TestResult]) -> Result<Vec<u8>, AllocError> {
    let mut lines = Lines::new(alloc);
    lines.fill_number("TAP version 13\n1..~\n", results.len() as u64);
    let mut number: u64 = 0;
    for result in results {
        number = number.saturating_add(1);
        lines.fill_number(template_of(result.outcome), number);
        lines.fill_name(" - ~\n", result.name.as_str());
        push_comment(&mut lines, result)
    }
    lines.finish()
}

/// That nothing is tested, since the system is refused by this line.
pub fn tap_refusal(alloc: Global, line: &[u8]) -> Result<Vec<u8>, AllocError> {
    let mut lines = Lines::new(alloc);
    lines.push("TAP version 13\nBail out! ");
    lines.push_bytes(line);
    lines.finish()
}

/// What the line of a test begins with. That a test is undecided isn't enough for it to pass.
fn template_of(outcome: Outcome) -> &'static str {
    match outcome {
        Outcome::Passes | Outcome::AlwaysPasses => "ok ~",
        Outcome::FailsAfter(_) | Outcome::GoesOn | Outcome::Undecided => "not ok ~",
    }
}

/// Adds what is said of a test that doesn't pass.
fn push_comment(lines: &mut Lines, test: &TestResult) {
    match test.outcome {
        Outcome::FailsAfter(turns) => lines.fill_number("# fails after ~ turns\n", turns),
        Outcome::GoesOn => lines.push("# some order goes on for ever\n"),
        Outcome::Undecided => lines.push("# undecided\n"),
        Outcome::AlwaysPasses => lines.push("# in every order (proved)\n"),
        Outcome::Passes => {}
    }
    for line in str::from_utf8(test.note.as_slice()).unwrap_or("").lines() {
        lines.fill_name("# ~\n", line)
    }
}
