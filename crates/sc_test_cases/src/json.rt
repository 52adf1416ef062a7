//! The results of tests as an object of JSON.

use crate::outcome::{Outcome, TestResult, Verdict, count};
use sc_explain_text::Lines;
use serde_json::Value;
use std::alloc::{AllocError, Global};

/// The results of tests as one object of JSON, on a line. The members of an object are in the order of their names.
pub fn json_object(alloc: Global, results: &[TestResult]) -> Result<Vec<u8>, AllocError> {
    let mut lines = Lines::new(alloc);
    let failed = count(results, Verdict::Failed) as u64;
    lines.fill_number(r#"{"answer":"tests","failed":~,"#, failed);
    let passed = count(results, Verdict::Passed) as u64;
    lines.fill_number(r#""passed":~,"tests":["#, passed);
    let mut template = r#"{"name":"~","note":"#;
    for result in results {
        lines.fill_name(template, result.name.as_str());
        push_quoted(alloc, &mut lines, result.note.as_slice());
        push_outcome(&mut lines, result.outcome);
        template = r#",{"name":"~","note":"#;
    }
    let open = count(results, Verdict::Undecided) as u64;
    lines.fill_number("],\"undecided\":~}\n", open);
    lines.finish()
}

/// Adds how a test came out: whether that is proved, the result, and after how many turns it fails: null if it goes on for ever.
fn push_outcome(lines: &mut Lines, outcome: Outcome) {
    match outcome {
        Outcome::Passes => lines.push(r#","proved":false,"result":"passes","turns":null}"#),
        Outcome::AlwaysPasses => lines.push(r#","proved":true,"result":"passes","turns":null}"#),
        Outcome::Undecided => lines.push(r#","proved":false,"result":"undecided","turns":null}"#),
        Outcome::GoesOn => lines.push(r#","proved":false,"result":"fails","turns":null}"#),
        Outcome::FailsAfter(turns) => {
            lines.fill_number(r#","proved":true,"result":"fails","turns":~}"#, turns)
        }
    }
}

/// Adds a text in quotes, with the escapes that it needs.
fn push_quoted(alloc: Global, lines: &mut Lines, text: &[u8]) {
    match quoted(alloc, text) {
        Ok(quoted) => lines.push(quoted.as_str()),
        Err(_) => lines.lack(),
    }
}

/// A text in quotes.
fn quoted(alloc: Global, text: &[u8]) -> Result<String, AllocError> {
    Value::from(String::from_utf8_lossy(alloc, text)?).to_string(alloc)
}
