//! The results of tests as the XML that JUnit reports have.

use crate::outcome::{Outcome, TestResult, Verdict, count};
use sc_explain_text::Lines;
use std::alloc::{AllocError, Global};

const HEADING: &str = r#"<?xml version="1.0" encoding="UTF-8"?>
<testsuites>
<testsuite name="scoop test" tests="~""#;

const END: &str = "</testsuite>\n</testsuites>\n";

const REFUSED: &str = r#"<?xml version="1.0" encoding="UTF-8"?>
<testsuites>
<testsuite name="scoop test" tests="1" failures="0" errors="1">
<testcase classname="scoop" name="check"><error message=""#;

/// The results of tests as XML: a suite with a case for each test. A test that is undecided is an error.
pub fn junit_report(alloc: Global, results: &[TestResult]) -> Result<Vec<u8>, AllocError> {
    let mut lines = Lines::new(alloc);
    lines.fill_number(HEADING, results.len() as u64);
    let failed = count(results, Verdict::Failed) as u64;
    lines.fill_number(r#" failures="~""#, failed);
    let open = count(results, Verdict::Undecided) as u64;
    lines.fill_number(" errors=\"~\">\n", open);
    for result in results {
        push_case(&mut lines, result)
    }
    lines.push(END);
    lines.finish()
}

/// That nothing is tested, since the system is refused by this line: a suite with one error.
pub fn junit_refusal(alloc: Global, line: &[u8]) -> Result<Vec<u8>, AllocError> {
    let mut lines = Lines::new(alloc);
    lines.push(REFUSED);
    push_escaped(&mut lines, line.strip_suffix(b"\n").unwrap_or(line));
    lines.push("\"/></testcase>\n");
    lines.push(END);
    lines.finish()
}

/// Adds the case of a test.
fn push_case(lines: &mut Lines, test: &TestResult) {
    if let Some((class, procedure)) = test.name.as_str().split_once('.') {
        lines.fill(r#"<testcase classname="~" name="~""#, &[class, procedure])
    }
    match test.outcome {
        Outcome::Passes | Outcome::AlwaysPasses => lines.push("/>\n"),
        Outcome::Undecided => lines.push("><error message=\"undecided\"/></testcase>\n"),
        Outcome::FailsAfter(turns) => {
            lines.fill_number("><failure message=\"fails after ~ turns\">", turns);
            push_escaped(lines, test.note.as_slice());
            lines.push("</failure></testcase>\n")
        }
        Outcome::GoesOn => {
            lines.push("><failure message=\"some order goes on for ever\"></failure></testcase>\n")
        }
    }
}

/// Adds a text with the escapes that it needs. A byte that XML can't have is a question mark.
fn push_escaped(lines: &mut Lines, text: &[u8]) {
    for byte in text {
        match *byte {
            b'&' => lines.push("&amp;"),
            b'<' => lines.push("&lt;"),
            b'>' => lines.push("&gt;"),
            b'"' => lines.push("&quot;"),
            b'\n' => lines.push("\n"),
            byte if byte < b' ' => lines.push("?"),
            byte => lines.push_bytes(&[byte]),
        }
    }
}
