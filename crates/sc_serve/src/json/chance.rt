//! Runs by chance as objects of JSON.

use crate::json::report::push_report;
use sc_chance::Outcomes;
use sc_explain_text::Lines;
use std::alloc::{AllocError, Global};

/// The object of a run that was found by this seed and has this report.
pub fn run_object(alloc: Global, seed: u64, report: &[u8]) -> Result<Vec<u8>, AllocError> {
    let mut lines = Lines::new(alloc);
    lines.push(r#"{"answer":"run","report":"#);
    push_report(alloc, &mut lines, report, &[]);
    lines.fill_number(",\"seed\":~}\n", seed);
    lines.finish()
}

/// The object of the reports of runs, if none was found.
pub fn reports_object(alloc: Global, outcomes: &Outcomes) -> Result<Vec<u8>, AllocError> {
    let mut lines = Lines::new(alloc);
    lines.push(r#"{"answer":"runs","reports":["#);
    let mut before = r#"{"report":"#;
    for number in 0..outcomes.len() {
        let outcome = outcomes.outcome(number);
        lines.push(before);
        push_report(alloc, &mut lines, outcome.report, &[]);
        lines.fill_number(r#","runs":~"#, outcome.runs as u64);
        lines.fill_number(r#","seed":~}"#, outcome.seed);
        before = r#",{"report":"#;
    }
    lines.push("]}\n");
    lines.finish()
}
