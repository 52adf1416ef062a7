//! Answers as objects of JSON, each on a line.
//!
//! Except for the verdict of a search and for runs by chance the object is made of the lines that would be written, so it says what they
//! say. The members of an object are in the order of their names.

mod chance;
mod faults;
mod quoting;
mod refused;
mod report;
mod verdict;

use crate::json::refused::push_refusal;
use crate::json::report::push_report;
use crate::serve::Beside;
pub use chance::{reports_object, run_object};
pub use faults::faults_array;
use sc_explain_text::Lines;
use std::alloc::{AllocError, Global};
pub use verdict::search_object;

/// The object of the lines that answer a check, a run or a replay, with the numbers of handlers, if there are some.
#[inline(never)]
pub fn answer_object(
    alloc: Global,
    text: &[u8],
    beside: &Option<Beside<'_>>,
) -> Result<Vec<u8>, AllocError> {
    let mut lines = Lines::new(alloc);
    match text.strip_prefix(b"refused ") {
        Some(told) => push_refusal(alloc, &mut lines, told),
        None if text.starts_with(b"ok\n") => lines.push(r#"{"answer":"ok"}"#),
        None => match beside {
            Some(beside) => push_report(alloc, &mut lines, text, beside.stats.as_slice()),
            None => push_report(alloc, &mut lines, text, &[]),
        },
    }
    lines.push("\n");
    lines.finish()
}

/// What is written in place of lines, if it could be made.
pub fn made(object: Result<Vec<u8>, AllocError>) -> Result<Option<Vec<u8>>, AllocError> {
    match object {
        Ok(object) => Ok(Some(object)),
        Err(error) => Err(error),
    }
}
