//! The tests of a system, when one passes, and how their results are written.
//!
//! [`tests_of_text`] lists the tests of a source text, and [`passes`] says whether the run of one has passed. The results
//! are written as lines by [`result_lines`], as one object of JSON by [`json_object`], as lines of the Test Anything
//! Protocol by [`tap_lines`] and as XML of JUnit by [`junit_report`].
#![tactic(auto)]

mod json;
mod junit;
mod lines;
mod listing;
mod outcome;
mod passing;
mod tap;

pub use json::json_object;
pub use junit::{junit_refusal, junit_report};
pub use lines::{result_lines, test_name};
pub use listing::tests_of_text;
pub use outcome::{Outcome, TestResult, Verdict, count};
pub use passing::passes;
pub use tap::{tap_lines, tap_refusal};
