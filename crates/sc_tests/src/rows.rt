//! Rows of text: what is on both sides of a bar. And the assertions of all tests: each is proved once here, and a call of it costs
//! a tenth of what the macro costs where it stands.

use sc_explain_text::Lines;
use std::alloc::Global;
use std::fmt::Debug;
use std::process::Abort;
use std::test::Fail;

/// The parts of a row before its first bar and after it.
pub fn halves_of(row: &str) -> Result<(&str, &str), Fail> {
    match row.split_once('|') {
        Some(halves) => Ok(halves),
        None => Err(Fail::new("a row without a bar")),
    }
}

/// Compares what is found with what is wanted, of this: texts, numbers or choices.
pub fn expect_equal<R: Abort, T: Copy + Debug + PartialEq>(rt: &R, found: T, wanted: T, of: &str) {
    assert_eq!(rt; found, wanted, "of {of}");
}

/// Compares bytes, which have to be a text, with the text that is wanted, of this.
pub fn expect_bytes<R: Abort>(rt: &R, found: &[u8], wanted: &str, of: &str) -> Result<(), Fail> {
    match str::from_utf8(found) {
        Ok(found) => {
            expect_equal(rt, found, wanted, of);
            Ok(())
        }
        Err(_) => Err(Fail::new("bytes that are no text")),
    }
}

/// Compares what was written with what is wanted, of this.
pub fn expect_lines<R: Abort>(rt: &R, lines: Lines, wanted: &str, of: &str) -> Result<(), Fail> {
    let found = lines.finish()?;
    expect_bytes(rt, &found, wanted, of)
}

/// Wants that this holds.
pub fn expect_that<R: Abort>(rt: &R, holds: bool, what: &str) {
    assert!(rt; holds, "{what}");
}

/// Adds these words, and then a value as `Debug` writes it.
pub fn push_debug<D: Debug>(alloc: Global, lines: &mut Lines, before: &str, value: &D) {
    lines.push(before);
    match format!(in alloc; "{value:?}") {
        Ok(text) => lines.push(text.as_str()),
        Err(_) => lines.lack(),
    }
}

/// What a row says of an object: whether it is settled, and whether it meets its invariant.
pub fn object_state(is_settled: bool, meets: bool) -> &'static str {
    match (is_settled, meets) {
        (true, true) => "settled meets",
        (true, false) => "settled breaks",
        (false, true) => "open meets",
        (false, false) => "open breaks",
    }
}
