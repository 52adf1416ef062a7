//! Texts of JSON.

use sc_explain_text::Lines;
use serde_json::Value;
use std::alloc::{AllocError, Global};

/// Adds a text in quotes, with the escapes that it needs.
pub fn push_quoted(alloc: Global, lines: &mut Lines, text: Result<String, AllocError>) {
    match quoted(alloc, text) {
        Ok(quoted) => lines.push(quoted.as_str()),
        Err(_) => lines.lack(),
    }
}

fn quoted(alloc: Global, text: Result<String, AllocError>) -> Result<String, AllocError> {
    Value::from(text?).to_string(alloc)
}
