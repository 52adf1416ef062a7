//! What is warned of in a source text.

use sc_explain_text::{let_go, system_of};
use sc_warnings::{Warning, warnings_of};
use std::alloc::{AllocError, Global};

/// The warnings of a source text, none if it isn't grammatical.
pub fn warnings_of_text(alloc: Global, text: &str) -> Result<Vec<Warning>, AllocError> {
    match system_of(alloc, text)? {
        None => Ok(Vec::new(alloc)),
        Some(system) => {
            let warnings = warnings_of(alloc, &system);
            let_go(system);
            warnings
        }
    }
}
