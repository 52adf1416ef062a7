//! The programs of source texts.

use sc_class::Root;
use sc_code::Program;
use sc_frontend::load_text;
use std::alloc::{AllocError, Global};
use std::test::Fail;

/// The program of a source text, whose root object is an APPLICATION and made by `make`.
pub fn program_of(alloc: Global, text: &str) -> Result<Program, Fail> {
    let root = application(alloc)?;
    Ok(load_text(alloc, text, &root)?)
}

/// The class APPLICATION and its procedure `make`, as the root.
pub fn application(alloc: Global) -> Result<Root, AllocError> {
    Ok(Root {
        class: String::from_str(alloc, "application")?,
        procedure: String::from_str(alloc, "make")?,
    })
}
