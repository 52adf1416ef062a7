//! What an editor has open.

use crate::parameters::{member, range_in, text_in};
use crate::uris::path_of;
use sc_documents::replaced;
use serde_json::Value;
use std::alloc::{AllocError, Global};
use std::mem::replace;

/// A document that an editor has open: what it is called, the path of its file if it has one, the version that the editor knows
/// it by, its text, and of its earlier texts the last one whose names were known.
#[derive(Drop)]
pub struct OpenText {
    pub uri: String,
    pub path: Option<String>,
    pub version: Option<i64>,
    pub text: String,
    pub kept: Option<String>,
}

impl OpenText {
    /// Gives it another text. Its text until then is kept if its names are known.
    pub fn change(&mut self, text: String, version: Option<i64>, has_known_names: bool) {
        let before = replace(&mut self.text, text);
        if has_known_names {
            self.kept = Some(before);
        }
        self.version = version;
    }
}

/// The document that is opened, if these parameters tell of one.
pub fn opened(alloc: Global, params: Option<&Value>) -> Result<Option<OpenText>, AllocError> {
    let document = member(params, "textDocument");
    let Some(uri) = text_in(document, "uri") else {
        return Ok(None);
    };
    let Some(text) = text_in(document, "text") else {
        return Ok(None);
    };
    let path = path_of(alloc, uri)?;
    let uri = String::from_str(alloc, uri)?;
    let text = String::from_str(alloc, text)?;
    Ok(Some(OpenText {
        uri,
        path,
        version: version_in(document),
        text,
        kept: None,
    }))
}

/// The version of a document.
pub fn version_in(document: Option<&Value>) -> Option<i64> {
    match member(document, "version") {
        Some(version) => version.as_i64(),
        None => None,
    }
}

/// What changes make of a text, one after the other. None if one of them is no change.
pub fn changed(alloc: Global, text: &str, changes: &[Value]) -> Result<Option<String>, AllocError> {
    let mut changed = String::from_str(alloc, text)?;
    for change in changes {
        match changed_once(alloc, changed.as_str(), change)? {
            Some(next) => changed = next,
            None => return Ok(None),
        }
    }
    Ok(Some(changed))
}

/// What one change makes of a text: what is in its range is replaced, or all if it has no range.
fn changed_once(alloc: Global, text: &str, change: &Value) -> Result<Option<String>, AllocError> {
    let Some(new) = text_in(Some(change), "text") else {
        return Ok(None);
    };
    match member(Some(change), "range") {
        None | Some(Value::Null) => Ok(Some(String::from_str(alloc, new)?)),
        range => match range_in(range) {
            Some(range) => Ok(Some(replaced(alloc, text, range, new)?)),
            None => Ok(None),
        },
    }
}
