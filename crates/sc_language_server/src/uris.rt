//! URIs of documents, and the paths of their files.

use percent_encoding::{NON_ALPHANUMERIC, percent_decode, utf8_percent_encode};
use std::alloc::{AllocError, Global};

/// The path of the file of a URI, if it is that of a file.
pub fn path_of(alloc: Global, uri: &str) -> Result<Option<String>, AllocError> {
    let Some(path) = uri.strip_prefix("file://") else {
        return Ok(None);
    };
    let mut decoded = Vec::new(alloc);
    percent_decode(path.as_bytes()).append_to(&mut decoded)?;
    match str::from_utf8(decoded.as_slice()) {
        Ok(path) => Ok(Some(String::from_str(alloc, path)?)),
        Err(_) => Ok(None),
    }
}

/// The URI of the file of a path.
pub fn uri_of(alloc: Global, path: &str) -> Result<String, AllocError> {
    let escaped = NON_ALPHANUMERIC
        .remove(b'/')
        .remove(b'-')
        .remove(b'.')
        .remove(b'_')
        .remove(b'~');
    let mut uri = String::from_str(alloc, "file://")?;
    utf8_percent_encode(path, escaped).append_to(&mut uri)?;
    Ok(uri)
}
