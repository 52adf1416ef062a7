//! Which documents are checked together.

use crate::opening::OpenText;
use crate::systems::{CheckedSystem, Joined};
use crate::uris::uri_of;
use sc_source::files::{Files, read_source};
use sc_source::reading::FileFault;
use std::alloc::{AllocError, Global};

/// The systems of the open documents. The files of these paths are one, and every other document is one alone; the text of a
/// file that isn't open is read. If there are no paths, all that are open are one, or each is one alone if that can't be.
pub fn systems_of<F: Files>(
    alloc: Global,
    files: &F,
    paths: &[String],
    texts: &[OpenText],
) -> Result<Vec<CheckedSystem>, AllocError> {
    let joined = if paths.is_empty() {
        joined_texts(alloc, texts)?
    } else {
        joined_files(alloc, files, paths, texts)?
    };
    let together = CheckedSystem::new(alloc, joined)?;
    let is_apart = paths.is_empty() && texts.len() > 1 && together.is_apart();
    let mut systems = Vec::new(alloc);
    for open in texts {
        if is_apart || together.joined.part_of(open.uri.as_str()).is_none() {
            systems.push(checked_alone(alloc, open)?)?
        }
    }
    if !is_apart {
        systems.push(together)?
    }
    Ok(systems)
}

/// The system of one document.
fn checked_alone(alloc: Global, open: &OpenText) -> Result<CheckedSystem, AllocError> {
    let mut alone = Joined::new(alloc);
    add_open(alloc, &mut alone, open)?;
    CheckedSystem::new(alloc, alone)
}

/// The open documents as one text.
fn joined_texts(alloc: Global, texts: &[OpenText]) -> Result<Joined, AllocError> {
    let mut joined = Joined::new(alloc);
    for open in texts {
        add_open(alloc, &mut joined, open)?
    }
    Ok(joined)
}

/// Adds an open document.
fn add_open(alloc: Global, joined: &mut Joined, open: &OpenText) -> Result<(), AllocError> {
    joined.add(alloc, open.uri.as_str(), open.version, open.text.as_str())
}

/// The files of these paths as one text, without those that can't be read.
fn joined_files<F: Files>(
    alloc: Global,
    files: &F,
    paths: &[String],
    texts: &[OpenText],
) -> Result<Joined, AllocError> {
    let mut joined = Joined::new(alloc);
    for path in paths {
        match open_at(texts, path.as_str()) {
            Some(open) => add_open(alloc, &mut joined, open)?,
            None => add_file(alloc, files, &mut joined, path.as_str())?,
        }
    }
    Ok(joined)
}

/// The open document of the file of a path, if there is one.
fn open_at<'t>(texts: &'t [OpenText], path: &str) -> Option<&'t OpenText> {
    for open in texts {
        if let Some(of_text) = &open.path
            && of_text.as_str() == path
        {
            return Some(open);
        }
    }
    None
}

/// Adds the document of a file, if its path is a whole one and it can be read.
fn add_file<F: Files>(
    alloc: Global,
    files: &F,
    joined: &mut Joined,
    path: &str,
) -> Result<(), AllocError> {
    // The name `-` is that of standard input.
    if !path.starts_with('/') {
        return Ok(());
    }
    match read_source(alloc, files, &[path]) {
        Ok(source) => {
            let uri = uri_of(alloc, path)?;
            let text = source.text();
            joined.add(
                alloc,
                uri.as_str(),
                None,
                text.strip_suffix('\n').unwrap_or(text),
            )
        }
        Err(why) => match why.fault {
            FileFault::OutOfMemory => Err(AllocError),
            _ => Ok(()),
        },
    }
}
