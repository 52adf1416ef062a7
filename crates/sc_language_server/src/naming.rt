//! What the names of a system mean.

use crate::failure::Failure;
use crate::systems::{Joined, Place, root_from};
use sc_class::Root;
use sc_symbols::{Mention, names_in, symbol_at};
use std::alloc::{AllocError, Global};

/// A class that a system without a root is run from, so that its names mean something.
const OWN_ROOT: &str = "class SCOOP_EDITOR_ROOT create make feature make do end end\n";

/// The name of that class, in lower case.
const OWN_ROOT_NAME: &str = "scoop_editor_root";

/// Whether it is the name of that class.
pub fn is_own_root(name: &str) -> bool {
    name == OWN_ROOT_NAME
}

/// A text with its names, and the root of its system. It begins with the text of the system that an editor has.
#[derive(Drop)]
pub struct NamedText {
    pub text: String,
    pub root: Root,
    pub mentions: Vec<Mention>,
}

/// The name at a place of a system, with all names of the text, if what it means is known.
pub fn name_at(
    alloc: Global,
    joined: &Joined,
    place: Place,
) -> Result<Option<(NamedText, Mention)>, Failure> {
    match named_text(alloc, joined.text.as_str()) {
        Ok(Some(named)) => match symbol_at(&named.mentions, joined.offset_of(place)) {
            Some(mention) => Ok(Some((named, mention))),
            None => Ok(None),
        },
        Ok(None) => Ok(None),
        Err(_) => Err(Failure::OutOfMemory),
    }
}

/// The names of the text of a system, from its root `APPLICATION.make` or, if it has none, from a root of its own. None if it can't be
/// read or something else is at fault in its classes.
pub fn named_text(alloc: Global, text: &str) -> Result<Option<NamedText>, AllocError> {
    match named_from(alloc, text, "", "application")? {
        Some(named) => Ok(Some(named)),
        None => named_from(alloc, text, OWN_ROOT, OWN_ROOT_NAME),
    }
}

/// The names of a system with one class more, from the procedure `make` of the class of this name.
fn named_from(
    alloc: Global,
    own: &str,
    more: &str,
    class: &str,
) -> Result<Option<NamedText>, AllocError> {
    let root = root_from(alloc, class)?;
    let mut text = String::from_str(alloc, own)?;
    text.push_str(more)?;
    match names_in(alloc, text.as_str(), &root)? {
        Some(mentions) => Ok(Some(NamedText {
            text,
            root,
            mentions,
        })),
        None => Ok(None),
    }
}
