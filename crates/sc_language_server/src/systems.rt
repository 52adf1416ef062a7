//! Documents that are a system together.

use crate::findings::{Finding, findings_in};
use sc_class::Root;
use sc_documents::Document;
use sc_rules::RefusalCode;
use sc_text::Span;
use std::alloc::{AllocError, Global};

/// A document of a system, and where its text stands in that of the system.
#[derive(Drop)]
pub struct Part {
    pub uri: String,
    /// The version that the editor knows it by, if the editor has it open.
    pub version: Option<i64>,
    pub document: Document,
    pub start: usize,
}

/// A part of a document of a system: the number of the document, and the offsets of the part's ends in it.
#[derive(Clone, Copy)]
pub struct Place {
    pub part: usize,
    pub start: usize,
    pub end: usize,
}

impl Place {
    /// Whether it has something of another place, or touches it.
    pub fn touches(self, other: Place) -> bool {
        self.part == other.part && self.start <= other.end && other.start <= self.end
    }
}

/// The text of a system: that of each document, with a line feed after it.
#[derive(Drop)]
pub struct Joined {
    pub text: String,
    pub parts: Vec<Part>,
}

/// A system, and what is found in it.
#[derive(Drop)]
pub struct CheckedSystem {
    pub joined: Joined,
    pub findings: Vec<Finding>,
}

impl Joined {
    /// The text of no document.
    pub fn new(alloc: Global) -> Self {
        Joined {
            text: String::new(alloc),
            parts: Vec::new(alloc),
        }
    }

    /// Adds a document.
    pub fn add(
        &mut self,
        alloc: Global,
        uri: &str,
        version: Option<i64>,
        text: &str,
    ) -> Result<(), AllocError> {
        let start = self.text.len();
        self.text.push_str(text)?;
        self.text.push('\n')?;
        let uri = String::from_str(alloc, uri)?;
        let document = Document::of(alloc, text)?;
        self.parts.push(Part {
            uri,
            version,
            document,
            start,
        })?;
        Ok(())
    }

    /// The part with this URI and its number, if there is one.
    pub fn part_of(&self, uri: &str) -> Option<(usize, &Part)> {
        for index in 0..self.parts.len() {
            let part = &self.parts[index];
            if part.uri.as_str() == uri {
                return Some((index, part));
            }
        }
        None
    }

    /// The URI of the document of a place.
    pub fn uri_of(&self, place: Place) -> &str {
        match self.parts.get(place.part) {
            Some(part) => part.uri.as_str(),
            None => "",
        }
    }

    /// The offset in the whole text of the beginning of a place.
    pub fn offset_of(&self, place: Place) -> u32 {
        let before = match self.parts.get(place.part) {
            Some(part) => part.start,
            None => 0,
        };
        u32::try_from(before.saturating_add(place.start)).unwrap_or(u32::MAX)
    }

    /// Where a part of the text lies: in the last document that begins no later. That of the whole text is its beginning.
    pub fn place_of(&self, span: Option<Span>) -> Place {
        let Span { start, end } = span.unwrap_or(Span { start: 0, end: 0 });
        let (start, end) = (start as usize, end as usize);
        let mut place = Place {
            part: 0,
            start,
            end,
        };
        for part in 0..self.parts.len() {
            let before = self.parts[part].start;
            if before <= start {
                place = Place {
                    part,
                    start: start.saturating_sub(before),
                    end: end.saturating_sub(before),
                };
            }
        }
        place
    }
}

impl CheckedSystem {
    /// Checks the system of these documents, from its root `APPLICATION.make`.
    pub fn new(alloc: Global, joined: Joined) -> Result<Self, AllocError> {
        let root = root_from(alloc, "application")?;
        let findings = findings_in(alloc, &joined, &root)?;
        Ok(CheckedSystem { joined, findings })
    }

    /// Whether the names of the document of this number are known: nothing is at fault in its text and its classes.
    pub fn has_known_names(&self, part: usize) -> bool {
        for finding in &self.findings {
            if finding.place.part == part && finding.hides_names() {
                return false;
            }
        }
        true
    }

    /// Whether its documents are to be checked one by one: a class stands twice in them, or they are too long together.
    pub fn is_apart(&self) -> bool {
        match self.findings.first() {
            Some(finding) => matches!(
                finding.code,
                Some(RefusalCode::DuplicateClass | RefusalCode::SourceTooLong)
            ),
            None => false,
        }
    }
}

/// Whether the names of the document with this URI are known.
pub fn are_names_known(systems: &[CheckedSystem], uri: &str) -> bool {
    for system in systems {
        if let Some((index, _)) = system.joined.part_of(uri) {
            return system.has_known_names(index);
        }
    }
    false
}

/// The root of a system that begins with the procedure `make` of this class.
pub fn root_from(alloc: Global, class: &str) -> Result<Root, AllocError> {
    Ok(Root {
        class: String::from_str(alloc, class)?,
        procedure: String::from_str(alloc, "make")?,
    })
}
