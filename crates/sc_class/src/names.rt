//! Names, and names in order, each of which is found by hash.

ghost use Rattle.std.specs.Prelude.{◌≡◌, ◌++◌, ◌-◌, [], ◌∷◌, List, OnOk, OnErr, bytes_eq, length, take};
ghost use Rattle.sc_tree.specs.Plain as plain;
ghost use Rattle.sc_tree.specs.View.{name_of};
ghost use Rattle.sc_class.specs.Names.{number_among, is_listed};
ghost use Rattle.sc_class.specs.Internal.NameIndex.{names_in, place_among, known_then, IsIndex};
ghost use Rattle.sc_class.specs.Internal.Places.{union};
ghost use Rattle.sc_class.specs.Internal.ScopeSearch.{NoneLater, later_places};

use crate::faults::places::Places;
use crate::faults::scopes::insert_if_later;
use sc_text::Span;
use sc_tree::Name;
use std::alloc::{AllocError, Global};
use std::collections::HashMap;
use std::marker::Model;

/// Whether two names are the same.
pub fn is_same_text(one: &str, other: &str) -> bool
    ensures { result ≡ bytes_eq one.now other.now }
{
    one == other
}

/// What is known of a text: the number of the first name that is it, and the first place in the text of a class at
/// which such a name stands.
#[derive(Clone, Copy)]
pub struct Known {
    number: usize,
    place: Span,
}

/// A name that was added, and what was known of its text before.
#[derive(Clone, Copy)]
pub struct Added<'s> {
    name: &'s Name,
    before: Option<Known>,
}

/// What is known of a text where a name that is it is added behind so many others.
fn known_with(before: Option<Known>, number: usize, place: Span) -> Known
    ensures { result ≡ known_then before number place }
{
    match before {
        None => Known { number, place },
        Some(known) if place.start < known.place.start => Known {
            number: known.number,
            place,
        },
        Some(known) => known,
    }
}

/// Finds those of the names that are like one and stand after it in the text.
fn find_later_among(names: &[Added], name: &Name, found: &mut Places) -> Result<(), AllocError>
    ensures { OnOk result (found.new ≡ union found.old (later_places (names_in names.now) (name_of name.now))) }
{
    for added in names {
        insert_if_later(added.name, name, found)?;
    }
    Ok(())
}

/// Names in the order in which they were added. A text is found by hash.
#[derive(Drop)]
pub struct NameIndex<'s> {
    /// The greatest start of the names that were ever added.
    latest: u32,
    names: Vec<Added<'s>>,
    known: HashMap<&'s str, Known>,
}

impl<'s> Model for NameIndex<'s> {
    ghost Value = { List plain.Name };

    ghost view = { λ i. names_in i.names.items };

    ghost invariant = { λ i. IsIndex i.known i.names.items × NoneLater i.latest (names_in i.names.items) };
}

impl<'s> NameIndex<'s> {
    /// No names.
    pub fn new(alloc: Global) -> Self
        ensures { result ≡ [] }
    {
        NameIndex {
            latest: 0,
            names: Vec::new(alloc),
            known: HashMap::new(alloc),
        }
    }

    /// How many names there are.
    pub fn len(&self) -> usize
        ensures { result ≡ length self.now }
    {
        self.names.len()
    }

    /// Adds a name behind the others.
    pub fn push(&mut self, name: &'s Name) -> Result<(), AllocError>
        ensures pushed { OnOk result (self.new ≡ self.old ++ name_of name.now ∷ []) }
        ensures err { OnErr result (self.new ≡ self.old) }
    {
        let text = name.as_str();
        let before = self.known.get(text).copied();
        let known = known_with(before, self.names.len(), name.span);
        self.names.reserve(1)?;
        self.known.insert(text, known)?;
        self.names.push_reserved(Added { name, before });
        self.latest = self.latest.max(name.span.start);
        Ok(())
    }

    /// The number of the first name that is this text.
    pub fn number(&self, text: &str) -> Option<usize>
        ensures { result ≡ number_among text.now self.now }
    {
        let known = self.known.get(text)?;
        Some(known.number)
    }

    /// Whether one of the names is this text.
    pub fn contains(&self, text: &str) -> bool
        ensures { result ≡ is_listed text.now self.now }
    {
        self.number(text).is_some()
    }

    /// The first place at which a name that is this text stands.
    pub fn place(&self, text: &str) -> Option<Span>
        ensures { result ≡ place_among text.now self.now }
    {
        let known = self.known.get(text)?;
        Some(known.place)
    }

    /// Finds those of the names that are like one and stand after it in the text. It goes over all names, unless they
    /// were added in the order of the text, as those of a routine are.
    pub fn find_later(&self, name: &Name, found: &mut Places) -> Result<(), AllocError>
        ensures { OnOk result (found.new ≡ union found.old (later_places self.now (name_of name.now))) }
    {
        if self.latest <= name.span.start {
            return Ok(());
        }
        find_later_among(&self.names, name, found)
    }

    /// Takes the last name away.
    fn pop(&mut self)
        ensures { self.new ≡ take (length self.old - 1) self.old }
    {
        if let Some(last) = self.names.pop() {
            let text = last.name.as_str();
            match last.before {
                None => {
                    self.known.remove(text);
                }
                // The text is there, so that this takes no memory.
                Some(before) => {
                    self.known.insert(text, before).ok();
                }
            }
        }
    }

    /// Takes the names away from this number on.
    pub fn truncate(&mut self, len: usize)
        ensures { self.new ≡ take len self.old }
    {
        while self.len() > len {
            self.pop();
        }
    }
}
