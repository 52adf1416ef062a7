//! Places of faults in the text.

ghost use Rattle.std.specs.Prelude.{◌≡◌, [], List, OnOk};
ghost use Rattle.sc_text.specs.declared.token.Span as plain;
ghost use Rattle.sc_class.specs.Internal.Found as found;
ghost use Rattle.sc_class.specs.Internal.Found.{FindsFirstPlace};
ghost use Rattle.sc_class.specs.Internal.Places.{AreKeys, Has, if_any, inserted, union};

use sc_text::Span;
use std::alloc::{AllocError, Global};
use std::collections::HashSet;
use std::marker::Model;

/// Of two places, the first in the text.
pub fn first_place(one: Option<Span>, other: Option<Span>) -> Option<Span>
    ensures { result ≡ found.first_place one other }
{
    match (one, other) {
        (None, _) => other,
        (Some(_), None) => one,
        (Some(first), Some(second)) => {
            if second.start < first.start {
                other
            } else {
                one
            }
        }
    }
}

/// Places, each once, in the order in which they were added. While there are none it takes no memory.
#[derive(Drop)]
pub struct Places {
    list: Vec<Span>,
    keys: HashSet<(u32, u32)>,
}

impl Model for Places {
    ghost Value = { List plain.Span };

    ghost view = { λ p. p.list.items };

    ghost invariant = { λ p. AreKeys p.keys p.list.items };
}

impl Places {
    /// No places.
    pub fn new(alloc: Global) -> Self
        ensures { result ≡ [] }
    {
        Places {
            list: Vec::new(alloc),
            keys: HashSet::new(alloc),
        }
    }

    /// The places, in the order in which they were added.
    pub fn as_slice(&self) -> &[Span]
        ensures { result.now ≡ self.now }
    {
        self.list.as_slice()
    }

    /// Adds a place, unless it is there.
    pub fn insert(&mut self, place: Span) -> Result<(), AllocError>
        ensures { OnOk result (self.new ≡ inserted self.old place) }
    {
        let key = (place.start, place.end);
        if self.keys.contains(&key) {
            return Ok(());
        }
        self.list.reserve(1)?;
        self.keys.insert(key)?;
        self.list.push_reserved(place);
        Ok(())
    }

    /// Adds a place, if there is one.
    #[tactic(auto, unfolding(crate::specs::Internal::Places::union))]
    pub fn insert_if_any(&mut self, place: Option<Span>) -> Result<(), AllocError>
        ensures { OnOk result (self.new ≡ union self.old (if_any place)) }
    {
        match place {
            None => Ok(()),
            Some(place) => self.insert(place),
        }
    }

    /// The first of the places in the text.
    pub fn first(&self) -> Option<Span>
        ensures { FindsFirstPlace (Has self.now) result }
    {
        first_of(self.as_slice())
    }
}

/// The first of the places in the text.
fn first_of(places: &[Span]) -> Option<Span>
    ensures { FindsFirstPlace (Has places.now) result }
{
    let mut first = None;
    for place in places {
        first = first_place(first, Some(*place));
    }
    first
}
