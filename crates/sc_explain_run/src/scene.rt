//! What is described: a world of a run, with its program and its text.

use crate::listing::Listing;
use crate::naming::Named;
use crate::places::Standing;
use sc_code::ClassNumber;
use sc_handler::Log;
use sc_lockpass::HandlerNumber;
use sc_region::{Reference, Stage, Store, Value};
use sc_request::Core;
use sc_world::World;

/// A world of a run: at its end, or in front of one of its turns.
///
/// The proof of a function that takes a world costs most, since it covers all that the world reaches. So what writes
/// a sentence takes only what that names, and what asks for the state of handlers takes the core.
#[derive(Clone, Copy)]
pub struct Scene<'r> {
    pub listing: Listing<'r>,
    pub world: &'r World<'r>,
    pub core: &'r Core,
    pub log: &'r Log,
    /// How many handlers there are.
    pub handlers: HandlerNumber,
}

impl<'r> Scene<'r> {
    /// The objects and routines of a handler.
    pub fn store(&self, handler: HandlerNumber) -> Option<&'r Store<'r>> {
        match self.world.region(handler) {
            Some(region) => Some(region.store()),
            None => None,
        }
    }

    /// The attribute of this number that an object has.
    pub fn stored(&self, object: Reference, number: usize) -> Option<Value> {
        match self.store(object.handler) {
            Some(store) => store.read(object.number, number),
            None => None,
        }
    }

    /// The number of the class of a handler's root object, if it has one.
    pub fn root_class(&self, handler: HandlerNumber) -> Option<ClassNumber> {
        match self.store(handler) {
            Some(store) => store.class_of(1),
            None => None,
        }
    }

    /// A handler, as sentences name it.
    pub fn named(&self, handler: HandlerNumber) -> Named<'r> {
        Named::of(&self.listing, handler, self.root_class(handler))
    }

    /// The place of a handler, if it has frames.
    pub fn standing_of(&self, handler: HandlerNumber) -> Option<Standing<'r>> {
        if let Some(store) = self.store(handler)
            && let Some(top) = store.top()
            && let Some(text) = self.listing.text_of(top.routine)
        {
            let is_behind = matches!(top.stage, Stage::ReservesBlock | Stage::Awaits { .. });
            Some(Standing {
                text,
                place: top.place.saturating_sub(is_behind as usize),
                next: top.place,
                is_entry: matches!(top.stage, Stage::Reserves),
            })
        } else {
            None
        }
    }
}
