//! What was passed with a request, as it is kept with that.
ghost use Rattle.std.specs.Prelude.{◌≡◌, ◌≤◌, ◌+◌, IfOk, None, is_some, vec_len};
ghost use Rattle.std.specs.Option.{option_map};

use sc_lockpass::Passed;
use std::alloc::{AllocError, Global};
use std::marker::Model;

/// A place for what is passed.
pub(crate) type PassedPlace = Option<Passed>;

/// What was passed with a request, if anything was. It takes 16 bytes, and memory beside only where something was.
#[derive(Drop)]
pub struct Passing {
    place: Option<Box<PassedPlace>>,
}

impl Model for Passing {
    ghost use Rattle.std.specs.Prelude.{Option};
    ghost use Rattle.std.specs.Option.{option_and_then};
    ghost use Rattle.sc_lockpass.specs.Tables.{Listing};

    ghost Value = { Option Listing };

    ghost view = { λ p. option_and_then (λ place. place.value) p.place };
}

impl Passing {
    /// Nothing was passed.
    pub(crate) fn none() -> Passing
        ensures { result ≡ None }
    {
        Passing { place: None }
    }

    /// Whether anything was passed.
    pub fn is_some(&self) -> bool
        ensures { result ≡ is_some self.now }
    {
        self.get().is_some()
    }

    /// What was passed, if anything was.
    pub(crate) fn get(&self) -> Option<&Passed>
        ensures { option_map (λ passed. passed.now) result ≡ self.now }
    {
        match &self.place {
            Some(place) => content(place),
            None => None,
        }
    }

    /// A copy. Its error says that memory ran out.
    pub(crate) fn copy(&self, alloc: Global) -> Result<Passing, AllocError>
        ensures { IfOk result (λ passing. passing ≡ self.now) }
    {
        match self.get() {
            Some(passed) => Ok(Passing {
                place: Some(Box::new(alloc, Some(passed.copy()))?),
            }),
            None => Ok(Passing::none()),
        }
    }

    /// Takes what was passed, if anything was.
    pub fn take(&mut self) -> Option<Passed>
        ensures passed { result ≡ self.old }
        ensures rest { self.new ≡ None }
    {
        match &mut self.place {
            Some(place) => Box::replace(place, None),
            None => None,
        }
    }

    /// What was passed comes here, in one of these places. Mostly there is nothing, and then nothing is moved.
    pub(crate) fn put(&mut self, passed: &mut Option<Passed>, places: &mut Vec<Box<PassedPlace>>)
        requires { 1 ≤ vec_len places.old }
        ensures passed { self.new ≡ passed.old }
        ensures places { vec_len places.old ≤ vec_len places.new + 1 }
    {
        if self.place.is_some() || passed.is_some() {
            self.move_over(passed, places);
        }
    }

    #[inline(never)]
    fn move_over(&mut self, passed: &mut Option<Passed>, places: &mut Vec<Box<PassedPlace>>)
        requires { 1 ≤ vec_len places.old }
        ensures passed { self.new ≡ passed.old }
        ensures places { vec_len places.old ≤ vec_len places.new + 1 }
    {
        let Some(mut place) = places.pop() else {
            unreachable!();
        };
        let _ = Box::replace(&mut place, passed.take());
        self.place = Some(place);
    }

    /// Gives its place back, if it has one.
    pub(crate) fn give_back(&mut self, places: &mut Vec<Box<PassedPlace>>)
        ensures { vec_len places.old ≤ vec_len places.new }
    {
        if self.place.is_some() {
            self.give_place_back(places);
        }
    }

    /// Gives its place back. The place is dropped if there is no room for it, since this takes no memory.
    #[inline(never)]
    fn give_place_back(&mut self, places: &mut Vec<Box<PassedPlace>>)
        ensures { vec_len places.old ≤ vec_len places.new }
    {
        if let Some(place) = self.place.take() {
            if places.len() < places.capacity() {
                places.push_reserved(place);
            }
        }
    }
}

/// What lies in a place, if anything does.
fn content(place: &Box<PassedPlace>) -> Option<&Passed>
    ensures { option_map (λ passed. passed.now) result ≡ place.now.value }
{
    match place.as_ref() {
        Some(passed) => Some(passed),
        None => None,
    }
}
