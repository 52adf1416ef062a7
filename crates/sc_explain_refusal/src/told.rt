//! A sentence on one fault, with the types and names that are found in the checked tables.

use crate::declared::{class_around, feature_around, routine_of};
use crate::site::{Found, Search, is_of_parts};
use crate::walk::Walk;
use sc_class::{ClassId, Tables};
use sc_explain_text::{Lines, Related};
use sc_rules::entity_types::EntityType;
use sc_rules::{Context, Rule};
use sc_text::Span;
use sc_tree::{Class, Declaration, Name, Routine};
use sc_typing::{Purity, RoutineContext, result_type};
use std::alloc::Global;

impl<'s> Search<'s> {
    /// Adds a sentence on this very fault, in the system of these tables, and what helps, if more can be said about it than
    /// by the rule alone: as the part in the routine around it, or else outside the routines of the class. (Running out of
    /// memory is reported here.) Returns the place that goes with it, if one does.
    pub(crate) fn push_told(
        self,
        alloc: Global,
        lines: &mut Lines,
        tables: &Tables<'_>,
    ) -> Option<Related> {
        let Some((number, class)) = class_around(tables.classes(), self.spot.span) else {
            return None;
        };
        let routine = match feature_around(class, self.spot.span) {
            Some(feature) if is_of_parts(self.rule) => routine_of(feature),
            _ => None,
        };
        let related = self.push_in(alloc, lines, tables, number, class, routine);
        if routine.is_none() || related.is_some() || !lines.is_empty() {
            return related;
        }
        self.push_in(alloc, lines, tables, number, class, None)
    }

    /// Adds what can be said about the part, if a walk through this routine of the class at a number reaches it, or
    /// without a routine, if it is in the invariant of the class or in its list of creators.
    fn push_in(
        self,
        alloc: Global,
        lines: &mut Lines,
        tables: &'s Tables<'s>,
        number: usize,
        class: &'s Class,
        routine: Option<&'s Routine>,
    ) -> Option<Related> {
        let purity = Purity::NotAsked;
        let mut walk = Walk {
            search: self,
            routine: RoutineContext {
                alloc,
                tables,
                class: number,
                formals: formals_of(routine),
                result: result_of(tables, routine),
                purity: &purity,
            },
            names: Vec::new(alloc),
        };
        walk.push_passed(lines, class, routine)
    }
}

fn formals_of(routine: Option<&Routine>) -> &[Declaration] {
    match routine {
        None => &[],
        Some(routine) => &routine.formals,
    }
}

fn result_of(tables: &Tables, routine: Option<&Routine>) -> Option<Option<EntityType>> {
    match routine {
        None => None,
        Some(routine) => result_type(tables, &routine.result_type),
    }
}

impl<'s> Walk<'s> {
    /// Passes this routine of a class, or else the class's invariant and list of creators, and adds what can be said
    /// about the part, if it was found there. Returns the place that goes with it, if one does.
    fn push_passed(
        &mut self,
        lines: &mut Lines,
        class: &'s Class,
        routine: Option<&'s Routine>,
    ) -> Option<Related> {
        match routine {
            Some(routine) => self.pass_routine(routine),
            None => self
                .search
                .pass_clauses(Context::Invariant, &class.invariant),
        }
        let Search { rule, spot, found } = self.search;
        let is_listed = routine.is_none() && lists(&class.creators, spot.span);
        match (found, rule) {
            (Found::At(part, place), _) => {
                self.search.spot.place = place;
                self.tell(lines, part);
                return self.related_to(lines, part);
            }
            (Found::Nothing, Rule::UnknownName) if is_listed => {
                self.push_lacking(lines, ClassId::Declared(self.routine.class))
            }
            (Found::Nothing, _) if is_listed => {
                spot.say(lines, "`~` gives a value, and a procedure creates\n")
            }
            (Found::Nothing | Found::Faulty, _) => {}
            (Found::OutOfMemory, _) => lines.lack(),
        }
        None
    }
}

/// Whether one of these names has this place.
fn lists(names: &[Name], span: Span) -> bool {
    for name in names {
        if name.span == span {
            return true;
        }
    }
    false
}
