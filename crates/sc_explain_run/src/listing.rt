//! What a program and its text give to a sentence: names, and what stands where.

use crate::places::written;
use sc_code::{ClauseText, FeatureCode, NameNumber, Program, RoutineText};
use sc_source::source::Source;
use sc_text::Span;

/// A program, and the text that it was made of.
#[derive(Clone, Copy)]
pub struct Listing<'r> {
    pub source: &'r Source,
    pub program: &'r Program,
}

impl<'r> Listing<'r> {
    /// The name of a number, as the program has it.
    pub fn name(&self, number: NameNumber) -> &'r str {
        match self.program.pool().names.get(number as usize) {
            Some(name) => name.as_str(),
            None => "..",
        }
    }

    /// The name of the class at a number.
    pub fn class_name(&self, class: usize) -> &'r str {
        match self.program.classes().get(class) {
            Some(class) => written(self.source, class.text.name),
            None => "..",
        }
    }

    /// The number of the class that contains a part of the text.
    pub fn class_around(&self, part: Span) -> usize {
        let mut around = 0_usize;
        let mut number = 0_usize;
        for class in self.program.classes() {
            if class.text.span.start <= part.start {
                around = number;
            }
            number = number.saturating_add(1);
        }
        around
    }

    /// The place of a routine in the text, and the parts that its operations were made of.
    pub fn text_of(&self, routine: usize) -> Option<&'r RoutineText> {
        match self.program.routine(routine) {
            Some(routine) => Some(&routine.text),
            None => None,
        }
    }

    /// What the name of this number is in a class.
    pub fn feature_in(&self, class: usize, name: NameNumber) -> Option<FeatureCode> {
        if let Some(class) = self.program.classes().get(class)
            && let Some(feature) = class.features.get(name as usize)
        {
            *feature
        } else {
            None
        }
    }

    /// The place of the name of the feature that the name of this number is in a class.
    pub fn feature_name(&self, class: usize, name: NameNumber) -> Option<Span> {
        match self.feature_in(class, name) {
            Some(FeatureCode::Attribute(number)) => {
                if let Some(class) = self.program.classes().get(class)
                    && let Some(attribute) = class.attributes.get(number)
                {
                    Some(attribute.name)
                } else {
                    None
                }
            }
            Some(FeatureCode::Routine(number)) => match self.program.routine(number) {
                Some(routine) => Some(routine.text.name),
                None => None,
            },
            None => None,
        }
    }

    /// The clause at this number, from 0, of those that a class declares itself.
    pub fn own_clause(&self, class: usize, number: usize) -> Option<ClauseText> {
        match self.program.classes().get(class) {
            Some(class) => class.text.invariant.get(number).copied(),
            None => None,
        }
    }
}
