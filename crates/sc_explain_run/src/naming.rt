//! How handlers and requests are named.

use crate::listing::Listing;
use crate::places::{push_place, span_in, written};
use crate::scene::Scene;
use sc_code::ClassNumber;
use sc_explain_text::Lines;
use sc_lockpass::HandlerNumber;
use sc_region::{Errand, Request, Stage};
use sc_request::Core;
use sc_text::Span;

/// The most callers of a routine that are reported.
const MOST_CALLERS: usize = 16;

/// A handler, and the class of its root object, if it has one.
#[derive(Clone, Copy)]
pub struct Named<'r> {
    number: HandlerNumber,
    class: Option<&'r str>,
}

impl<'r> Named<'r> {
    /// The handler of this number, whose root object is of this class.
    pub fn of(
        listing: &Listing<'r>,
        number: HandlerNumber,
        class: Option<ClassNumber>,
    ) -> Named<'r> {
        let class = match class {
            Some(class) => Some(listing.class_name(class as usize)),
            None => None,
        };
        Named { number, class }
    }

    /// Adds these words with the number of the handler in the place of `~`, and then the class.
    pub fn push(&self, lines: &mut Lines, template: &str) {
        lines.fill_number(template, self.number as u64);
        if let Some(class) = self.class {
            lines.fill_name(" (~)", class)
        }
    }

    /// Adds the class and then the number.
    pub fn push_class_first(&self, lines: &mut Lines) {
        match self.class {
            Some(class) => lines.fill_name("~ ", class),
            None => lines.push("handler "),
        }
        lines.push_number(self.number as u64)
    }
}

/// What is asked for, and by whom.
#[derive(Clone, Copy)]
pub struct Asked {
    pub poster: Option<HandlerNumber>,
    /// The number of the class whose object it is asked of.
    pub class: usize,
    pub errand: Errand,
}

/// What a request asks for.
pub fn asked_by(request: &Request) -> Asked {
    Asked {
        poster: request.poster,
        class: request.target.class as usize,
        errand: request.errand,
    }
}

/// What the request at a place of the queue of a handler asks for, from 0, which is taken next.
pub fn queued_at(core: &Core, handler: HandlerNumber, place: usize) -> Option<Asked> {
    match core.asked_at(handler, place) {
        Some(request) => Some(asked_by(&request)),
        None => None,
    }
}

impl<'r> Listing<'r> {
    /// What is asked for, as it is declared: the name of the feature, or of the creation procedure; None for a
    /// creation without one.
    pub fn asked_feature(&self, asked: Asked) -> Option<Span> {
        match asked.errand {
            Errand::Calls(name) | Errand::Makes(Some(name)) => self.feature_name(asked.class, name),
            Errand::Makes(None) => None,
        }
    }

    /// Adds the feature that is asked for, as the text has it.
    pub fn push_feature(&self, lines: &mut Lines, asked: Asked) {
        match self.asked_feature(asked) {
            None => lines.push("a feature"),
            Some(name) => lines.fill_name("`~`", written(self.source, name)),
        }
    }

    /// Adds the place of the operation before this one of a routine, which has called another one there.
    fn push_caller(&self, lines: &mut Lines, routine: usize, next: usize) {
        if let Some(text) = self.text_of(routine)
            && let Some(part) = span_in(text, next.saturating_sub(1))
        {
            push_place(lines, self.source, "called at ", part);
            lines.fill_name(" in ~\n", written(self.source, text.name))
        }
    }
}

impl<'r> Scene<'r> {
    /// Adds what is asked for, and for whom.
    pub fn push_request(&self, lines: &mut Lines, asked: Asked) {
        match asked.errand {
            Errand::Makes(_) => lines.push("its creation"),
            Errand::Calls(_) => self.listing.push_feature(lines, asked),
        }
        if let Some(poster) = asked.poster {
            self.named(poster).push(lines, " for ~")
        }
    }

    /// Adds the place of the caller of the routine that a handler is in, that of its caller, and so on, the innermost
    /// first, each on a line: as far as they serve one request.
    pub fn push_callers(&self, lines: &mut Lines, handler: HandlerNumber) {
        let Some(store) = self.store(handler) else {
            return;
        };
        for count in 1..MOST_CALLERS + 2 {
            match store.under(count) {
                Some(caller) if matches!(caller.stage, Stage::InCall { .. }) => {
                    if count > MOST_CALLERS {
                        return lines.push("and so on\n");
                    }
                    self.listing
                        .push_caller(lines, caller.routine, caller.place)
                }
                _ => return,
            }
        }
    }
}
