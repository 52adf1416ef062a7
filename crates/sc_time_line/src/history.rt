//! The turns of a run, each with what came before it.

use crate::turn::{Began, Made, Taken, Turn};
use sc_lockpass::HandlerNumber;
use sc_text::Span;
use std::alloc::{AllocError, Global};

/// How many handlers there may be.
const MOST_HANDLERS: usize = 512;

/// The most turns that are kept.
const MOST_MOMENTS: usize = 1_000_000;

/// A turn of a run.
#[derive(Drop)]
pub struct Moment {
    pub turn: Turn,
    /// The turn, from 1, that has sent the request that it takes, or led to the answer that it takes, if that is known.
    pub after: Option<usize>,
    /// What the turn did, in words, a line for each sentence.
    pub told: Vec<u8>,
}

/// That a handler is reserved for another one, from a turn to a turn, which are counted from 1.
#[derive(Clone, Copy)]
pub struct Held {
    pub handler: HandlerNumber,
    pub holder: HandlerNumber,
    pub from: usize,
    pub to: usize,
}

/// That a handler waits, from after a turn to the end of a turn, which are counted from 1.
#[derive(Clone, Copy)]
pub struct Wait {
    pub handler: HandlerNumber,
    pub from: usize,
    pub to: usize,
}

/// A request that a handler waits to take, or is serving.
#[derive(Clone, Copy)]
struct Request {
    by: Option<HandlerNumber>,
    to: HandlerNumber,
    is_waited: bool,
    /// The turn that has sent it.
    number: usize,
}

/// The turns of a run.
#[derive(Drop)]
pub struct History {
    pub moments: Vec<Moment>,
    /// The name of the class of each handler's root object, as a part of the text, if it has one.
    pub classes: Vec<Option<Span>>,
    /// Which handlers were reserved for which.
    pub held: Vec<Held>,
    /// Which handlers waited.
    pub waits: Vec<Wait>,
    /// How many turns were made, of which no more are kept than there may be.
    pub turns: usize,
    /// The requests that no handler has taken, in the order in which they were sent.
    pending: Vec<Request>,
    /// The requests that are served, in the order in which they were taken.
    served: Vec<Request>,
    /// For each handler the turn that led to the answer that it is to take, or 0.
    answers: Vec<usize>,
    /// For each handler the place of the reservation in which it is held, or of none.
    open: Vec<usize>,
    /// For each handler the place of the wait that it is in, or of none.
    waiting: Vec<usize>,
    /// Whether memory was refused to a part.
    pub is_lacking: bool,
}

impl History {
    /// In front of the first turn.
    ///
    /// # Errors
    /// Memory ran out.
    pub fn new(alloc: Global) -> Result<History, AllocError> {
        let (Ok(open), Ok(waiting), Ok(answers)) = (
            vec![in alloc; usize::MAX; MOST_HANDLERS],
            vec![in alloc; usize::MAX; MOST_HANDLERS],
            vec![in alloc; 0_usize; MOST_HANDLERS],
        ) else {
            return Err(AllocError);
        };
        Ok(History {
            moments: Vec::new(alloc),
            classes: Vec::new(alloc),
            held: Vec::new(alloc),
            waits: Vec::new(alloc),
            turns: 0,
            pending: Vec::new(alloc),
            served: Vec::new(alloc),
            answers,
            open,
            waiting,
            is_lacking: false,
        })
    }

    /// Whether no more turns are kept.
    pub fn is_full(&self) -> bool {
        self.moments.len() >= MOST_MOMENTS
    }

    /// Adds a turn, with what it did in words.
    pub fn add(&mut self, turn: Turn, told: Result<Vec<u8>, AllocError>) {
        self.turns = self.turns.saturating_add(1);
        let Ok(told) = told else {
            return self.lack();
        };
        let after = self.linked(turn);
        if let Err(_) = self.moments.push(Moment { turn, after, told }) {
            self.lack()
        }
    }

    /// Notes that memory was refused to a part.
    pub fn lack(&mut self) {
        self.is_lacking = true
    }

    /// Links a turn to those before it. Returns the one that has sent what it takes, if that is known.
    fn linked(&mut self, turn: Turn) -> Option<usize> {
        let after = match turn.began {
            Began::Takes(taken) => self.take(turn.handler, taken),
            Began::Answered => self.answered(turn.handler),
            Began::Reserves | Began::GoesOn => None,
        };
        if let Some(sent) = turn.sent {
            let request = Request {
                by: Some(turn.handler),
                to: sent.to,
                is_waited: sent.is_waited,
                number: self.turns,
            };
            self.keep(request)
        }
        match turn.made {
            Made::Ends | Made::Refuses => {
                self.end(turn.handler);
            }
            Made::Fails => self.fail(turn.handler),
            _ => {}
        }
        after
    }

    /// Keeps a request that no handler has taken.
    fn keep(&mut self, request: Request) {
        if let Err(_) = self.pending.push(request) {
            self.lack()
        }
    }

    /// A handler takes this request. Returns the turn that has sent it, if that is known.
    fn take(&mut self, handler: HandlerNumber, taken: Taken) -> Option<usize> {
        let mut request = Request {
            by: taken.by,
            to: handler,
            is_waited: taken.is_waited,
            number: 0,
        };
        if let Some(place) = place_of(self.pending.as_slice(), request)
            && let Some(sent) = removed(&mut self.pending, place)
        {
            request = sent
        }
        if let Err(_) = self.served.push(request) {
            self.lack()
        }
        match request.number {
            0 => None,
            number => Some(number),
        }
    }

    /// A handler takes an answer. Returns the turn that led to it, if that is known.
    fn answered(&mut self, handler: HandlerNumber) -> Option<usize> {
        let Some(answer) = self.answers.get_mut(handler as usize) else {
            return None;
        };
        let number = *answer;
        *answer = 0;
        match number {
            0 => None,
            number => Some(number),
        }
    }

    /// A handler ends the request that it has taken last. Returns whether there is one.
    fn end(&mut self, handler: HandlerNumber) -> bool {
        if let Some(place) = last_to(self.served.as_slice(), handler)
            && let Some(request) = removed(&mut self.served, place)
        {
            self.answer(request);
            true
        } else {
            false
        }
    }

    /// A handler fails, and with it all that it was asked for.
    fn fail(&mut self, handler: HandlerNumber) {
        for _request in 0..self.served.len() {
            if !self.end(handler) {
                break;
            }
        }
        for _request in 0..self.pending.len() {
            if !self.drop_last(handler) {
                break;
            }
        }
    }

    /// A request that a handler hasn't taken is dropped. Returns whether there is one.
    fn drop_last(&mut self, handler: HandlerNumber) -> bool {
        if let Some(place) = last_to(self.pending.as_slice(), handler)
            && let Some(request) = removed(&mut self.pending, place)
        {
            self.answer(request);
            true
        } else {
            false
        }
    }

    /// This turn leads to the answer to a request, if a handler waits for that.
    fn answer(&mut self, request: Request) {
        if let Some(by) = request.by
            && request.is_waited
            && let Some(answer) = self.answers.get_mut(by as usize)
        {
            *answer = self.turns
        }
    }

    /// Notes which handler a handler is reserved for after the turn that was added last, if it is.
    pub fn hold(&mut self, handler: HandlerNumber, holder: Option<HandlerNumber>) {
        let turns = self.turns;
        let Some(open) = self.open.get_mut(handler as usize) else {
            return;
        };
        if let Some(held) = self.held.get_mut(*open)
            && let Some(holder) = holder
            && held.handler == handler
            && held.holder == holder
        {
            held.to = turns;
            return;
        }
        *open = usize::MAX;
        if let Some(holder) = holder {
            *open = self.held.len();
            let held = Held {
                handler,
                holder,
                from: turns,
                to: turns,
            };
            if let Err(_) = self.held.push(held) {
                self.is_lacking = true
            }
        }
    }

    /// Notes whether a handler waits after the turn that was added last.
    pub fn wait(&mut self, handler: HandlerNumber, is_waiting: bool) {
        let turns = self.turns;
        let Some(waiting) = self.waiting.get_mut(handler as usize) else {
            return;
        };
        let next = turns.saturating_add(1);
        if !is_waiting {
            *waiting = usize::MAX
        } else if let Some(wait) = self.waits.get_mut(*waiting) {
            wait.to = next
        } else {
            *waiting = self.waits.len();
            let wait = Wait {
                handler,
                from: turns,
                to: next,
            };
            if let Err(_) = self.waits.push(wait) {
                self.is_lacking = true
            }
        }
    }

    /// Notes the class of the next handler in order of number.
    pub fn end_handler(&mut self, class: Option<Span>) {
        if let Err(_) = self.classes.push(class) {
            self.lack()
        }
    }
}

/// The place of the first of these requests that is to this handler by this one, and waited for as this one.
fn place_of(requests: &[Request], sought: Request) -> Option<usize> {
    let mut place = 0_usize;
    for request in requests {
        if request.to == sought.to
            && request.by == sought.by
            && request.is_waited == sought.is_waited
        {
            return Some(place);
        }
        place = place.saturating_add(1);
    }
    None
}

/// The place of the last of these requests to this handler.
fn last_to(requests: &[Request], handler: HandlerNumber) -> Option<usize> {
    let mut found = None;
    let mut place = 0_usize;
    for request in requests {
        if request.to == handler {
            found = Some(place);
        }
        place = place.saturating_add(1);
    }
    found
}

/// Takes the request at a place out of these, if there is one.
fn removed(requests: &mut Vec<Request>, place: usize) -> Option<Request> {
    if place < requests.len() {
        Some(requests.remove(place))
    } else {
        None
    }
}
