//! Which handler waits for which: cycles, and the chains that lead to them or to one that waits for something else.

use crate::waits::{Wait, count_of, keeper_of, wait_of};
use sc_explain_text::Lines;
use sc_lockpass::HandlerNumber;
use sc_request::Core;

/// A handler among those that wait for each other.
#[derive(Clone, Copy)]
pub struct Member {
    pub wait: Wait,
    /// The waiting handler that keeps it waiting, if one does; one of a cycle, or that leads to a cycle, if there is
    /// one.
    pub next: Option<HandlerNumber>,
    /// Whether it waits, and may be one of a cycle or lead to one.
    is_stuck: bool,
    /// Whether it was reported.
    pub is_told: bool,
}

/// In place of a handler that doesn't exist.
const NOBODY: Member = Member {
    wait: Wait::Nothing,
    next: None,
    is_stuck: false,
    is_told: true,
};

/// What is done with the handlers, one after the other.
#[derive(Clone, Copy)]
enum Pass {
    /// Links each to the first handler that may be stuck and keeps it waiting, if there is one.
    Links,
    /// Finds those that aren't stuck: no handler that may be stuck keeps them waiting.
    Frees,
}

/// Handlers that each wait for the next: up to one that waits for the first of them, or that waits for one that was
/// reported, which is counted too, or for no handler that waits.
#[derive(Clone, Copy)]
pub struct Path {
    pub length: usize,
    /// How many of them wait for an answer.
    pub answers: usize,
    /// Whether the last waits for the first.
    pub is_cycle: bool,
}

/// The handlers of a world, in order of number.
#[derive(Drop)]
pub struct Chains {
    pub count: HandlerNumber,
    members: Vec<Member>,
}

impl Chains {
    /// The chains of a world, none of them reported. If memory is refused, the lines are incomplete.
    pub fn of(core: &Core, lines: &mut Lines) -> Chains {
        let mut chains = Chains {
            count: count_of(core),
            members: Vec::new(lines.alloc()),
        };
        for handler in 0..chains.count {
            let wait = wait_of(core, handler);
            let member = Member {
                wait,
                next: None,
                is_stuck: wait.is_waiting(),
                is_told: false,
            };
            if let Err(_) = chains.members.push(member) {
                lines.lack()
            }
        }
        chains.link(core);
        chains
    }

    /// Sets for each handler the one that keeps it waiting.
    fn link(&mut self, core: &Core) {
        self.go_through(core, Pass::Links);
        // Those are left that lead to a cycle.
        for _round in 0..self.count {
            if !self.go_through(core, Pass::Frees) {
                break;
            }
        }
        self.go_through(core, Pass::Links);
    }

    /// Does this with each handler: whether there was one to be freed.
    fn go_through(&mut self, core: &Core, pass: Pass) -> bool {
        let mut is_changed = false;
        for handler in 0..self.count {
            let keeper = self.keeper_in(core, handler);
            if let Some(member) = self.members.get_mut(handler as usize) {
                match (pass, keeper) {
                    (Pass::Links, Some(_)) => member.next = keeper,
                    (Pass::Frees, None) if member.is_stuck => {
                        member.is_stuck = false;
                        is_changed = true
                    }
                    _ => {}
                }
            }
        }
        is_changed
    }

    /// The first that may be stuck of those that keep a handler waiting.
    fn keeper_in(&self, core: &Core, handler: HandlerNumber) -> Option<HandlerNumber> {
        match self.at(handler).wait {
            Wait::Reservation => self.holder_in(core, handler),
            Wait::Answer(supplier) if self.at(supplier).is_stuck => Some(supplier),
            _ => None,
        }
    }

    /// The first that may be stuck of those that keep a handler from what it is to reserve.
    fn holder_in(&self, core: &Core, handler: HandlerNumber) -> Option<HandlerNumber> {
        let needed = core.needed_by(handler);
        for one in needed.as_slice() {
            if let Some(keeper) = keeper_of(core, *one)
                && self.at(keeper).is_stuck
            {
                return Some(keeper);
            }
        }
        None
    }

    /// The handler of a number.
    pub fn at(&self, handler: HandlerNumber) -> Member {
        match self.members.get(handler as usize) {
            Some(member) => *member,
            None => NOBODY,
        }
    }

    /// Marks a handler as reported.
    pub fn mark(&mut self, handler: HandlerNumber) {
        if let Some(member) = self.members.get_mut(handler as usize) {
            member.is_told = true;
        }
    }

    /// Whether a waiting handler waits for this one.
    pub fn is_waited_for(&self, handler: HandlerNumber) -> bool {
        for member in self.members.iter() {
            match member.next {
                Some(next) if next == handler => return true,
                _ => {}
            }
        }
        false
    }

    /// The handlers from this one on that each wait for the next.
    pub fn path_from(&self, first: HandlerNumber) -> Path {
        let mut path = Path {
            length: 1,
            answers: 0,
            is_cycle: false,
        };
        let mut at = first;
        for _step in 0..self.count {
            let member = self.at(at);
            if let Wait::Answer(_) = member.wait {
                path.answers = path.answers.saturating_add(1);
            }
            let Some(next) = member.next else {
                break;
            };
            if next == first {
                path.is_cycle = true;
                break;
            }
            path.length = path.length.saturating_add(1);
            if self.at(next).is_told {
                break;
            }
            at = next;
        }
        path
    }
}
