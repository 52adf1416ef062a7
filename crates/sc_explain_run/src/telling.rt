//! Which handlers are reported, and in which order.

use crate::chains::{Chains, Path};
use crate::scene::Scene;
use crate::waits::{Wait, is_any_busy};
use sc_explain_text::Lines;
use sc_lockpass::HandlerNumber;
use sc_request::Core;

/// The most handlers that are reported, beside those of cycles.
const MOST_TOLD: usize = 64;

/// Adds why handlers wait or are busy after the turns of a world have stopped; nothing if each is free or has failed.
/// First come the cycles of handlers that wait for each other, then those that wait for a condition, then the others
/// that wait, each with the chain that it waits in, then those that are busy, and last the requests that no handler
/// takes.
pub fn push_waits(scene: &Scene<'_>, lines: &mut Lines) {
    let order = Order::of(scene.core, lines);
    push_order(scene, lines, &order)
}

/// Adds what is said of handlers in this order, and last the requests.
fn push_order(scene: &Scene<'_>, lines: &mut Lines, order: &Order) {
    for item in order.items.iter() {
        match *item {
            Item::Conditions => lines.push(if is_any_busy(scene.core) {
                "a wait condition that isn't true so far:\n"
            } else {
                "a wait condition that nobody is left to make true:\n"
            }),
            Item::Path(first, path) => push_path(lines, &order.chains, first, path),
            Item::Handler(handler, wait) => scene.push_handler(lines, handler, wait),
        }
    }
    if order.left_out > 0 {
        lines.fill_number("and ~ more, which wait or are busy\n", order.left_out)
    }
    let mut room = MOST_TOLD;
    for handler in 0..scene.handlers {
        if room > 0
            && order.chains.at(handler).wait.is_waiting()
            && scene.push_requests(lines, handler)
        {
            room -= 1
        }
    }
}

/// A part of the report on handlers, one after the other.
#[derive(Clone, Copy)]
enum Part {
    /// Each cycle of handlers that wait for each other.
    Cycles,
    /// Those that wait for a condition.
    Conditions,
    /// Each chain of handlers that wait for one that was reported, or for one that is busy, from one that no other
    /// waits for.
    Chains,
    /// Those that wait or are busy and were not reported.
    Others,
}

/// A piece of the report.
#[derive(Clone, Copy)]
enum Item {
    /// That handlers wait for a condition.
    Conditions,
    /// Which handlers from this one on each wait for the next.
    Path(HandlerNumber, Path),
    /// A handler, and what it waits for.
    Handler(HandlerNumber, Wait),
}

/// The order in which handlers are reported.
#[derive(Drop)]
struct Order {
    chains: Chains,
    items: Vec<Item>,
    /// Whether one of them waits for a condition.
    has_condition: bool,
    /// How many handlers there is room for.
    room: usize,
    /// How many are left out for lack of room.
    left_out: u64,
}

impl Order {
    /// That of the handlers which wait or are busy. If memory is refused to it, the lines are incomplete.
    fn of(core: &Core, lines: &mut Lines) -> Order {
        let mut order = Order {
            chains: Chains::of(core, lines),
            items: Vec::new(lines.alloc()),
            has_condition: false,
            room: MOST_TOLD,
            left_out: 0,
        };
        order.add_part(lines, Part::Cycles);
        order.add_part(lines, Part::Conditions);
        order.add_part(lines, Part::Chains);
        order.add_part(lines, Part::Others);
        order
    }

    /// Adds what a part says.
    fn add_part(&mut self, lines: &mut Lines, part: Part) {
        for handler in 0..self.chains.count {
            let member = self.chains.at(handler);
            match (part, member.wait) {
                _ if member.is_told => {}
                (Part::Others, Wait::Nothing) => {}
                (Part::Others, _) => self.add_handler(lines, handler),
                (Part::Conditions, Wait::Condition) => {
                    if !self.has_condition {
                        self.has_condition = true;
                        self.add(lines, Item::Conditions)
                    }
                    self.add_handler(lines, handler)
                }
                (Part::Cycles | Part::Chains, wait) if wait.is_waiting() => {
                    self.add_path(lines, part, handler)
                }
                _ => {}
            }
        }
    }

    /// Adds the cycle in which a handler waits for itself, if there is one, or else the chain that begins with it.
    fn add_path(&mut self, lines: &mut Lines, part: Part, first: HandlerNumber) {
        let path = self.chains.path_from(first);
        match part {
            Part::Cycles if path.is_cycle => {
                self.add(lines, Item::Path(first, path));
                // None of a cycle takes the room of others.
                let room = self.room;
                self.room = usize::MAX;
                self.add_members(lines, first, path.length);
                self.room = room
            }
            Part::Chains if !self.chains.is_waited_for(first) => {
                if self.room > 0 && path.length > 1 {
                    self.add(lines, Item::Path(first, path))
                }
                self.add_members(lines, first, path.length)
            }
            _ => {}
        }
    }

    /// Adds this number of handlers that each wait for the next.
    fn add_members(&mut self, lines: &mut Lines, first: HandlerNumber, length: usize) {
        let mut handler = first;
        for _member in 0..length {
            self.add_handler(lines, handler);
            handler = self.chains.at(handler).next.unwrap_or(first);
        }
    }

    /// Adds a handler, if it wasn't added and there is room.
    fn add_handler(&mut self, lines: &mut Lines, handler: HandlerNumber) {
        let member = self.chains.at(handler);
        if member.is_told {
            return;
        }
        self.chains.mark(handler);
        if self.room == 0 {
            self.left_out = self.left_out.saturating_add(1);
        } else {
            self.room -= 1;
            self.add(lines, Item::Handler(handler, member.wait))
        }
    }

    fn add(&mut self, lines: &mut Lines, item: Item) {
        if let Err(_) = self.items.push(item) {
            lines.lack()
        }
    }
}

/// Adds which handlers from this one on each wait for the next, and how those of a cycle wait for each other.
fn push_path(lines: &mut Lines, chains: &Chains, first: HandlerNumber, path: Path) {
    let mut template = if path.is_cycle {
        "deadlock: ~"
    } else {
        "chain: ~"
    };
    let mut handler = first;
    for _member in 0..path.length {
        lines.fill_number(template, handler as u64);
        template = " -> ~";
        handler = chains.at(handler).next.unwrap_or(first);
    }
    lines.fill_number(end_of(path), first as u64)
}

/// How handlers wait for each other, after the first of them in place of `~`.
fn end_of(path: Path) -> &'static str {
    match (path.is_cycle, path.answers) {
        (false, _) => ", each waits for the next one\n",
        (true, 0) => " -> ~, each waits to reserve what the next one has\n",
        (true, answers) if answers == path.length => {
            " -> ~, each waits for the answer of the next one\n"
        }
        (true, _) => " -> ~, each waits for the next one: for its answer, or to reserve it\n",
    }
}
