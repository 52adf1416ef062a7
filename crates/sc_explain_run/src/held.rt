//! Since when a handler is held that a false clause of a precondition asks: as long as it is, no other handler can make
//! the clause hold, so the clause isn't waited for.

use crate::places::{push_place, written};
use crate::scene::Scene;
use sc_code::{Operation, Program};
use sc_explain_text::Lines;
use sc_lockpass::HandlerNumber;
use sc_region::{Activation, Point, Value};
use sc_text::Span;

/// How many routines are looked at, the innermost first.
const MOST_FRAMES: usize = 1_000;

impl<'r> Scene<'r> {
    /// Adds since when the first handler is held that the clause at this place names, if the topmost routine of a handler
    /// is at it: a line, or nothing.
    pub fn push_held_since(&self, lines: &mut Lines, handler: HandlerNumber, point: Point) {
        if let Some(store) = self.store(handler)
            && let Some(top) = store.top()
            && top.routine == point.routine
        {
            for slot in demanded_at(self.listing.program, point) {
                if let Some(Value::Attached(object)) = top.slots.get(*slot)
                    && let Some(routine) = self.reserver_of(object.handler)
                {
                    let source = self.listing.source;
                    self.named(object.handler).push(lines, "handler ~");
                    lines.fill_name(" is held since `~`", written(source, routine));
                    push_place(lines, source, " at ", routine);
                    return lines.push(", so the clause can't be waited for\n");
                }
            }
        }
    }

    /// The name of the innermost routine that has reserved a handler and still holds it, of the first handler that has
    /// one.
    fn reserver_of(&self, held: HandlerNumber) -> Option<Span> {
        for holder in 0..self.handlers {
            if let Some(store) = self.store(holder) {
                for count in 0..MOST_FRAMES {
                    match store.under(count) {
                        None => break,
                        Some(frame) if has_reserved(frame, held) => {
                            return match self.listing.text_of(frame.routine) {
                                Some(text) => Some(text.name),
                                None => None,
                            };
                        }
                        Some(_) => {}
                    }
                }
            }
        }
        None
    }
}

/// The slots of the formals that the clause at this place names; none if there is no clause of a precondition.
fn demanded_at(program: &Program, point: Point) -> &[usize] {
    if let Some(routine) = program.routine(point.routine)
        && let Some(Operation::Demand(number)) = routine.operations.get(point.place)
        && let Some(slots) = program.pool().demands.get(*number)
    {
        slots.as_slice()
    } else {
        &[]
    }
}

/// Whether a routine or one of its separate blocks has reserved a handler.
fn has_reserved(frame: &Activation, handler: HandlerNumber) -> bool {
    if frame.reserved.contains(&handler) {
        return true;
    }
    for block in frame.blocks.iter() {
        if block.contains(&handler) {
            return true;
        }
    }
    false
}
