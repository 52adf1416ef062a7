//! What is said of one handler of a world that has stopped.

use crate::evaluation::{Goal, Start, push_evaluated};
use crate::naming::queued_at;
use crate::places::push_stand;
use crate::scene::Scene;
use crate::waits::{Wait, keeper_of};
use sc_explain_text::Lines;
use sc_lockpass::HandlerNumber;
use sc_model::Status;
use sc_request::Core;

/// How many handlers a list names at most.
const MOST_LISTED: usize = 8;

impl<'r> Scene<'r> {
    /// Adds a handler: what it holds, what it waits for, and its place.
    pub fn push_handler(&self, lines: &mut Lines, handler: HandlerNumber, wait: Wait) {
        let standing = self.standing_of(handler);
        self.named(handler).push(lines, "handler ~");
        self.push_held(lines, handler);
        match wait {
            Wait::Nothing => {}
            Wait::Busy => {
                lines.push(" is busy");
                if standing.is_none()
                    && let Some(asked) = queued_at(self.core, handler, 0)
                {
                    lines.push(": it is to take ");
                    self.push_request(lines, asked)
                }
            }
            Wait::Reservation => self.push_wanted(lines, handler),
            Wait::Condition => {
                self.push_wanted(lines, handler);
                lines.push(" until the precondition holds")
            }
            Wait::Answer(supplier) => {
                self.named(supplier)
                    .push(lines, " waits for the answer of ~")
            }
        }
        push_stand(lines, self.listing.source, standing);
        lines.push("\n");
        if let Wait::Condition = wait {
            push_evaluated(self, lines, handler, Start::Place(0), Goal::FalseClause)
        }
    }

    /// Adds the handlers that this one holds.
    fn push_held(&self, lines: &mut Lines, holder: HandlerNumber) {
        let mut template = " holds ~";
        let mut count = 0_usize;
        for handler in 0..self.handlers {
            if let Some(other) = self.core.holder(handler)
                && other == holder
            {
                if count < MOST_LISTED {
                    self.named(handler).push(lines, template);
                    template = ", ~";
                }
                count = count.saturating_add(1);
            }
        }
        match count {
            0 => {}
            1..=MOST_LISTED => lines.push(","),
            _ => lines.push(" and others,"),
        }
    }

    /// Adds what a handler waits to reserve, and who keeps it from each.
    fn push_wanted(&self, lines: &mut Lines, handler: HandlerNumber) {
        let mut template = " waits for ~";
        let needed = self.core.needed_by(handler);
        for one in needed.as_slice() {
            self.named(*one).push(lines, template);
            push_keeper(lines, self.core, *one);
            template = ", and for ~";
        }
    }

    /// Adds the requests in the queue of a handler that waits, if there are any. Returns whether there are.
    pub fn push_requests(&self, lines: &mut Lines, handler: HandlerNumber) -> bool {
        let Some(asked) = queued_at(self.core, handler, 0) else {
            return false;
        };
        let count = self.core.queue_len(handler);
        let template = if count == 1 {
            "~ request stands at handler "
        } else {
            "~ requests stand at handler "
        };
        lines.fill_number(template, count as u64);
        self.named(handler).push(lines, "~");
        lines.push(if count == 1 {
            ", which can't take any: "
        } else {
            ", which can't take any: first "
        });
        self.push_request(lines, asked);
        lines.push("\n");
        true
    }
}

/// Adds who keeps others from reserving a handler: the one that holds it, or itself.
fn push_keeper(lines: &mut Lines, core: &Core, handler: HandlerNumber) {
    match (keeper_of(core, handler), core.status(handler)) {
        (None, _) => {}
        (Some(keeper), _) if keeper != handler => lines.fill_number(", held by ~", keeper as u64),
        (Some(_), Some(Status::Busy)) => lines.push(", which is busy"),
        (Some(_), _) => lines.push(", which waits itself"),
    }
}
