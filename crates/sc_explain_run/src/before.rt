//! What there was in front of a failure: values, the handlers that waited, and the requests that were lost.

use crate::breakdown::Failure;
use crate::history::{Begun, served_before};
use crate::naming::queued_at;
use crate::places::push_stand;
use crate::scene::Scene;
use sc_explain_text::Lines;
use sc_handler::Log;
use sc_model::Cause;
use sc_region::BrokenInvariant;

/// The most waiting handlers that are reported.
const MOST_CLIENTS: usize = 16;

/// The most requests dropped by a failure that are reported.
const MOST_DROPPED: usize = 8;

impl Failure {
    /// Adds the values of what failed, and the routines that had called the one that failed, the innermost first.
    pub fn push_values(&self, lines: &mut Lines, ended: &Scene<'_>, before: &Scene<'_>) {
        let breakdown = self.breakdown;
        match (self.turn.begun, breakdown.invariant, breakdown.point) {
            (Begun::Takes(_), _, _) => return,
            (Begun::GoesOn(_), Some(broken), _) => self.push_broken(lines, ended, before, broken),
            (Begun::GoesOn(answer), None, Some(point)) if self.is_of_values() => {
                before.push_operation_values(lines, self.handler, answer, point.place);
                before.push_held_since(lines, self.handler, point)
            }
            _ => {}
        }
        before.push_callers(lines, self.handler)
    }

    /// Whether it failed at an operation, by the values that this takes.
    fn is_of_values(&self) -> bool {
        match self.cause {
            Cause::Postcondition
            | Cause::Check
            | Cause::Precondition
            | Cause::Overflow
            | Cause::DivideByZero => !self.turn.is_behind,
            _ => false,
        }
    }

    /// Adds the attributes that a clause of an invariant names, which the object that the handler was at has broken.
    fn push_broken(
        &self,
        lines: &mut Lines,
        ended: &Scene<'_>,
        before: &Scene<'_>,
        broken: BrokenInvariant,
    ) {
        if let Some(clause) = ended.listing.own_clause(broken.declarer, broken.clause)
            && let Some(store) = before.store(self.handler)
            && let Some(object) = store.current()
            && object.class == broken.class
        {
            ended.push_attributes(lines, object, clause.span)
        }
    }

    /// Adds which handler waited for the failed one, which for that one, and so on: with what each requested, and
    /// where. One that waited with a routine and serves a callback now gets no place.
    pub fn push_clients(&self, lines: &mut Lines, before: &Scene<'_>, log: &Log) {
        let mut handler = self.handler;
        let mut end = self.turn.place.saturating_add(1);
        for _client in 0..MOST_CLIENTS {
            let Some(served) = served_before(log, handler, end) else {
                return;
            };
            let (true, Some(client)) = (served.is_waited, served.asked.poster) else {
                return;
            };
            before.named(client).push(lines, "handler ~");
            match before.core.awaits(client) {
                Some(supplier) if supplier == handler => {
                    lines.push(" waited for it");
                    push_stand(lines, before.listing.source, before.standing_of(client));
                    lines.push("\n");
                    before.push_callers(lines, client)
                }
                _ => lines.push(" waited for it\n"),
            }
            handler = client;
            end = served.place;
        }
    }

    /// Adds which requests came after the one that failed.
    pub fn push_dropped(&self, lines: &mut Lines, before: &Scene<'_>) {
        // the one that failed was the first of them as long as it wasn't taken
        let first = matches!(self.turn.begun, Begun::Takes(_)) as usize;
        let count = before.core.queue_len(self.handler).saturating_sub(first);
        let template = match count {
            0 => return,
            1 => "~ request that stood behind it was dropped: ",
            _ => "~ requests that stood behind it were dropped: ",
        };
        lines.fill_number(template, count as u64);
        let mut separator = "";
        for place in first..count.min(MOST_DROPPED).saturating_add(first) {
            if let Some(asked) = queued_at(before.core, self.handler, place) {
                lines.push(separator);
                before.push_request(lines, asked);
                separator = ", "
            }
        }
        lines.push(if count > MOST_DROPPED {
            " and so on\n"
        } else {
            "\n"
        })
    }
}
