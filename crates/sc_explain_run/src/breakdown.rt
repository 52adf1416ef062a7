//! What is said of the failure of a handler: its cause, where the handler stood, and for whom it ran.

use crate::history::{Begun, Turn, last_turn, served_before};
use crate::listing::Listing;
use crate::naming::Asked;
use crate::places::{push_excerpt, push_place, written};
use crate::scene::Scene;
use crate::supplier::supplier_of;
use crate::words::{false_clause, push_clause, push_site};
use sc_code::{RoutineText, SiteKind, TextSite};
use sc_explain_text::{Lines, find};
use sc_lockpass::HandlerNumber;
use sc_model::Cause;
use sc_region::{Breakdown, BrokenInvariant, Errand, Point};
use sc_world::code_of;

/// A failure of a handler.
#[derive(Clone, Copy)]
pub struct Failure {
    pub handler: HandlerNumber,
    pub cause: Cause,
    /// The turn by which the handler failed.
    pub turn: Turn,
    pub breakdown: Breakdown,
    /// The request that it served.
    asked: Option<Asked>,
}

/// Adds all that is said of the failure of a handler by this cause: less, if the world in front of it isn't given.
pub fn push_failure(
    ended: &Scene<'_>,
    before: Option<&Scene<'_>>,
    lines: &mut Lines,
    handler: HandlerNumber,
    cause: Cause,
) {
    push_cause(lines, handler, cause);
    if let Some(failure) = failure_of(ended, handler, cause) {
        failure.push_stood(lines, &ended.listing);
        if let Some(before) = before {
            failure.push_values(lines, ended, before)
        }
        if failure.turn.is_behind {
            push_needed(lines, cause, supplier_of(ended.core, ended.log, handler))
        }
        if let Some(asked) = failure.asked {
            push_served(lines, &ended.listing, asked)
        }
        if let Some(before) = before {
            failure.push_clients(lines, before, ended.log);
            failure.push_dropped(lines, before)
        }
    }
    lines.fill_name("`scoop explain ~` says more\n", code_of(cause))
}

/// The failure of a handler by this cause.
fn failure_of(ended: &Scene<'_>, handler: HandlerNumber, cause: Cause) -> Option<Failure> {
    if let Some(breakdown) = ended.world.breakdown(handler)
        && let Some(turn) = last_turn(ended.log, handler)
    {
        let asked = match served_before(ended.log, handler, ended.log.len()) {
            Some(served) => Some(served.asked),
            None => None,
        };
        Some(Failure {
            handler,
            cause,
            turn,
            breakdown,
            asked,
        })
    } else {
        None
    }
}

/// Adds by what a handler has failed: the heading of the page of that, and what it says first.
fn push_cause(lines: &mut Lines, handler: HandlerNumber, cause: Cause) {
    if let Some(page) = find(code_of(cause))
        && let Some((heading, rest)) = page.split_once("\n\n")
        && let Some((meaning, _)) = rest.split_once("\n\n")
    {
        lines.fill_number("handler ~ has failed by ", handler as u64);
        lines.fill("~:\n~\n", &[heading, meaning])
    }
}

impl Failure {
    /// Adds where a routine stood, or what was asked for where none ran, and which invariant was broken.
    fn push_stood(&self, lines: &mut Lines, listing: &Listing<'_>) {
        match (self.turn.begun, self.breakdown.point) {
            (Begun::Takes(_), _) if !self.turn.is_behind => self.push_at_once(lines, listing),
            (_, Some(point)) => self.push_point(lines, listing, point),
            _ => {}
        }
        if let Some(broken) = self.breakdown.invariant {
            push_invariant(lines, listing, broken)
        }
    }

    /// Adds the place of a routine whose handler failed at an operation or after it.
    fn push_point(&self, lines: &mut Lines, listing: &Listing<'_>, point: Point) {
        if let Some(text) = listing.text_of(point.routine)
            && let Some(site) = self.site_of(text, point.place)
        {
            let source = listing.source;
            let is_entry = matches!(self.cause, Cause::SupplierFailed) && point.place == 0;
            let part = if is_entry { text.name } else { site.span };
            push_place(lines, source, "", part);
            let names = [written(source, text.name), listing.class_name(text.class)];
            lines.fill(": in `~` of ~, ", &names);
            match site.kind {
                _ if is_entry => lines.push("which reserves the handlers of its formals"),
                SiteKind::Clause(assertion, tag) => {
                    let tag = match tag {
                        Some(tag) => Some(tag.span()),
                        None => None,
                    };
                    push_clause(lines, source, tag);
                    let is_own = text.contract_class == text.class;
                    let class = listing.class_name(text.contract_class);
                    lines.fill_name(false_clause(assertion, is_own), class)
                }
                kind => push_site(lines, source, kind, self.cause),
            }
            push_excerpt(lines, source, part)
        }
    }

    /// The text of the operation at which the handler failed, or after which: a routine that waits or calls is after
    /// it.
    fn site_of(&self, text: &RoutineText, place: usize) -> Option<TextSite> {
        let Some(site) = text.sites.get(place) else {
            return None;
        };
        let is_behind = match (self.cause, site.kind) {
            (Cause::StackFull, _) => true,
            (Cause::TooManyObjects, SiteKind::Creation) => false,
            (Cause::TooManyObjects, _) => true,
            _ => self.turn.is_behind,
        };
        text.sites
            .get(place.saturating_sub(is_behind as usize))
            .copied()
    }

    /// Adds where the attribute is declared that was asked for while it was Void: no routine ran for that.
    fn push_at_once(&self, lines: &mut Lines, listing: &Listing<'_>) {
        if let (Cause::UnsetEntity, Some(asked)) = (self.cause, self.asked)
            && let Errand::Calls(_) = asked.errand
            && let Some(name) = listing.asked_feature(asked)
        {
            let class = listing.class_name(listing.class_around(name));
            push_place(lines, listing.source, "", name);
            lines.fill(
                ": `~` of ~ is read",
                &[written(listing.source, name), class],
            );
            push_excerpt(lines, listing.source, name)
        }
    }
}

/// Adds which clause of a class invariant is false.
fn push_invariant(lines: &mut Lines, listing: &Listing<'_>, broken: BrokenInvariant) {
    if let Some(clause) = listing.own_clause(broken.declarer, broken.clause) {
        let class = broken.class as usize;
        let around = listing.class_around(clause.span);
        push_place(lines, listing.source, "", clause.span);
        lines.push(": ");
        push_clause(lines, listing.source, clause.tag);
        let template = if class == around {
            " of the invariant of ~ is false"
        } else {
            " of the invariant of ~ from ~ is false"
        };
        let names = [listing.class_name(class), listing.class_name(around)];
        lines.fill(template, &names);
        push_excerpt(lines, listing.source, clause.span)
    }
}

/// Adds whose request it was that a failed handler served.
fn push_served(lines: &mut Lines, listing: &Listing<'_>, asked: Asked) {
    let Some(poster) = asked.poster else {
        return lines.push("it was creating the root object\n");
    };
    let template = match asked.errand {
        Errand::Calls(_) => "it served handler ~, which asked for ",
        Errand::Makes(Some(_)) => "it served handler ~, which asked for its creation by ",
        Errand::Makes(None) => {
            let template = "it served handler ~, which asked for its creation\n";
            return lines.fill_number(template, poster as u64);
        }
    };
    lines.fill_number(template, poster as u64);
    listing.push_feature(lines, asked);
    lines.push("\n")
}

/// Adds which handler was needed by one that failed after an operation.
fn push_needed(lines: &mut Lines, cause: Cause, supplier: Option<HandlerNumber>) {
    let template = match cause {
        Cause::SupplierFailed => "it needed handler ~, which has failed\n",
        Cause::Precondition => "it needed handler ~, which refused\n",
        _ => return,
    };
    if let Some(supplier) = supplier {
        lines.fill_number(template, supplier as u64)
    }
}
