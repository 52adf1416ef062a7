//! What one turn did, in words.

use crate::history::{Begun, Ended, Sent, Turn, turn_by};
use crate::listing::Listing;
use crate::naming::{Asked, Named, asked_by};
use crate::places::{part_behind_of, part_of, push_place, span_in};
use crate::printed::push_printed;
use crate::scene::Scene;
use crate::values::{push_call, push_shown};
use crate::waiting::Waiting;
use crate::waits::{is_kept, keeper_of};
use sc_code::{ClassNumber, NameNumber};
use sc_explain_text::{Lines, find};
use sc_lockpass::HandlerNumber;
use sc_model::{Cause, Status};
use sc_region::{Errand, Job, Point, Reference, Value, Want};
use sc_request::Core;
use sc_text::Span;
use sc_world::code_of;

/// What there was in front of a turn of a handler.
#[derive(Clone, Copy)]
pub struct Earlier {
    /// How many bytes it had printed.
    printed: usize,
    /// How many handlers there were.
    handlers: HandlerNumber,
    has_failed: bool,
    /// Its place.
    stand: Option<Span>,
    /// The place of its routine's name.
    routine: Option<Span>,
    /// The request that it served.
    served: Option<Asked>,
}

impl Earlier {
    pub fn of(scene: &Scene<'_>, handler: HandlerNumber) -> Earlier {
        let standing = scene.standing_of(handler);
        Earlier {
            printed: match scene.store(handler) {
                Some(store) => store.output().len(),
                None => 0,
            },
            handlers: scene.handlers,
            has_failed: matches!(scene.core.status(handler), Some(Status::Failed(_))),
            stand: part_of(standing),
            routine: match standing {
                Some(standing) => Some(standing.text.name),
                None => None,
            },
            served: served_by(scene.core, handler),
        }
    }
}

/// The request that a handler serves, the one taken last.
fn served_by(core: &Core, handler: HandlerNumber) -> Option<Asked> {
    if let Some(kept) = core.kept_at(handler)
        && let Some(posting) = kept.services.front()
    {
        Some(asked_by(&posting.request.to_request()))
    } else {
        None
    }
}

/// A turn of a handler that was just made.
#[derive(Clone, Copy)]
pub struct MadeTurn<'o> {
    listing: Listing<'o>,
    handler: HandlerNumber,
    name: Named<'o>,
    /// Which turn of the run it was, from 1.
    number: u64,
    earlier: Earlier,
    /// What it has printed.
    printed: &'o [u8],
    /// The handler's place.
    stand: Option<Span>,
    /// The part of the text of the operation that its routine has executed last.
    behind: Option<Span>,
    /// By what the handler has failed, and where its routine was.
    failure: Option<(Cause, Option<Point>)>,
}

impl<'o> MadeTurn<'o> {
    /// The turn of this number of a run, after which the run stands so.
    pub fn of(
        scene: &Scene<'o>,
        handler: HandlerNumber,
        number: u64,
        earlier: Earlier,
    ) -> MadeTurn<'o> {
        let standing = scene.standing_of(handler);
        let printed = match scene.store(handler) {
            Some(store) => store.output().get(earlier.printed..),
            None => None,
        };
        let failure = match (scene.core.status(handler), scene.world.breakdown(handler)) {
            (Some(Status::Failed(cause)), Some(breakdown)) => Some((cause, breakdown.point)),
            (Some(Status::Failed(cause)), None) => Some((cause, None)),
            _ => None,
        };
        MadeTurn {
            listing: scene.listing,
            handler,
            name: scene.named(handler),
            number,
            earlier,
            printed: printed.unwrap_or(&[]),
            stand: part_of(standing),
            behind: part_behind_of(standing),
            failure,
        }
    }

    /// Adds what the turn has printed.
    pub fn tell_printed(&self, lines: &mut Lines) {
        if !self.printed.is_empty() {
            self.begin(lines, " prints ");
            push_printed(lines, self.printed);
            self.end(lines, self.behind)
        }
    }

    /// Adds what the turn asked of other handlers, and what came of that.
    pub fn tell_settled(&self, lines: &mut Lines, scene: &Scene<'o>, waiting: &mut Waiting) {
        let place = scene.log.len().saturating_sub(1);
        if let Some(settlement) = scene.log.get(place) {
            if let Job::Granted(granted) = &settlement.job
                && !granted.is_empty()
            {
                self.tell_granted(lines, scene, granted.as_slice(), waiting)
            }
            let turn = turn_by(&settlement, place);
            self.tell_ended(lines, scene, turn.ended, &settlement.want, waiting);
            self.tell_answer(lines, turn, &settlement.want);
            self.tell_failed(lines, turn.is_behind)
        }
    }

    /// Adds which handlers its reserve step had got for it, and who has to wait now for one of them.
    fn tell_granted(
        &self,
        lines: &mut Lines,
        scene: &Scene<'o>,
        granted: &[HandlerNumber],
        waiting: &mut Waiting,
    ) {
        self.begin(lines, " reserves ");
        let mut separator = "";
        for one in granted {
            lines.push(separator);
            scene.named(*one).push_class_first(lines);
            separator = " and ";
        }
        self.end(lines, self.earlier.stand);
        waiting.set(self.handler, false);
        for other in 0..scene.handlers {
            if other != self.handler
                && !waiting.is_told(other)
                && needs_some(scene.core, other, granted)
            {
                self.tell_wait(lines, scene, other, waiting)
            }
        }
    }

    /// Adds what the turn came to, as far as it concerns others.
    fn tell_ended(
        &self,
        lines: &mut Lines,
        scene: &Scene<'o>,
        ended: Ended,
        want: &Want,
        waiting: &mut Waiting,
    ) {
        let made = self.earlier.handlers;
        match ended {
            Ended::Asks(sent) => {
                let Reference { handler, class, .. } = sent.target;
                self.begin(lines, words_before(sent));
                if let Errand::Calls(name) = sent.errand {
                    push_call(
                        lines,
                        &self.listing,
                        self.listing.name(name),
                        actuals_of(want),
                    )
                }
                lines.push(words_after(sent));
                self.push_receiver(lines, scene, handler, class);
                self.end_sent(lines, scene)
            }
            Ended::Creates(class) if made < scene.handlers => {
                self.begin(lines, " creates ");
                self.push_receiver(lines, scene, made, class);
                if let Some(name) = procedure_of(want) {
                    lines.push(" by `");
                    push_call(
                        lines,
                        &self.listing,
                        self.listing.name(name),
                        actuals_of(want),
                    );
                    lines.push("`")
                }
                self.end_sent(lines, scene)
            }
            Ended::Reserves => self.tell_wait(lines, scene, self.handler, waiting),
            Ended::Waits => {
                waiting.set(self.handler, true);
                self.begin(lines, " waits until its precondition holds");
                self.end(lines, self.stand)
            }
            Ended::Refuses => {
                self.begin(lines, " refuses, as its precondition doesn't hold");
                self.end(lines, self.earlier.routine)
            }
            _ => {}
        }
    }

    /// Adds the handler to which something was sent. One that has no root object yet is named by this class, of which
    /// an object is asked or is to be made.
    fn push_receiver(
        &self,
        lines: &mut Lines,
        scene: &Scene<'o>,
        handler: HandlerNumber,
        class: ClassNumber,
    ) {
        let class = scene.root_class(handler).unwrap_or(class);
        Named::of(&self.listing, handler, Some(class)).push_class_first(lines)
    }

    /// Ends a line on what was sent, with the place: the handler waits there, or has gone on.
    fn end_sent(&self, lines: &mut Lines, scene: &Scene<'o>) {
        let part = match scene.core.awaits(self.handler) {
            Some(_) => self.stand,
            None => self.behind,
        };
        self.end(lines, part)
    }

    /// Adds what the turn has answered to a query of another handler.
    fn tell_answer(&self, lines: &mut Lines, turn: Turn, want: &Want) {
        let served = match turn.begun {
            Begun::Takes(served) => Some(served.asked),
            _ => self.earlier.served,
        };
        if let Some(value) = reply_of(want)
            && let Some(asked) = served
            && let Errand::Calls(name) = asked.errand
        {
            self.begin(lines, "");
            lines.fill_name(" answers `~` = ", self.listing.name(name));
            push_shown(lines, &self.listing, value);
            self.end(lines, self.listing.asked_feature(asked))
        }
    }

    /// Adds which handlers one waits for that it is to reserve, if it can't have all of them now.
    fn tell_wait(
        &self,
        lines: &mut Lines,
        scene: &Scene<'o>,
        handler: HandlerNumber,
        waiting: &mut Waiting,
    ) {
        if !is_kept(scene.core, handler) {
            return;
        }
        waiting.set(handler, true);
        lines.fill_number("~ ", self.number);
        scene.named(handler).push_class_first(lines);
        let mut separator = " waits for ";
        let needed = scene.core.needed_by(handler);
        for one in needed.as_slice() {
            if keeper_of(scene.core, *one).is_some() {
                lines.push(separator);
                scene.named(*one).push_class_first(lines);
                separator = " and ";
            }
        }
        self.end(lines, part_of(scene.standing_of(handler)))
    }

    /// Adds by what it has failed, if it has: at an operation, or after one; or at the beginning of its routine.
    fn tell_failed(&self, lines: &mut Lines, is_behind: bool) {
        if let Some((cause, point)) = self.failure
            && !self.earlier.has_failed
        {
            let is_behind = is_behind || matches!(cause, Cause::StackFull);
            self.begin(lines, " fails by ");
            lines.push(heading_of(cause));
            self.end(lines, failed_at(&self.listing, point, is_behind))
        }
    }

    /// Begins a line with the turn and its handler.
    fn begin(&self, lines: &mut Lines, words: &str) {
        lines.fill_number("~ ", self.number);
        self.name.push_class_first(lines);
        lines.push(words)
    }

    /// Ends a line, with the place of the text if there is one.
    fn end(&self, lines: &mut Lines, part: Option<Span>) {
        if let Some(part) = part {
            push_place(lines, self.listing.source, " at ", part)
        }
        lines.push("\n")
    }
}

/// Whether a handler is to reserve one of these.
fn needs_some(core: &Core, handler: HandlerNumber, granted: &[HandlerNumber]) -> bool {
    let needed = core.needed_by(handler);
    for one in needed.as_slice() {
        if granted.contains(one) {
            return true;
        }
    }
    false
}

/// What is sent to another handler, up to the feature that is called.
fn words_before(sent: Sent) -> &'static str {
    match (sent.errand, sent.is_waited) {
        (Errand::Makes(_), true) => " asks for its creation",
        (Errand::Makes(_), false) => " posts its creation",
        (Errand::Calls(_), true) => " asks for `",
        (Errand::Calls(_), false) => " posts `",
    }
}

/// What is sent to another handler, from the feature that is called on.
fn words_after(sent: Sent) -> &'static str {
    match (sent.errand, sent.is_waited) {
        (Errand::Makes(_), true) => " of ",
        (Errand::Makes(_), false) => " to ",
        (Errand::Calls(_), true) => "` of ",
        (Errand::Calls(_), false) => "` to ",
    }
}

/// The actuals that a turn sends which wants this.
fn actuals_of(want: &Want) -> &[Value] {
    match want {
        Want::Post(request) | Want::Ask { request, .. } => request.actuals.as_slice(),
        Want::Create { actuals, .. } => actuals.as_slice(),
        _ => &[],
    }
}

/// The creation procedure of the object that a new handler is to make, if it is made by one.
fn procedure_of(want: &Want) -> Option<NameNumber> {
    match want {
        Want::Create { procedure, .. } => *procedure,
        _ => None,
    }
}

/// The value of a query that ends.
fn reply_of(want: &Want) -> Option<Value> {
    match want {
        Want::Done { reply, .. } => *reply,
        _ => None,
    }
}

/// The part of the text at which a routine failed: that of an operation, or of the one before it; or the routine's
/// name, at its beginning.
fn failed_at(listing: &Listing<'_>, point: Option<Point>, is_behind: bool) -> Option<Span> {
    if let Some(point) = point
        && let Some(text) = listing.text_of(point.routine)
    {
        if is_behind && point.place == 0 {
            Some(text.name)
        } else {
            span_in(text, point.place.saturating_sub(is_behind as usize))
        }
    } else {
        None
    }
}

/// The code of a failure, and its name.
fn heading_of(cause: Cause) -> &'static str {
    let code = code_of(cause);
    if let Some(page) = find(code)
        && let Some((heading, _)) = page.split_once('\n')
    {
        heading
    } else {
        code
    }
}
