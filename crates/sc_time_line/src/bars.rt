//! The bars of a time line: turns, waits and reservations.

use crate::events::push_title;
use crate::filling::{fill_numbers, push_escaped};
use crate::history::{Held, History, Moment, Wait};
use crate::layout::{Layout, lane};
use crate::stats::written;
use crate::turn::{Made, Turn};
use sc_explain_text::Lines;
use sc_lockpass::HandlerNumber;
use sc_source::source::Source;
use sc_text::Span;

/// How many handlers there may be.
const MOST_HANDLERS: usize = 512;

/// A bar: turns of a handler of one kind, which are counted from 1.
#[derive(Clone, Copy)]
struct Bar {
    handler: HandlerNumber,
    kind: &'static str,
    first: usize,
    last: usize,
    /// How many turns it has; none if there is no bar.
    count: usize,
}

const NO_BAR: Bar = Bar {
    handler: 0,
    kind: "turn",
    first: 0,
    last: 0,
    count: 0,
};

/// Adds a bar for each turn, or if bars are joined for those of a handler that are of one kind and beside each other.
pub fn push_bars(lines: &mut Lines, source: &Source, history: &History, layout: Layout) {
    let Ok(mut bars) = vec![in lines.alloc(); NO_BAR; MOST_HANDLERS] else {
        return lines.lack();
    };
    let mut number = 1_usize;
    for moment in history.moments.iter() {
        if let Some(bar) = bars.get_mut(moment.turn.handler as usize) {
            let next = bar_of(moment.turn, number);
            if is_beside(layout, *bar, next) {
                bar.last = number;
                bar.count = bar.count.saturating_add(1)
            } else {
                push_bar(lines, source, history, layout, *bar);
                *bar = next
            }
        }
        number = number.saturating_add(1)
    }
    for bar in bars.iter() {
        push_bar(lines, source, history, layout, *bar)
    }
}

/// The bar of a turn alone.
fn bar_of(turn: Turn, number: usize) -> Bar {
    Bar {
        handler: turn.handler,
        kind: kind_of(turn),
        first: number,
        last: number,
        count: 1,
    }
}

/// The kind of a turn, as the page names it.
fn kind_of(turn: Turn) -> &'static str {
    match turn.made {
        Made::Fails => "fails",
        Made::Refuses => "refuses",
        Made::Waits(_) => "waits",
        _ if turn.has_printed => "prints",
        Made::Sends | Made::Creates => "sends",
        _ => "turn",
    }
}

/// Whether the next bar of a handler is joined with this one.
fn is_beside(layout: Layout, bar: Bar, next: Bar) -> bool {
    layout.is_joined
        && bar.count > 0
        && bar.kind == next.kind
        && layout.column(next.first) <= layout.column(bar.last).saturating_add(1)
}

/// Adds a bar, if it is one, with what is said of it.
fn push_bar(lines: &mut Lines, source: &Source, history: &History, layout: Layout, bar: Bar) {
    if bar.count == 0 {
        return;
    }
    let left = layout.left(bar.first);
    let width = layout.right(bar.last).saturating_sub(left);
    let top = lane(bar.handler).saturating_add(8);
    lines.fill_name("<rect class=\"~\"", bar.kind);
    fill_numbers(
        lines,
        " x=\"~\" y=\"~\" width=\"~\" height=\"18\"><title>",
        &[left, top, width],
    );
    match history.moments.get(bar.first.saturating_sub(1)) {
        Some(moment) if bar.count == 1 => push_tip(lines, source, bar.first, moment),
        _ => fill_numbers(
            lines,
            "~ turns between ~ and ~",
            &[bar.count, bar.first, bar.last],
        ),
    }
    lines.push("</title></rect>\n")
}

/// Adds what is said of one turn.
fn push_tip(lines: &mut Lines, source: &Source, number: usize, moment: &Moment) {
    if moment.told.is_empty() {
        lines.fill_number("~ ", number as u64);
        push_title(lines, source, moment.turn)
    } else {
        push_escaped(lines, moment.told.as_slice())
    }
}

/// Adds for how long handlers wait.
pub fn push_waits(lines: &mut Lines, history: &History, layout: Layout) {
    for wait in history.waits.iter() {
        push_wait(lines, layout, *wait, history.turns)
    }
}

/// Adds that a handler waits, perhaps to the end after this number of turns.
fn push_wait(lines: &mut Lines, layout: Layout, wait: Wait, turns: usize) {
    let left = layout.right(wait.from);
    let width = layout.right(wait.to).saturating_sub(left);
    if width > 0 {
        let top = lane(wait.handler).saturating_add(12);
        let template = "<rect class=\"wait\" x=\"~\" y=\"~\" width=\"~\" height=\"10\"><title>";
        fill_numbers(lines, template, &[left, top, width]);
        let template = if wait.to > turns {
            "waits from ~ to the end</title></rect>\n"
        } else {
            "waits from ~ to ~</title></rect>\n"
        };
        fill_numbers(lines, template, &[wait.from, wait.to])
    }
}

/// Adds for how long each handler is reserved, and for which one.
pub fn push_held(lines: &mut Lines, source: &Source, history: &History, layout: Layout) {
    for held in history.held.iter() {
        push_reservation(lines, source, history.classes.as_slice(), layout, *held)
    }
}

fn push_reservation(
    lines: &mut Lines,
    source: &Source,
    classes: &[Option<Span>],
    layout: Layout,
    held: Held,
) {
    let left = layout.left(held.from);
    let width = layout.right(held.to).saturating_sub(left);
    let top = lane(held.handler).saturating_add(29);
    let template = "<rect class=\"held\" x=\"~\" y=\"~\" width=\"~\" height=\"4\"><title>";
    fill_numbers(lines, template, &[left, top, width]);
    lines.push("reserved for ");
    push_name(lines, source, classes, held.holder);
    fill_numbers(
        lines,
        " from ~ to ~</title></rect>\n",
        &[held.from, held.to],
    )
}

/// Adds the class of a handler and its number.
pub fn push_name(
    lines: &mut Lines,
    source: &Source,
    classes: &[Option<Span>],
    handler: HandlerNumber,
) {
    match classes.get(handler as usize) {
        Some(Some(class)) => lines.push(written(source, *class)),
        _ => lines.push("handler"),
    }
    lines.fill_number(" ~", handler as u64)
}
