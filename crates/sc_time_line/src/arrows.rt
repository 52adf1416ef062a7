//! The arrows of a time line: requests and answers.

use crate::filling::fill_numbers;
use crate::history::{History, Moment};
use crate::layout::{Layout, lane};
use crate::turn::Began;
use sc_explain_text::Lines;

/// Adds an arrow for each request and each answer, from the turn that sends it to the one that takes it.
pub fn push_arrows(lines: &mut Lines, history: &History, layout: Layout) {
    let mut number = 1_usize;
    for moment in history.moments.iter() {
        if let Some(after) = moment.after
            && let Some(before) = history.moments.get(after.saturating_sub(1))
            && before.turn.handler != moment.turn.handler
        {
            push_arrow(lines, layout, (before, after), (moment, number))
        }
        number = number.saturating_add(1)
    }
}

/// Adds an arrow from a turn to a turn.
fn push_arrow(
    lines: &mut Lines,
    layout: Layout,
    (before, from): (&Moment, usize),
    (moment, to): (&Moment, usize),
) {
    let class = match moment.turn.began {
        Began::Takes(_) => "request",
        _ => "answer",
    };
    let half = layout.width / 2;
    let start = layout.left(from).saturating_add(half);
    let end = layout.left(to).saturating_add(half);
    let above = lane(before.turn.handler);
    let below = lane(moment.turn.handler);
    // from the edge of a bar to that of another one
    let (first, last) = if above < below { (26, 8) } else { (8, 26) };
    lines.fill_name("<line class=\"~\" marker-end=\"url(#arrow)\"", class);
    fill_numbers(
        lines,
        " x1=\"~\" y1=\"~\"",
        &[start, above.saturating_add(first)],
    );
    fill_numbers(
        lines,
        " x2=\"~\" y2=\"~\"><title>",
        &[end, below.saturating_add(last)],
    );
    lines.fill_name("~ from turn ", class);
    fill_numbers(lines, "~ to turn ~</title></line>\n", &[from, to])
}
