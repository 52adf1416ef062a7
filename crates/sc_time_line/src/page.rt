//! A time line of a run: a page with a picture.

use crate::arrows::push_arrows;
use crate::bars::{push_bars, push_held, push_name, push_waits};
use crate::filling::{fill_numbers, push_escaped};
use crate::history::History;
use crate::layout::{LANE, Layout, TOP, lane};
use crate::turn::{Made, Turn};
use sc_explain_text::Lines;
use sc_lockpass::HandlerNumber;
use sc_source::source::Source;
use std::alloc::{AllocError, Global};

/// How a file of a time line begins.
pub const TIMELINE_HEADING: &str = "<!doctype html>\n<!-- scoop time line 1 -->\n";

/// How many pixels wide the names of handlers are.
const NAMES: usize = 170;

/// The most turns that are listed after the picture.
const MOST_LISTED: usize = 500;

const HEAD: &str = r##"<html lang="en">
<head>
<meta charset="utf-8">
<title>Time line of a run</title>
<style>
body { font: 14px sans-serif; margin: 16px; color: #222; background: #fff }
.frame { display: flex; overflow-x: auto; border: 1px solid #bbb }
.names { position: sticky; left: 0; flex: none; background: #fff; border-right: 1px solid #bbb }
.picture { flex: none }
text { font: 12px sans-serif; fill: #222 }
rect { stroke: #fff; stroke-width: 0.5 }
.life { stroke: #ccc }
.turn { fill: #7f9bb8 }
.sends { fill: #2e6da4 }
.prints { fill: #2a8a4a }
.waits { fill: #8a63b0 }
.refuses { fill: #d9822b }
.fails { fill: #c0262d }
.held { fill: #d4a72c }
.wait { fill: url(#hatch) }
.request { stroke: #2e6da4; stroke-width: 1.2 }
.answer { stroke: #777; stroke-width: 1.2; stroke-dasharray: 4 2 }
.legend svg { vertical-align: middle; margin: 0 4px 0 14px }
pre { background: #f4f4f4; padding: 8px; overflow-x: auto }
</style>
</head>
<body>
<svg width="0" height="0" style="position: absolute"><defs>
<pattern id="hatch" width="6" height="6" patternUnits="userSpaceOnUse" patternTransform="rotate(45)">
<rect width="6" height="6" fill="#fff"/><rect width="2" height="6" fill="#999"/></pattern>
<marker id="arrow" viewBox="0 0 8 8" refX="8" refY="4" markerWidth="6" markerHeight="6" orient="auto"><path d="M0 0L8 4L0 8z" fill="#555"/></marker>
</defs></svg>
<h1>Time line of a run</h1>
"##;

const LEGEND: &str = r##"<p class="legend">
<svg width="18" height="14"><rect class="turn" width="18" height="14"/></svg>a turn
<svg width="18" height="14"><rect class="sends" width="18" height="14"/></svg>sends a request
<svg width="18" height="14"><rect class="prints" width="18" height="14"/></svg>prints
<svg width="18" height="14"><rect class="waits" width="18" height="14"/></svg>its precondition is false, and it waits
<svg width="18" height="14"><rect class="refuses" width="18" height="14"/></svg>refuses a request
<svg width="18" height="14"><rect class="fails" width="18" height="14"/></svg>fails
<svg width="18" height="14"><rect class="wait" width="18" height="14"/></svg>waits
<svg width="18" height="14"><rect class="held" y="5" width="18" height="4"/></svg>is reserved
<svg width="26" height="14"><line class="request" marker-end="url(#arrow)" y1="7" x2="24" y2="7"/></svg>a request
<svg width="26" height="14"><line class="answer" marker-end="url(#arrow)" y1="7" x2="24" y2="7"/></svg>an answer
</p>
"##;

const JOINED: &str =
    "<p>There are too many turns for a bar each: bars of one handler that are of one kind and beside each
other are joined, and arrows are left out.</p>\n";

/// The turns of a run as a page: a line of life for each handler, with its turns, waits and reservations.
///
/// # Errors
/// Memory ran out.
pub fn timeline(alloc: Global, source: &Source, history: &History) -> Result<Vec<u8>, AllocError> {
    let mut lines = Lines::new(alloc);
    let layout = Layout::of(history.moments.len());
    lines.push(TIMELINE_HEADING);
    lines.push(HEAD);
    push_size(&mut lines, history, layout);
    lines.push(LEGEND);
    push_picture(&mut lines, source, history, layout);
    push_list(&mut lines, history, Listed::Failures);
    push_list(&mut lines, history, Listed::Printed);
    lines.push("</body>\n</html>\n");
    if history.is_lacking {
        lines.lack()
    }
    lines.finish()
}

/// Adds how many turns there are, and how they are drawn.
fn push_size(lines: &mut Lines, history: &History, layout: Layout) {
    let kept = history.moments.len();
    let handlers = history.classes.len();
    fill_numbers(
        lines,
        "<p>Turns: ~. Handlers: ~. Turns in a column: ",
        &[kept, handlers],
    );
    fill_numbers(
        lines,
        "~. Point at something to read what it is.</p>\n",
        &[layout.turns],
    );
    if layout.is_joined {
        lines.push(JOINED)
    }
}

/// Adds the picture, with the names of the handlers beside it.
fn push_picture(lines: &mut Lines, source: &Source, history: &History, layout: Layout) {
    let count = history.classes.len();
    let height = count.saturating_mul(LANE).saturating_add(TOP);
    let width = layout
        .right(history.moments.len())
        .saturating_add(layout.width);
    let handlers = count.min(HandlerNumber::MAX as usize) as HandlerNumber;
    let template = "<div class=\"frame\"><svg class=\"names\" width=\"~\" height=\"~\">\n";
    fill_numbers(lines, template, &[NAMES, height]);
    for handler in 0..handlers {
        let top = lane(handler).saturating_add(21);
        fill_numbers(lines, "<text x=\"8\" y=\"~\">", &[top]);
        push_name(lines, source, history.classes.as_slice(), handler);
        lines.push("</text>\n")
    }
    let template = "</svg><svg class=\"picture\" width=\"~\" height=\"~\">\n";
    fill_numbers(lines, template, &[width, height]);
    push_lives(lines, handlers, width);
    push_numbers(lines, history.moments.len(), layout);
    push_waits(lines, history, layout);
    push_bars(lines, source, history, layout);
    push_held(lines, source, history, layout);
    if !layout.is_joined {
        push_arrows(lines, history, layout)
    }
    lines.push("</svg></div>\n")
}

/// Adds the line of each handler.
fn push_lives(lines: &mut Lines, handlers: HandlerNumber, width: usize) {
    let template = "<line class=\"life\" x1=\"0\" y1=\"~\" x2=\"~\" y2=\"~\"/>\n";
    for handler in 0..handlers {
        let middle = lane(handler).saturating_add(17);
        fill_numbers(lines, template, &[middle, width, middle])
    }
}

/// Adds the numbers of some turns.
fn push_numbers(lines: &mut Lines, turns: usize, layout: Layout) {
    let step = if layout.is_joined {
        layout.turns.saturating_mul(20)
    } else {
        5
    };
    let mut number = 1_usize;
    for _number in 0..turns {
        if number > turns {
            break;
        }
        fill_numbers(
            lines,
            "<text x=\"~\" y=\"14\">~</text>\n",
            &[layout.left(number), number],
        );
        number = number.saturating_add(step)
    }
}

/// What is listed after the picture.
#[derive(Clone, Copy)]
enum Listed {
    /// What handlers have printed.
    Printed,
    /// Failures and refusals.
    Failures,
}

impl Listed {
    fn heading(self) -> &'static str {
        match self {
            Listed::Printed => "<h2>What was printed</h2>\n<pre>\n",
            Listed::Failures => "<h2>What failed or was refused</h2>\n<pre>\n",
        }
    }

    fn has(self, turn: Turn) -> bool {
        match self {
            Listed::Printed => turn.has_printed,
            Listed::Failures => matches!(turn.made, Made::Fails | Made::Refuses),
        }
    }
}

/// Adds what such turns did, the first of them alone if there are many.
fn push_list(lines: &mut Lines, history: &History, listed: Listed) {
    let mut count = 0_usize;
    for moment in history.moments.iter() {
        if listed.has(moment.turn) {
            if count == 0 {
                lines.push(listed.heading())
            }
            if count == MOST_LISTED {
                lines.push("..\n");
                break;
            }
            push_escaped(lines, moment.told.as_slice());
            count = count.saturating_add(1)
        }
    }
    if count > 0 {
        lines.push("</pre>\n")
    }
}
