//! The verdict of a search as an object of JSON.

use crate::json::report::push_report;
use crate::searching::lines_of;
use crate::verdict::turns_of;
use sc_arguments::{SearchOptions, Sought};
use sc_audit::RecordLine;
use sc_explain_text::Lines;
use sc_search::{End, Finding, GivenUp, Length, Pass, Reason, Verdict};
use std::alloc::{AllocError, Global};

/// The object of a verdict, with its outcomes if they are to be listed.
pub fn search_object(
    alloc: Global,
    options: &SearchOptions<'_>,
    verdict: &Verdict,
) -> Result<Vec<u8>, AllocError> {
    let mut lines = Lines::new(alloc);
    let order = lines_of(&verdict.finding);
    lines.push(answer_of(options.sought, verdict));
    push_endless(&mut lines, verdict.length);
    push_why(&mut lines, verdict.why);
    push_longest(&mut lines, verdict.length);
    lines.push(r#","order":"#);
    push_order(&mut lines, order);
    lines.fill_number(outcomes_of(verdict), verdict.ends.len() as u64);
    push_reports(alloc, &mut lines, options, verdict.ends.as_slice());
    lines.fill_number(r#","states":~"#, verdict.states as u64);
    match order {
        Some(order) => lines.fill_number(",\"turns\":~}\n", turns_of(order)),
        None => lines.push(",\"turns\":null}\n"),
    }
    lines.finish()
}

/// What was found, and whether the outcomes that were met are all that there are. A search that goes on after failures and
/// isn't whole may leave out some in which a handler fails.
fn answer_of(sought: Sought, verdict: &Verdict) -> &'static str {
    match verdict.finding {
        Finding::Nothing
            if verdict.is_whole || !matches!(sought, Sought::Stuck | Sought::Refused) => {
            r#"{"all_outcomes":true,"answer":"none""#
        }
        Finding::Nothing => r#"{"all_outcomes":false,"answer":"none""#,
        Finding::Stuck(_) => r#"{"all_outcomes":false,"answer":"stuck""#,
        Finding::Fails(_) => r#"{"all_outcomes":false,"answer":"fails""#,
        Finding::Refused(_) => r#"{"all_outcomes":false,"answer":"refused""#,
        Finding::Undecided => r#"{"all_outcomes":false,"answer":"undecided""#,
    }
}

/// Writes whether some order goes on for ever, as far as that is known.
fn push_endless(lines: &mut Lines, length: Length) {
    lines.push(match length {
        Length::AtMost(_) => r#","endless":false"#,
        Length::Endless => r#","endless":true"#,
        Length::Unknown => r#","endless":null"#,
    })
}

/// Writes how many turns an order has at most, as far as that is known.
fn push_longest(lines: &mut Lines, length: Length) {
    match length {
        Length::AtMost(turns) => lines.fill_number(r#","longest":~"#, turns as u64),
        Length::Endless | Length::Unknown => lines.push(r#","longest":null"#),
    }
}

/// Writes why the search gave up, and how far it came; null if it didn't.
fn push_why(lines: &mut Lines, why: Option<GivenUp>) {
    let Some(why) = why else {
        return lines.push(r#","gave_up":null"#);
    };
    let template = match why.pass {
        Pass::Choices => r#","gave_up":{"bytes":~,"pass":1,"reason":"#,
        Pass::AllTurns => r#","gave_up":{"bytes":~,"pass":2,"reason":"#,
    };
    lines.fill_number(template, why.bytes);
    lines.push(match why.reason {
        Reason::States => r#""states""#,
        Reason::Turns => r#""turns""#,
        Reason::Bytes => r#""memory_limit""#,
        Reason::Memory => r#""memory""#,
        Reason::Worlds => r#""worlds""#,
    });
    lines.fill_number(r#","states":~"#, why.states as u64);
    lines.fill_number(r#","turns":~}"#, why.turns)
}

/// The number of outcomes, whether the answer is more than what was met, and the name of the reports. An order that was
/// found is there, and if none was found every order has to be played.
fn outcomes_of(verdict: &Verdict) -> &'static str {
    match verdict.finding {
        Finding::Nothing if !verdict.is_whole => r#","outcomes":~,"proved":false,"reports":"#,
        Finding::Undecided => r#","outcomes":~,"proved":false,"reports":"#,
        _ => r#","outcomes":~,"proved":true,"reports":"#,
    }
}

/// Writes an order: the lines of its record, each as a list of a handler and its number of turns; null if there is
/// none.
fn push_order(lines: &mut Lines, order: Option<&[RecordLine]>) {
    let Some(order) = order else {
        return lines.push("null");
    };
    lines.push("[");
    let mut template = "[~,";
    for line in order {
        lines.fill_number(template, line.handler as u64);
        lines.fill_number("~]", line.turns as u64);
        template = ",[~,";
    }
    lines.push("]")
}

/// Writes the outcomes, each with an order and its report; null if they aren't to be listed.
fn push_reports(alloc: Global, lines: &mut Lines, options: &SearchOptions<'_>, ends: &[End]) {
    if !options.lists_outcomes {
        return lines.push("null");
    }
    lines.push("[");
    let mut before = r#"{"order":"#;
    for end in ends {
        lines.push(before);
        push_order(lines, Some(end.order.lines.as_slice()));
        lines.push(r#","report":"#);
        push_report(alloc, lines, end.report.as_slice(), &[]);
        before = r#"},{"order":"#;
    }
    lines.push(if ends.is_empty() { "]" } else { "}]" })
}
