//! Why a search gave up, in words.

use sc_arguments::SearchOptions;
use sc_explain_text::Lines;
use sc_search::{GivenUp, Pass, Reason};
use std::alloc::{AllocError, Global};

/// What is said beside a search that found no order: that nothing is written to the file for the record, and why the search gave
/// up, where that is asked for. The search took so many milliseconds, if that is known.
///
/// # Errors
/// Memory ran out.
pub fn unfound_note(
    alloc: Global,
    options: &SearchOptions<'_>,
    why: Option<GivenUp>,
    millis: Option<u64>,
) -> Result<Vec<u8>, AllocError> {
    let mut lines = Lines::new(alloc);
    if let Some(name) = options.record {
        lines.fill_name("no order was found, so nothing is written to ~\n", name);
    }
    match why {
        Some(why) if options.is_explained => push_why(&mut lines, options, why, millis),
        _ => {}
    }
    lines.finish()
}

/// Writes in which pass a search with these options gave up, and why, and how far it came.
fn push_why(lines: &mut Lines, options: &SearchOptions<'_>, why: GivenUp, millis: Option<u64>) {
    lines.push(match why.pass {
        Pass::Choices => "gave up in pass 1, which leaves orders out: ",
        Pass::AllTurns => "gave up in pass 2, which plays every order: ",
    });
    let template = match why.reason {
        Reason::States => "--states ~ allows no more states\n",
        Reason::Turns => "--states ~ allows no more turns, which are 2000 for each state\n",
        Reason::Bytes => "--memory ~ allows no more memory\n",
        Reason::Memory => "out of memory\n",
        Reason::Worlds => "an order led to two states, which those of accepted texts don't\n",
    };
    lines.fill_number(template, limit_of(options, why.reason));
    lines.fill_number("that pass kept ~ states", why.states as u64);
    lines.fill_number(" in ~", why.bytes / 1_000_000);
    lines.fill_number(".~ MB", why.bytes % 1_000_000 / 100_000);
    lines.fill_number(" and played ~ turns", why.turns);
    if let Some(millis) = millis {
        lines.fill_number("; the search took ~", millis / 1_000);
        lines.fill_number(".~ seconds", millis % 1_000 / 100);
    }
    lines.push("\n")
}

/// What the options allow at most of what was used up.
fn limit_of(options: &SearchOptions<'_>, reason: Reason) -> u64 {
    match reason {
        Reason::Bytes => options.memory as u64,
        Reason::States | Reason::Turns | Reason::Memory | Reason::Worlds => options.states as u64,
    }
}
