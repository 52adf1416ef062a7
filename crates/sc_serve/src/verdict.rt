//! The lines of a search's verdict.

ghost use Rattle.std.specs.Prelude.{◌≡◌, ◌++◌, IfOk, OnOk};
ghost use Rattle.sc_serve.specs.Search as spec;

use crate::numbered::push_number;
use sc_arguments::Sought;
use sc_audit::RecordLine;
use sc_explain_text::Lines;
use sc_search::{End, Finding, GivenUp, Length, Order, Reason, Verdict};
use std::alloc::{AllocError, Global};

/// The lines that tell a verdict on what was looked for: what was found, whether orders end, how many outcomes there are where
/// nothing was found, how many states were kept, and whether memory ran out.
pub fn verdict_lines(
    alloc: Global,
    sought: Sought,
    verdict: &Verdict,
) -> Result<Vec<u8>, AllocError>
    ensures { IfOk result (λ lines. lines.items ≡ spec.verdict_lines sought verdict.now) }
{
    let mut lines = Vec::new(alloc);
    push_finding(alloc, &mut lines, sought, verdict)?;
    push_length(alloc, &mut lines, verdict.length)?;
    push_outcomes(alloc, &mut lines, &verdict.finding, verdict.ends.len())?;
    push_number(alloc, &mut lines, "states ", verdict.states as u64, "\n")?;
    push_memory(&mut lines, verdict.why)?;
    Ok(lines)
}

/// Adds what was found.
fn push_finding(
    alloc: Global,
    lines: &mut Vec<u8>,
    sought: Sought,
    verdict: &Verdict,
) -> Result<(), AllocError>
    ensures { OnOk result (lines.new.items ≡ lines.old.items ++ spec.finding_line sought verdict.now.is_whole verdict.now.finding) }
{
    match &verdict.finding {
        Finding::Nothing => {
            let told = nothing_of(sought, verdict.is_whole);
            lines.extend_from_slice(told.as_bytes())
        }
        Finding::Stuck(order) => push_found(alloc, lines, "stuck", order),
        Finding::Fails(order) => push_found(alloc, lines, "fails", order),
        Finding::Refused(order) => push_found(alloc, lines, "refused", order),
        Finding::Undecided => lines.extend_from_slice(b"undecided\n"),
    }
}

/// The line that says that nothing was found: there is nothing if every order was played.
fn nothing_of(sought: Sought, is_whole: bool) -> &'static str
    ensures { result.now ≡ spec.nothing_line sought is_whole }
{
    if is_whole {
        none_of(sought)
    } else {
        "none found\n"
    }
}

/// The line that says that no order does what was looked for.
fn none_of(sought: Sought) -> &'static str
    ensures { result.now ≡ spec.none_line sought }
{
    match sought {
        Sought::Fails => "none fails (proved)\n",
        Sought::Stuck => "none stuck (proved)\n",
        Sought::Refused => "none refused (proved)\n",
        Sought::Any => "none stuck, none fails, none refused (proved)\n",
    }
}

/// Adds what an order leads to, and how long it is.
fn push_found(
    alloc: Global,
    lines: &mut Vec<u8>,
    what: &'static str,
    order: &Order,
) -> Result<(), AllocError>
    ensures { OnOk result (lines.new.items ≡ lines.old.items ++ spec.found_line what.now order.now) }
{
    lines.extend_from_slice(what.as_bytes())?;
    let turns = turns_of(order.lines.as_slice());
    push_number(alloc, lines, " after ", turns, " turns\n")
}

/// Adds whether orders end, as far as that is known.
fn push_length(alloc: Global, lines: &mut Vec<u8>, length: Length) -> Result<(), AllocError>
    ensures { OnOk result (lines.new.items ≡ lines.old.items ++ spec.length_line length) }
{
    match length {
        Length::AtMost(turns) => push_number(
            alloc,
            lines,
            "orders end after ",
            turns as u64,
            " turns at most\n",
        ),
        Length::Endless => lines.extend_from_slice(b"some order goes on for ever\n"),
        Length::Unknown => Ok(()),
    }
}

/// Adds the number of outcomes that were met, if nothing was found.
fn push_outcomes(
    alloc: Global,
    lines: &mut Vec<u8>,
    finding: &Finding,
    count: usize,
) -> Result<(), AllocError>
    ensures { OnOk result (lines.new.items ≡ lines.old.items ++ spec.outcomes_line finding.now count) }
{
    match finding {
        Finding::Nothing => push_number(alloc, lines, "outcomes ", count as u64, "\n"),
        Finding::Stuck(_) | Finding::Fails(_) | Finding::Refused(_) | Finding::Undecided => Ok(()),
    }
}

/// Adds that memory ran out, if the search gave up for this reason.
fn push_memory(lines: &mut Vec<u8>, why: Option<GivenUp>) -> Result<(), AllocError>
    ensures { OnOk result (lines.new.items ≡ lines.old.items ++ spec.memory_line why) }
{
    if lacks_memory(why) {
        lines.extend_from_slice(b"out of memory\n")
    } else {
        Ok(())
    }
}

/// Whether a search gave up since memory ran out.
pub fn lacks_memory(why: Option<GivenUp>) -> bool
    ensures { result ≡ spec.lacks_memory why }
{
    let Some(why) = why else {
        return false;
    };
    match why.reason {
        Reason::Memory => true,
        Reason::States | Reason::Turns | Reason::Bytes | Reason::Worlds => false,
    }
}

/// Each outcome: after how many turns it comes, and its report.
pub fn outcome_lines(alloc: Global, ends: &[End]) -> Result<Vec<u8>, AllocError> {
    let mut lines = Lines::new(alloc);
    let mut number: u64 = 0;
    for end in ends {
        number = number.saturating_add(1);
        lines.fill_number("outcome ~", number);
        lines.fill_number(" after ~ turns\n", turns_of(end.order.lines.as_slice()));
        lines.push_bytes(end.report.as_slice());
    }
    lines.finish()
}

/// How many turns these lines are, all together.
pub fn turns_of(lines: &[RecordLine]) -> u64
    ensures { result ≡ spec.told_turns lines.now }
{
    let mut turns: u64 = 0;
    for line in lines {
        turns = turns.saturating_add(line.turns as u64);
    }
    turns
}
