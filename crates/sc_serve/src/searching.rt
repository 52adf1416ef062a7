//! What is answered to `search`.

ghost use Rattle.std.specs.Prelude.{◌≡◌, IfErr, IfOk, None, map};
ghost use Rattle.std.specs.Option.{option_map};
ghost use Rattle.sc_lower.specs.Lowerings.{image_of};
ghost use Rattle.sc_serve.specs.Answer.{IsUnansweredOn, kept_of, out_of_memory};
ghost use Rattle.sc_serve.specs.Search as spec;
ghost use Rattle.sc_serve.specs.Search.{IsSearchOf, IsSearchOfSource, IsSearchOn, IsTold};

use crate::drawing::beside_of;
use crate::giving_up::unfound_note;
use crate::json::{made, search_object};
use crate::progress::Tell;
use crate::serve::{
    Answer, Beside, Exit, Fault, Recording, answer_explained, answer_unread, root_if,
};
use crate::tracing::tell_turns;
use crate::verdict::{outcome_lines, verdict_lines};
use sc_arguments::{Format, SearchOptions, Sought};
use sc_audit::RecordLine;
use sc_code::Program;
use sc_explain_run::{Limit, Played, order_note};
use sc_frontend::load_text;
use sc_lockpass::Version;
use sc_search::{Aim, Finding, Limits, Verdict, Watch, search};
use sc_source::files::{Files, read_source};
use sc_source::source::Source;
use std::alloc::{AllocError, Global};

/// Plays the system of the named files in every order of turns.
#[inline(never)]
pub fn answer_search<'a, F: Files, W: Watch + Tell>(
    alloc: Global,
    options: &SearchOptions<'a>,
    files: &F,
    names: &[&'a str],
    watch: &mut W,
) -> Result<Answer<'a>, Fault<'a>>
    ensures answer { let named = map (λ name. name.now) names.now in
        let held = map (λ name. F.bytes_of files.now name.now) names.now in
        IfOk result (λ answer. IsSearchOn options.now named held answer.text.items answer.exit answer.record) }
    ensures object { options.now.format ≡ Format.Text → IfOk result (λ answer. answer.object ≡ None) }
    ensures unanswered { let held = map (λ name. F.bytes_of files.now name.now) names.now in
        IfErr result (IsUnansweredOn (map (λ name. name.now) names.now) held) }
{
    match read_source(alloc, files, names) {
        Ok(source) => search_source(alloc, options, &source, watch),
        Err(fault) => answer_unread(alloc, names, fault, options.is_explained),
    }
}

/// Plays the system of a source text in every order of turns.
fn search_source<'a, W: Watch + Tell>(
    alloc: Global,
    options: &SearchOptions<'a>,
    source: &Source,
    watch: &mut W,
) -> Result<Answer<'a>, Fault<'a>>
    ensures answer { IfOk result (λ answer.
        IsSearchOfSource options.now source.now answer.text.items answer.exit answer.record) }
    ensures object { options.now.format ≡ Format.Text → IfOk result (λ answer. answer.object ≡ None) }
    ensures unanswered { IfErr result (λ fault. fault ≡ out_of_memory) }
{
    match load_text(alloc, source.text(), &options.root) {
        Ok(program) => {
            let answer = search_loaded(alloc, &program, options, source, watch);
            drop(program);
            answer
        }
        Err(rejection) => {
            let explained = root_if(options.is_explained, &options.root);
            answer_explained(alloc, source, &rejection, explained)
        }
    }
}

/// Plays the program of a source text in every order of turns.
fn search_loaded<'a, W: Watch + Tell>(
    alloc: Global,
    program: &Program,
    options: &SearchOptions<'a>,
    source: &Source,
    watch: &mut W,
) -> Result<Answer<'a>, Fault<'a>>
    ensures answer { IfOk result (λ answer.
        IsSearchOf (image_of program.now) options.now answer.text.items answer.exit answer.record) }
    ensures object { options.now.format ≡ Format.Text → IfOk result (λ answer. answer.object ≡ None) }
    ensures unanswered { IfErr result (λ fault. fault ≡ out_of_memory) }
{
    let aim = aim_of(options.sought);
    let limits = limits_by(options.states, options.memory);
    let verdict = search(alloc, program, Version::Two, aim, limits, watch)?;
    let millis = watch.millis();
    let VerdictText { text, object, note } = write_verdict(
        alloc, program, options, source, &verdict, millis,
    )?;
    let exit = exit_of(&verdict);
    let beside = show_found(alloc, program, options, source, &verdict.finding, watch)?;
    Ok(Answer {
        text,
        object,
        exit,
        note,
        record: recording_of(options.record, verdict.finding),
        beside,
    })
}

/// A verdict in words.
#[derive(Drop)]
struct VerdictText {
    text: Vec<u8>,
    object: Option<Vec<u8>>,
    note: Result<Vec<u8>, AllocError>,
}

/// Writes a verdict, of a search that took so many milliseconds.
#[inline(never)]
fn write_verdict(
    alloc: Global,
    program: &Program,
    options: &SearchOptions<'_>,
    source: &Source,
    verdict: &Verdict,
    millis: Option<u64>,
) -> Result<VerdictText, AllocError>
    ensures text { IfOk result (λ told. IsTold options.now.sought options.now.lists_outcomes verdict.now told.text.items) }
    ensures object { options.now.format ≡ Format.Text → IfOk result (λ told. told.object ≡ None) }
{
    let text = verdict_text(alloc, options, verdict)?;
    let object = object_of(alloc, options, verdict)?;
    let note = note_of(alloc, program, options, source, verdict, millis);
    Ok(VerdictText { text, object, note })
}

fn aim_of(sought: Sought) -> Aim
    ensures { result ≡ spec.aim_of sought }
{
    match sought {
        Sought::Stuck => Aim::Stuck,
        Sought::Fails => Aim::Fails,
        Sought::Refused => Aim::Refused,
        Sought::Any => Aim::Any,
    }
}

/// The limits of a search that may keep so many states, which may take so many MB.
pub fn limits_by(states: u32, megabytes: u32) -> Limits
    ensures { result ≡ spec.limits_by states megabytes }
{
    Limits {
        states,
        bytes: 1_000_000 * megabytes as u64,
    }
}

/// What the program ends with for this verdict. That nothing was found decides only if every order was played.
fn exit_of(verdict: &Verdict) -> Exit
    ensures { result ≡ spec.exit_for verdict.now.is_whole verdict.now.finding }
{
    match verdict.finding {
        Finding::Nothing => exit_of_nothing(verdict.is_whole),
        Finding::Fails(_) | Finding::Refused(_) => Exit::Failed,
        Finding::Stuck(_) => Exit::Unfinished,
        Finding::Undecided => Exit::Undecided,
    }
}

/// What the program ends with if nothing was found.
fn exit_of_nothing(is_whole: bool) -> Exit
    ensures { result ≡ spec.exit_for_nothing is_whole }
{
    if is_whole {
        Exit::Done
    } else {
        Exit::Undecided
    }
}

/// The verdict, with the outcomes if they are to be listed.
fn verdict_text(
    alloc: Global,
    options: &SearchOptions<'_>,
    verdict: &Verdict,
) -> Result<Vec<u8>, AllocError>
    ensures { IfOk result (λ text. IsTold options.now.sought options.now.lists_outcomes verdict.now text.items) }
{
    let mut text = verdict_lines(alloc, options.sought, verdict)?;
    if options.lists_outcomes {
        let outcomes = outcome_lines(alloc, verdict.ends.as_slice())?;
        text.extend_from_slice(outcomes.as_slice())?;
    }
    Ok(text)
}

/// The verdict as an object of JSON, where that is asked for.
fn object_of(
    alloc: Global,
    options: &SearchOptions<'_>,
    verdict: &Verdict,
) -> Result<Option<Vec<u8>>, AllocError>
    ensures { options.now.format ≡ Format.Text → IfOk result (λ object. object ≡ None) }
{
    match options.format {
        Format::Json => made(search_object(alloc, options, verdict)),
        Format::Text => Ok(None),
    }
}

/// What is said beside the verdict: that there is no order for the record, and why handlers wait or fail or the search gave
/// up, where that is asked for.
fn note_of(
    alloc: Global,
    program: &Program,
    options: &SearchOptions<'_>,
    source: &Source,
    verdict: &Verdict,
    millis: Option<u64>,
) -> Result<Vec<u8>, AllocError> {
    match &verdict.finding {
        Finding::Nothing | Finding::Undecided => {
            unfound_note(alloc, options, verdict.why, millis)
        }
        found => found_note(alloc, program, source, found, options.is_explained),
    }
}

/// Why handlers wait or fail after the order that was found, if that is to be said; nothing if none was.
#[inline(never)]
pub fn found_note(
    alloc: Global,
    program: &Program,
    source: &Source,
    finding: &Finding,
    is_explained: bool,
) -> Result<Vec<u8>, AllocError> {
    match found_run(program, source, finding) {
        Some(played) if is_explained => order_note(alloc, played),
        _ => Ok(Vec::new(alloc)),
    }
}

/// Reports the turns of the order that was found, and makes its pictures, if one was and they are asked for.
#[inline(never)]
fn show_found<'a, T: Tell>(
    alloc: Global,
    program: &Program,
    options: &SearchOptions<'a>,
    source: &Source,
    finding: &Finding,
    teller: &mut T,
) -> Result<Option<Beside<'a>>, AllocError> {
    let Some(played) = found_run(program, source, finding) else {
        return Ok(None);
    };
    tell_turns(alloc, played, options.trace, teller)?;
    beside_of(alloc, played, &options.drawings, false)
}

/// The order that was found as a run of the program of a source text, if one was.
fn found_run<'r>(
    program: &'r Program,
    source: &'r Source,
    finding: &'r Finding,
) -> Option<Played<'r>> {
    match lines_of(finding) {
        Some(lines) => Some(Played {
            source,
            program,
            version: Version::Two,
            lines,
            limit: limit_of(finding),
            may_refuse: true,
        }),
        None => None,
    }
}

/// Where the order that was found ends.
fn limit_of(finding: &Finding) -> Limit {
    match finding {
        Finding::Stuck(_) => Limit::Stuck,
        Finding::Nothing | Finding::Fails(_) | Finding::Refused(_) | Finding::Undecided => {
            Limit::Record
        }
    }
}

/// The lines of the order that was found, if one was.
pub fn lines_of(finding: &Finding) -> Option<&[RecordLine]> {
    match finding {
        Finding::Stuck(order) | Finding::Fails(order) | Finding::Refused(order) => {
            Some(order.lines.as_slice())
        }
        Finding::Nothing | Finding::Undecided => None,
    }
}

/// The record that is to be written, where a file is named for it and an order was found.
fn recording_of<'a>(name: Option<&'a str>, finding: Finding) -> Option<Recording<'a>>
    ensures { kept_of result ≡ spec.found_for (option_map (λ n. n.now) name.entry) finding }
{
    match (name, finding) {
        (Some(name), Finding::Stuck(order) | Finding::Fails(order) | Finding::Refused(order)) =>
            Some(Recording {
                name,
                lines: order.lines,
            }),
        _ => None,
    }
}
