//! What is answered to `run`.

ghost use Rattle.std.specs.Prelude.{◌≡◌, IfErr, IfOk, None, [], map, string_bytes};
ghost use Rattle.sc_driver.specs.Execution.{IsThreadRun};
ghost use Rattle.sc_lower.specs.Lowerings.{image_of};
ghost use Rattle.sc_plant.specs.Bounded.{IsBoundedRun};
ghost use Rattle.sc_plant.specs.Left.{world_of};
ghost use Rattle.sc_world.specs.Reports as told;
ghost use Rattle.std.specs.Option.{option_map};
ghost use Rattle.sc_serve.specs.Answer.{IsJudged, IsRanOf, IsRunOfSource, IsRunOn, IsUnrun, IsUnrunOn, asked_of, audit_line, bounds_of, kept_of};

use crate::drawing::{beside_of, push_stats};
use crate::numbered::numbered;
use crate::progress::Tell;
use crate::serve::{
    Answer, Beside, Exit, Fault, Recording, answer_explained, answer_unread, exit_of, root_if,
};
use crate::tracing::{Tracing, tracer_of};
use crate::verdict::turns_of;
use crate::watching::RunWatch;
use sc_arguments::{Format, RunOptions};
use sc_audit::RecordLine;
use sc_code::Program;
use sc_driver::{AuditFault, Ended, audit, run_program};
use sc_explain_run::{Limit, Played, run_note};
use sc_explain_text::Lines;
use sc_frontend::load_text;
use sc_lockpass::{HandlerNumber, Version};
use sc_model::Status;
use sc_plant::{Bounds, Left, RunFault};
use sc_request::Core;
use sc_source::files::{Files, read_source};
use sc_source::source::Source;
use std::alloc::{AllocError, Global};
use std::sync::Wait;
use std::thread::Threads;
use std::time::Clock;

/// Runs the system of the named files.
#[inline(never)]
pub fn answer_run<'a, R: Threads + Wait + Clock + Sync, F: Files, T: Tell>(
    rt: &R,
    alloc: Global,
    options: &RunOptions<'a>,
    files: &F,
    names: &[&'a str],
    teller: &mut T,
) -> Result<Answer<'a>, Fault<'a>>
    ensures answer { let named = map (λ name. name.now) names.now in
        let held = map (λ name. F.bytes_of files.now name.now) names.now in
        IfOk result (λ answer. IsRunOn options.now named held answer.text.items answer.exit answer.record) }
    ensures object { IfOk result (λ answer. answer.object ≡ None) }
    ensures unrun { let held = map (λ name. F.bytes_of files.now name.now) names.now in
        IfErr result (IsUnrunOn (map (λ name. name.now) names.now) held) }
{
    match read_source(alloc, files, names) {
        Ok(source) => run_source(rt, alloc, options, &source, teller),
        Err(fault) => answer_unread(alloc, names, fault, options.is_explained),
    }
}

/// Runs the system of a source text.
fn run_source<'a, R: Threads + Wait + Clock + Sync, T: Tell>(
    rt: &R,
    alloc: Global,
    options: &RunOptions<'a>,
    source: &Source,
    teller: &mut T,
) -> Result<Answer<'a>, Fault<'a>>
    ensures answer { IfOk result (λ answer. IsRunOfSource options.now source.now answer.text.items answer.exit answer.record) }
    ensures object { IfOk result (λ answer. answer.object ≡ None) }
    ensures unrun { IfErr result IsUnrun }
{
    match load_text(alloc, source.text(), &options.root) {
        Ok(program) => run_loaded(rt, alloc, &program, options, source, teller),
        Err(rejection) => {
            let explained = root_if(options.is_explained, &options.root);
            answer_explained(alloc, source, &rejection, explained)
        }
    }
}

/// Runs the program of a source text.
#[inline(never)]
fn run_loaded<'a, R: Threads + Wait + Clock + Sync, T: Tell>(
    rt: &R,
    alloc: Global,
    program: &Program,
    options: &RunOptions<'a>,
    source: &Source,
    teller: &mut T,
) -> Result<Answer<'a>, Fault<'a>>
    ensures answer { IfOk result (λ answer.
        IsRanOf (image_of program.now) options.now answer.text.items answer.exit answer.record) }
    ensures object { IfOk result (λ answer. answer.object ≡ None) }
    ensures unrun { IfErr result IsUnrun }
{
    let Ended { left, statuses, .. } = run_watched(rt, alloc, program, options, source, teller)?;
    let (audited, exit) = judge(alloc, program, options, &left, statuses.as_slice())?;
    let note = note_of(alloc, program, options, source, &left, statuses.as_slice());
    let beside = beside_left(alloc, program, options, source, &left)?;
    let (mut text, lines) = left.into_report(alloc)?;
    text.extend_from_slice(audited.as_slice())?;
    Ok(Answer {
        text,
        object: None,
        exit,
        note,
        record: recording_of(options.record, lines),
        beside,
    })
}

/// Runs the program of a source text, and reports on the way.
fn run_watched<'p, 'a, R: Threads + Wait + Clock + Sync, T: Tell>(
    rt: &R,
    alloc: Global,
    program: &'p Program,
    options: &RunOptions<'_>,
    source: &Source,
    teller: &mut T,
) -> Result<Ended<'p>, Fault<'a>>
    ensures left { IfOk result (λ ended. IsBoundedRun (image_of program.now) (bounds_of options.now) ended.turns ended.left) }
    ensures ran { IfOk result (λ ended. let report = told.report (world_of ended.left) in
        ∥ IsThreadRun (image_of program.now) ended.turns ended.left.lines.items report ended.statuses.items ∥₁) }
    ensures unrun { IfErr result IsUnrun }
{
    let tracer = tracer_of(alloc, source, program, Version::Two, options.trace)?;
    let tracing = Tracing::new(teller, tracer);
    let mut watch = RunWatch::new(rt, tracing, options.is_explained);
    let bounds = Bounds {
        turns: options.turns,
        output: options.output_limit,
    };
    let ended = run_program(rt, alloc, program, options.workers, bounds, &mut watch);
    let is_lacking = watch.tracing.is_lacking;
    drop(watch);
    match ended {
        Ok(_) if is_lacking => Err(Fault::OutOfMemory),
        Ok(ended) => Ok(ended),
        Err(fault) => Err(fault_of(fault)),
    }
}

/// What an audit adds to the report, if one is asked for, and the status.
#[inline(never)]
fn judge(
    alloc: Global,
    program: &Program,
    options: &RunOptions<'_>,
    left: &Left<'_>,
    statuses: &[Status],
) -> Result<(Vec<u8>, Exit), AllocError>
    ensures { IfOk result (λ judged.
        IsJudged (image_of program.now) options.now.is_audited left.now [] statuses.now judged.0.items judged.1) }
{
    let exit = exit_of(statuses);
    if !options.is_audited {
        return Ok((Vec::new(alloc), exit));
    }
    match audit(alloc, program, left) {
        Ok(()) => Ok((Vec::from_slice(alloc, b"audit yes\n")?, exit)),
        Err(fault) => Ok((audit_line(alloc, fault)?.into_bytes(), Exit::Broken)),
    }
}

/// The line that reports what an audit found at fault.
fn audit_line(alloc: Global, fault: AuditFault) -> Result<String, AllocError>
    ensures { IfOk result (λ line. string_bytes line ≡ audit_line fault) }
{
    match fault {
        AuditFault::BadRecord { line } => {
            numbered(alloc, "audit A1 BadRecord ", line as u64, "\n")
        }
        AuditFault::Differs { handler } => {
            numbered(alloc, "audit A2 Differs ", handler as u64, "\n")
        }
        AuditFault::OutOfMemory => Err(AllocError),
    }
}

/// Why a run isn't done.
pub fn fault_of<'a>(fault: RunFault<'_>) -> Fault<'a>
    ensures { IsUnrun result }
{
    match fault {
        RunFault::OutOfMemory(_) => Fault::OutOfMemory,
        RunFault::ThreadRefused => Fault::NoThread,
        RunFault::LogsDiffer(_, _) => Fault::LogsDiffer,
    }
}

/// Whether a handler has refused a request for which no handler waited.
fn has_refused(core: &Core) -> bool {
    for handler in 0..core.handler_count().min(HandlerNumber::MAX as usize) {
        if core.refused(handler as HandlerNumber).unwrap_or(0) > 0 {
            return true;
        }
    }
    false
}

/// Whether a handler has something to do still.
fn is_any_busy(statuses: &[Status]) -> bool {
    for status in statuses {
        if matches!(status, Status::Busy) {
            return true;
        }
    }
    false
}

/// How many bytes the handlers have printed together.
fn count_printed(left: &Left<'_>) -> u64 {
    let mut printed: u64 = 0;
    for region in &left.regions {
        printed = printed.saturating_add(region.output().len() as u64);
    }
    printed
}

/// The note on a run beside its report: that its handlers have printed too much; and the states of its handlers, if
/// that is asked for.
#[inline(never)]
fn note_of(
    alloc: Global,
    program: &Program,
    options: &RunOptions<'_>,
    source: &Source,
    left: &Left<'_>,
    statuses: &[Status],
) -> Result<Vec<u8>, AllocError> {
    let mut lines = Lines::new(alloc);
    let mut limit = Limit::Turns(options.turns);
    let printed = count_printed(left);
    if printed > options.output_limit.unwrap_or(u64::MAX) && is_any_busy(statuses) {
        limit = Limit::Output;
        let turns = turns_of(left.lines.as_slice());
        lines.fill_number("stopped by --output-limit after ~ turns", turns);
        lines.fill_number(": the handlers have printed ~ bytes\n", printed)
    }
    let played = Played {
        source,
        program,
        version: Version::Two,
        lines: left.lines.as_slice(),
        limit,
        may_refuse: has_refused(&left.core),
    };
    match explained_run(alloc, played, statuses, options.is_explained) {
        Ok(note) => lines.push_bytes(note.as_slice()),
        Err(_) => lines.lack(),
    }
    push_stats(&mut lines, played, options.format, options.has_stats);
    lines.finish()
}

/// What is answered beside the report of what a run left.
#[inline(never)]
fn beside_left<'a>(
    alloc: Global,
    program: &Program,
    options: &RunOptions<'a>,
    source: &Source,
    left: &Left<'_>,
) -> Result<Option<Beside<'a>>, AllocError> {
    let has_member = options.has_stats && matches!(options.format, Format::Json);
    let played = Played {
        source,
        program,
        version: Version::Two,
        lines: left.lines.as_slice(),
        limit: Limit::Turns(options.turns),
        may_refuse: true,
    };
    beside_of(alloc, played, &options.drawings, has_member)
}

/// Why handlers failed or wait after a run, or what they refused, if that is to be said.
#[inline(never)]
pub fn explained_run(
    alloc: Global,
    played: Played<'_>,
    statuses: &[Status],
    is_explained: bool,
) -> Result<Vec<u8>, AllocError> {
    if is_explained {
        run_note(alloc, played, statuses)
    } else {
        Ok(Vec::new(alloc))
    }
}

/// The record that is to be written, where a file is named for it.
pub fn recording_of<'a>(name: Option<&'a str>, lines: Vec<RecordLine>) -> Option<Recording<'a>>
    ensures { kept_of result ≡ asked_of (option_map (λ n. n.now) name.entry) lines.items }
{
    match name {
        Some(name) => Some(Recording { name, lines }),
        None => None,
    }
}
