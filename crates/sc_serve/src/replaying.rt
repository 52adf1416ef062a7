//! What is answered to `replay`.

ghost use Rattle.std.specs.Prelude.{◌≡◌, IfErr, IfOk, None, OnOk, map};
ghost use Rattle.sc_class.specs.View.{root_of};
ghost use Rattle.sc_lower.specs.Lowerings.{image_of};
ghost use Rattle.sc_serve.specs.Answer.{IsBadRecord, IsRecordUnread, IsReplayOf, IsReplayOn, IsReplayTo, IsReplayed, IsUnplayed, IsUnplayedRecord, TellsBadRecord};

use crate::drawing::{beside_of, push_stats};
use crate::progress::Tell;
use crate::running::explained_run;
use crate::serve::{
    Answer, Fault, answer_explained, answer_refused, answer_unread, exit_of, root_if,
};
use crate::tracing::tell_turns;
use sc_arguments::{Format, ReplayOptions};
use sc_audit::{ReadFault, Record, read_record};
use sc_code::Program;
use sc_driver::replay;
use sc_explain_run::{Limit, Played};
use sc_explain_text::Lines;
use sc_frontend::load_text;
use sc_model::Status;
use sc_source::files::{Files, NamedFile, read_source};
use sc_source::reading::FileFault;
use sc_source::source::Source;
use std::alloc::{AllocError, Global};

/// Plays a record with the system of the named files.
#[inline(never)]
pub fn answer_replay<'a, F: Files, T: Tell>(
    alloc: Global,
    options: &ReplayOptions<'a>,
    files: &F,
    names: &[&'a str],
    teller: &mut T,
) -> Result<Answer<'a>, Fault<'a>>
    ensures answer { let named = map (λ name. name.now) names.now in
        let held = map (λ name. F.bytes_of files.now name.now) names.now in
        let recorded = F.bytes_of files.now options.now.record.now in
        IfOk result (λ answer. IsReplayOn (root_of options.now.root) recorded named held answer.text.items answer.exit) }
    ensures plain { IfOk result (λ answer. (answer.record ≡ None) × (answer.object ≡ None)) }
    ensures unplayed { let held = map (λ name. F.bytes_of files.now name.now) names.now in
        IfErr result (IsUnplayed options.now.record.now (map (λ name. name.now) names.now) held) }
{
    match read_source(alloc, files, names) {
        Ok(source) => replay_source(alloc, options, files, &source, teller),
        Err(fault) => answer_unread(alloc, names, fault, options.is_explained),
    }
}

/// Plays a record with the system of a source text.
fn replay_source<'a, F: Files, T: Tell>(
    alloc: Global,
    options: &ReplayOptions<'a>,
    files: &F,
    source: &Source,
    teller: &mut T,
) -> Result<Answer<'a>, Fault<'a>>
    ensures answer { let recorded = F.bytes_of files.now options.now.record.now in
        IfOk result (λ answer. IsReplayOf (root_of options.now.root) recorded source.now answer.text.items answer.exit) }
    ensures plain { IfOk result (λ answer. (answer.record ≡ None) × (answer.object ≡ None)) }
    ensures unread { IfErr result (IsUnplayedRecord options.now.record.now) }
{
    match load_text(alloc, source.text(), &options.root) {
        Ok(program) => {
            let answer = play_record(alloc, &program, files, options, source, teller);
            drop(program);
            answer
        }
        Err(rejection) => {
            let explained = root_if(options.is_explained, &options.root);
            answer_explained(alloc, source, &rejection, explained)
        }
    }
}

/// Plays with the program of a source text the record that the named file holds.
#[tactic(auto, using(crate::proofs::AnswerLemmas::unplayed))]
fn play_record<'a, F: Files, T: Tell>(
    alloc: Global,
    program: &Program,
    files: &F,
    options: &ReplayOptions<'a>,
    source: &Source,
    teller: &mut T,
) -> Result<Answer<'a>, Fault<'a>>
    ensures answer { let held = F.bytes_of files.now options.now.record.now in
        IfOk result (λ answer. IsReplayTo (image_of program.now) held answer.text.items answer.exit) }
    ensures plain { IfOk result (λ answer. (answer.record ≡ None) × (answer.object ≡ None)) }
    ensures unread { IfErr result (IsUnplayedRecord options.now.record.now) }
{
    let name = options.record;
    let read = read_record(alloc, &mut NamedFile::new(files, name));
    match read {
        Ok(record) => Ok(play(alloc, program, options, source, &record, teller)?),
        Err(fault) => answer_no_record(alloc, name, fault, options.is_explained),
    }
}

/// Plays a record with the program of a source text.
fn play<'a, T: Tell>(
    alloc: Global,
    program: &Program,
    options: &ReplayOptions<'a>,
    source: &Source,
    recorded: &Record,
    teller: &mut T,
) -> Result<Answer<'a>, AllocError>
    ensures answer { IfOk result (λ answer. IsReplayed (image_of program.now) recorded.now.version recorded.now.lines.items
        answer.text.items answer.exit) }
    ensures plain { IfOk result (λ answer. (answer.record ≡ None) × (answer.object ≡ None)) }
{
    let played = recorded_run(program, source, recorded);
    tell_turns(alloc, played, options.trace, teller)?;
    let outcome = replay(alloc, program, recorded)?;
    let exit = exit_of(outcome.statuses.as_slice());
    let note = note_of(alloc, options, played, outcome.statuses.as_slice());
    let has_member = options.has_stats && matches!(options.format, Format::Json);
    let beside = beside_of(alloc, played, &options.drawings, has_member)?;
    Ok(Answer {
        text: outcome.report,
        object: None,
        exit,
        note,
        record: None,
        beside,
    })
}

/// A record as a run of the program of a source text.
fn recorded_run<'r>(program: &'r Program, source: &'r Source, recorded: &'r Record) -> Played<'r> {
    Played {
        source,
        program,
        version: recorded.version,
        lines: recorded.lines.as_slice(),
        limit: Limit::Record,
        may_refuse: true,
    }
}

/// The note on a replay: why handlers failed or wait, and what each did in numbers, as far as that is asked for.
#[inline(never)]
fn note_of(
    alloc: Global,
    options: &ReplayOptions<'_>,
    played: Played<'_>,
    statuses: &[Status],
) -> Result<Vec<u8>, AllocError> {
    let mut lines = Lines::new(alloc);
    match explained_run(alloc, played, statuses, options.is_explained) {
        Ok(note) => lines.push_bytes(note.as_slice()),
        Err(_) => lines.lack(),
    }
    push_stats(&mut lines, played, options.format, options.has_stats);
    lines.finish()
}

/// What is answered where a file holds no record, and in which line of it, where that is asked for.
fn answer_no_record<'a>(
    alloc: Global,
    name: &'a str,
    fault: ReadFault,
    is_explained: bool,
) -> Result<Answer<'a>, Fault<'a>>
    ensures refused { IfOk result (λ answer. TellsBadRecord answer.text.items answer.exit) }
    ensures bad { OnOk result (IsBadRecord fault) }
    ensures plain { IfOk result (λ answer. (answer.record ≡ None) × (answer.object ≡ None)) }
    ensures unread { IfErr result (IsRecordUnread name.now fault) }
{
    match fault {
        ReadFault::BadRecord { line } => {
            let note = bad_line_note(alloc, name, line, is_explained);
            answer_refused(alloc, b"refused A1 BadRecord\n", note)
        }
        ReadFault::Unreadable(error) => Err(Fault::CannotRead(name, FileFault::Unreadable(error))),
        ReadFault::OutOfMemory => Err(Fault::OutOfMemory),
    }
}

/// In which line a file that should hold a record goes wrong, if that is asked for.
fn bad_line_note(
    alloc: Global,
    name: &str,
    line: usize,
    is_explained: bool,
) -> Result<Vec<u8>, AllocError> {
    let template = ":~: the record goes wrong in this line
`scoop explain A1` says more
";
    let mut lines = Lines::new(alloc);
    if is_explained {
        lines.push(name);
        lines.fill_number(template, line as u64)
    }
    lines.finish()
}
