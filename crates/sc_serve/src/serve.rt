//! One call of the program, from its arguments to its status.

ghost use Rattle.std.specs.Prelude.{◌≡◌, ◌⊎◌, [], IfErr, IfOk, None, OnOk, map};
ghost use Rattle.sc_serve.specs.Answer as spec;
ghost use Rattle.std.specs.Option.{option_map};
ghost use Rattle.sc_arguments.specs.Asked.{IsAskedFor};
ghost use Rattle.sc_frontend.specs.Texts.{IsUnreadable};
ghost use Rattle.sc_serve.specs.Answer.{IsAnswerOn, IsAnswerTo, IsInLayout, IsRefusalOf, IsRejectedFor, IsUnansweredOn, IsUnread, too_long};
ghost use Rattle.sc_serve.specs.Served.{Answers, IsExplained, IsFormatted, IsGivenUp, IsHelp, IsResponse, IsServed, format_asked, format_of};

use crate::all_faults::answer_all_faults;
use crate::chance::answer_chance;
use crate::delivery::{deliver, status_of};
use crate::drawing::check_drawings;
use crate::explaining::{explanation, too_long_note};
use crate::json::answer_object;
use crate::layouts::answer_layout;
use crate::progress::{Progress, Tell};
use crate::refusal::line_of;
use crate::replaying::answer_replay;
use crate::running::answer_run;
use crate::saying::say;
use crate::searching::answer_search;
use crate::target::check_target;
use crate::testing::{answer_tests, shape_of};
use sc_arguments::{Command, Format, Invocation, UsageFault, ask_for_help, read_arguments};
use sc_audit::RecordLine;
use sc_class::Root;
use sc_explain_text::{find, left_out, list};
use sc_format::format_text;
use sc_frontend::{Refused, Rejection, check_text, print_text};
use sc_language_server::{Ending, serve_editor};
use sc_model::Status;
use sc_search::Watch;
use sc_source::files::{Files, read_source};
use sc_source::reading::FileFault;
use sc_source::source::{JoinFault, Source, name_at};
use sc_source::writing::Remains;
use sc_text::LexFault;
use std::alloc::{AllocError, Global};
use std::convert::AsStr;
use std::io::{self, Write};
use std::sync::Wait;
use std::thread::Threads;
use std::time::Clock;

/// What the program ends with. Where several fit, the first in this list.
#[derive(Clone, Copy)]
pub enum Exit {
    /// Memory ran out, a thread was refused, or what the threads of a run did doesn't agree.
    Broken = 5,
    /// An argument, a file or the output is at fault.
    Usage = 2,
    /// The system is refused.
    Refused = 1,
    /// A handler has failed; of a search also: it refuses a request in some order.
    Failed = 3,
    /// A handler is waiting or busy.
    Unfinished = 4,
    /// A search was cut short before it found anything.
    Undecided = 6,
    /// None of these.
    Done = 0,
}

/// What the program writes on standard output, what it ends with, what it adds on standard error, and the record and the
/// pictures that it writes to files.
#[derive(Drop)]
pub struct Answer<'a> {
    pub text: Vec<u8>,
    /// What is written in place of the text, where an object of JSON is asked for.
    pub object: Option<Vec<u8>>,
    pub exit: Exit,
    /// An error if memory ran out for it: then there is no answer.
    pub note: Result<Vec<u8>, AllocError>,
    pub record: Option<Recording<'a>>,
    pub beside: Option<Beside<'a>>,
}

/// What is answered to a run beside its report.
#[derive(Drop)]
pub struct Beside<'a> {
    /// The numbers of its handlers as a member of JSON; nothing if its object isn't to have them.
    pub stats: Vec<u8>,
    /// The files that it is drawn to.
    pub drawings: Vec<Drawing<'a>>,
}

/// A file that a run is drawn to, and all its bytes.
#[derive(Drop)]
pub struct Drawing<'a> {
    pub name: &'a str,
    pub bytes: Vec<u8>,
}

/// The lines of a record, and the name of the file that it is written to.
#[derive(Drop)]
pub struct Recording<'a> {
    pub name: &'a str,
    pub lines: Vec<RecordLine>,
}

impl<'a> Answer<'a> {
    /// With nothing added.
    pub fn new(alloc: Global, text: Vec<u8>, exit: Exit) -> Self
        ensures text { result.text ≡ text }
        ensures exit { result.exit ≡ exit }
        ensures record { result.record ≡ None }
        ensures object { result.object ≡ None }
    {
        Answer::noted(text, exit, Ok(Vec::new(alloc)))
    }

    /// With this note.
    pub fn noted(text: Vec<u8>, exit: Exit, note: Result<Vec<u8>, AllocError>) -> Self
        ensures text { result.text ≡ text }
        ensures exit { result.exit ≡ exit }
        ensures record { result.record ≡ None }
        ensures object { result.object ≡ None }
    {
        Answer {
            text,
            object: None,
            exit,
            note,
            record: None,
            beside: None,
        }
    }
}

/// Why the program ends without an answer.
#[derive(Drop)]
pub enum Fault<'a> {
    Usage(UsageFault),
    /// An argument that is no code and no code's name.
    NoCode(&'a str),
    /// A file that can't be opened or read, or isn't UTF-8, and what is wrong with it.
    CannotRead(&'a str, FileFault),
    /// Standard output is closed or full.
    CannotWrite,
    /// A file that the record can't be written to, why, and what it is left with, if it was opened.
    CannotRecord(&'a str, io::Error, Option<Remains>),
    /// A file that the record isn't written to: it is there and is none, or one of the files that are read.
    NoRecord(&'a str),
    /// A file that a picture isn't written to: it is there and is none of that kind, or is read or written otherwise.
    NoDrawing(&'a str),
    /// A thread is refused.
    NoThread,
    /// The threads of a run have logs that differ, which never comes.
    LogsDiffer,
    /// An argument that isn't UTF-8.
    NotText,
    OutOfMemory,
}

impl<'a> From<AllocError> for Fault<'a> {
    ghost from_gives = { λ _ fault. fault ≡ spec.out_of_memory };

    fn from(_error: AllocError) -> Fault<'a> {
        Fault::OutOfMemory
    }
}

/// Does what `arguments` ask for, the program's name first, and returns the status that the program ends with. The
/// answer is written to `out`, and the reason for having none to `err`. The record of a run goes to its file after
/// that; whether the file may be written is looked at before anything is done. If `err` is a terminal, a search shows
/// there how far it is, and so does a run of a second or more, and answers are explained there unless an argument says
/// otherwise. Turns that are to be reported as they are made are reported there.
///
/// If the arguments ask for it, an editor is answered on `out`, whose messages are read from standard input.
///
/// With any status but 2 and 5 all of the answer is written. With these a beginning of it is, and nothing if there is
/// none.
pub fn serve<
    R: Threads + Wait + Clock + Sync + AllocGlobal,
    S: AsStr,
    F: Files,
    O: Write,
    E: Write,
>(rt: &R, arguments: &[S], files: &F, out: &mut O, err: &mut E, is_terminal: bool) -> u8
    ensures { let words = map S.text arguments.now in
        IsServed words (F.bytes_of files.now) (O.contents out.old) (O.contents out.new) result }
{
    let alloc = rt.alloc();
    let asked = read_arguments(alloc, arguments, is_terminal);
    if let Ok(Invocation::LanguageServer) = &asked {
        return answer_editor(alloc, files, out, err);
    }
    let mut progress = Progress::new(rt, err, is_terminal);
    let response = respond(rt, alloc, arguments, asked, files, &mut progress);
    progress.clear();
    match response {
        Ok(answer) => deliver(&answer, files, out, err),
        Err(fault) => end_with(&fault, err),
    }
}

/// Says on `err` why the program ends without an answer, and answers its status.
pub fn end_with<E: Write>(fault: &Fault<'_>, err: &mut E) -> u8
    ensures { IsGivenUp result }
{
    // The program ends in any case, and nothing can report that `err` failed. The status still says so if
    // it failed since memory ran out.
    let is_written = say(fault, err);
    status_after(fault, is_written)
}

/// The status of a program without an answer. `is_written` is false if memory ran out as the reason was written.
fn status_after(fault: &Fault<'_>, is_written: bool) -> u8
    ensures { IsGivenUp result }
{
    match fault {
        Fault::Usage(UsageFault::OutOfMemory) | Fault::OutOfMemory => Exit::Broken as u8,
        Fault::NoThread | Fault::LogsDiffer => Exit::Broken as u8,
        _ if is_written => Exit::Usage as u8,
        _ => Exit::Broken as u8,
    }
}

/// Answers an editor, and returns the status that the program ends with.
#[inline(never)]
fn answer_editor<F: Files, O: Write, E: Write>(
    alloc: Global,
    files: &F,
    out: &mut O,
    err: &mut E,
) -> u8 {
    match files.reader("-") {
        Ok(mut input) => match serve_editor(alloc, files, &mut input, out) {
            Ending::Down => status_of(Exit::Done),
            Ending::Cut => status_of(Exit::Refused),
            Ending::CannotWrite => end_with(&Fault::CannotWrite, err),
        },
        Err(error) => end_with(&Fault::CannotRead("-", FileFault::Unreadable(error)), err),
    }
}

/// The answer to the arguments, of which this was read: what they ask for, or help if they ask for that.
fn respond<'a, R: Threads + Wait + Clock + Sync, S: AsStr, F: Files, W: Watch + Tell>(
    rt: &R,
    alloc: Global,
    arguments: &'a [S],
    asked: Result<Invocation<'a>, UsageFault>,
    files: &F,
    watch: &mut W,
) -> Result<Answer<'a>, Fault<'a>>
    requires { IfOk asked (IsAskedFor (map S.text arguments.now)) }
    ensures { IfOk result (IsResponse (map S.text arguments.now) (F.bytes_of files.now)) }
{
    match asked {
        Ok(invocation) => answer_to(rt, alloc, &invocation, files, watch),
        Err(fault) => answer_unasked(alloc, arguments, fault),
    }
}

/// The answer to arguments that ask for nothing to be done: help, if they ask for that.
#[tactic(auto, using(crate::proofs::ServedLemmas::help))]
fn answer_unasked<'a, S: AsStr>(
    alloc: Global,
    arguments: &[S],
    fault: UsageFault,
) -> Result<Answer<'a>, Fault<'a>>
    ensures { IfOk result (IsHelp (map S.text arguments.now)) }
{
    match fault {
        UsageFault::Arguments(error) if !error.use_stderr() && ask_for_help(arguments) => {
            let text = error.to_string(alloc)?.into_bytes();
            Ok(Answer::new(alloc, text, Exit::Done))
        }
        fault => Err(Fault::Usage(fault)),
    }
}

/// Does what is asked for, and answers in the format that is asked for.
fn answer_to<'a, R: Threads + Wait + Clock + Sync, F: Files, W: Watch + Tell>(
    rt: &R,
    alloc: Global,
    invocation: &Invocation<'a>,
    files: &F,
    watch: &mut W,
) -> Result<Answer<'a>, Fault<'a>>
    ensures { IfOk result (Answers (F.bytes_of files.now) invocation.now) }
{
    check_target(alloc, files, invocation)?;
    check_drawings(alloc, files, invocation)?;
    let answer = answer_unformatted(rt, alloc, invocation, files, watch)?;
    formatted(alloc, format_asked(invocation), answer)
}

/// Does what is asked for.
fn answer_unformatted<'a, R: Threads + Wait + Clock + Sync, F: Files, W: Watch + Tell>(
    rt: &R,
    alloc: Global,
    invocation: &Invocation<'a>,
    files: &F,
    watch: &mut W,
) -> Result<Answer<'a>, Fault<'a>>
    ensures { IfOk result (Answers (F.bytes_of files.now) invocation.now) }
{
    match invocation {
        Invocation::OnFiles(command, names) => {
            answer_on_files(alloc, command, files, names.as_slice())
        }
        Invocation::CheckAll(options, names) => {
            answer_all_faults(alloc, options, files, names.as_slice())
        }
        Invocation::Run(options, names) => {
            answer_run(rt, alloc, options, files, names.as_slice(), watch)
        }
        Invocation::Chance(options, names) => {
            answer_chance(alloc, options, files, names.as_slice())
        }
        Invocation::Replay(options, names) => {
            answer_replay(alloc, options, files, names.as_slice(), watch)
        }
        Invocation::Search(options, names) => {
            answer_search(alloc, options, files, names.as_slice(), watch)
        }
        Invocation::Test(options, names) => {
            answer_tests(rt, alloc, options, files, names.as_slice(), watch)
        }
        Invocation::Layout(is_written, names) => {
            answer_layout(alloc, *is_written, files, names.as_slice())
        }
        Invocation::Explain(word) => explain(alloc, *word),
        Invocation::LanguageServer => Err(Fault::Usage(UsageFault::NoCommand)),
    }
}

/// The format that is asked for.
fn format_asked(invocation: &Invocation<'_>) -> Format
    ensures { result ≡ format_asked invocation.now }
{
    match invocation {
        Invocation::OnFiles(command, _) => format_of(command),
        Invocation::CheckAll(options, _) => options.format,
        Invocation::Run(options, _) => options.format,
        Invocation::Chance(options, _) => options.format,
        Invocation::Replay(options, _) => options.format,
        Invocation::Search(options, _) => options.format,
        Invocation::Test(options, _) => shape_of(options.format),
        Invocation::Layout(..) | Invocation::Explain(_) | Invocation::LanguageServer => {
            Format::Text
        }
    }
}

/// The page of a code or a name, or the list of all codes.
fn explain<'a>(alloc: Global, word: Option<&'a str>) -> Result<Answer<'a>, Fault<'a>>
    ensures { IfOk result (IsExplained (option_map (λ w. w.now) word.entry)) }
{
    let Some(word) = word else {
        return Ok(Answer::new(alloc, list(alloc)?, Exit::Done));
    };
    match find(word) {
        Some(page) => {
            let text = Vec::from_slice(alloc, page.as_bytes())?;
            Ok(Answer::new(alloc, text, Exit::Done))
        }
        None => Err(Fault::NoCode(word)),
    }
}

fn format_of(command: &Command) -> Format
    ensures { result ≡ format_of command.now }
{
    match command {
        Command::Check(options) => options.format,
        Command::Print | Command::Format => Format::Text,
    }
}

/// The answer with an object of JSON in place of its text, where that is asked for.
fn formatted<'a>(
    alloc: Global,
    format: Format,
    mut answer: Answer<'a>,
) -> Result<Answer<'a>, Fault<'a>>
    ensures { IfOk result (IsFormatted format answer.entry) }
{
    if answer.object.is_none() && matches!(format, Format::Json) {
        let object = answer_object(alloc, answer.text.as_slice(), &answer.beside)?;
        answer.object = Some(object);
    }
    Ok(answer)
}

/// Does with the system of the named files what is asked for.
#[inline(never)]
fn answer_on_files<'a, F: Files>(
    alloc: Global,
    command: &Command,
    files: &F,
    names: &[&'a str],
) -> Result<Answer<'a>, Fault<'a>>
    ensures answer { let named = map (λ name. name.now) names.now in
        let held = map (λ name. F.bytes_of files.now name.now) names.now in
        IfOk result (λ answer. IsAnswerOn command.now named held answer.text.items answer.exit) }
    ensures plain { IfOk result (λ answer. (answer.record ≡ None) × (answer.object ≡ None)) }
    ensures unanswered { let held = map (λ name. F.bytes_of files.now name.now) names.now in
        IfErr result (IsUnansweredOn (map (λ name. name.now) names.now) held) }
{
    let source = match read_source(alloc, files, names) {
        Ok(source) => source,
        Err(fault) => return answer_unread(alloc, names, fault, explained_root(command).is_some()),
    };
    match examine(alloc, command, source.text()) {
        Ok(answer) => Ok(answer),
        Err(rejection) => answer_explained(alloc, &source, &rejection, explained_root(command)),
    }
}

/// What the system is run from, where a refusal is to be shown in its line of the text too.
fn explained_root(command: &Command) -> Option<&Root> {
    match command {
        Command::Check(options) => root_if(options.is_explained, &options.root),
        Command::Print | Command::Format => None,
    }
}

/// The root, where a refusal is to be shown in its line of the text too.
pub fn root_if(is_explained: bool, root: &Root) -> Option<&Root> {
    if is_explained { Some(root) } else { None }
}

/// The answer if nothing is made of the source text, shown in its line of the text for a system with a root.
pub fn answer_explained<'a>(
    alloc: Global,
    source: &Source,
    rejection: &Rejection,
    explained: Option<&Root>,
) -> Result<Answer<'a>, Fault<'a>>
    ensures refused { IfOk result (λ answer. IsRefusalOf source.now rejection.now answer.text.items answer.exit) }
    ensures unrecorded { IfOk result (λ answer. answer.record ≡ None) }
    ensures object { IfOk result (λ answer. answer.object ≡ None) }
    ensures untold { IfErr result (λ fault. fault ≡ spec.out_of_memory) }
{
    let note = explanation(alloc, source, explained, rejection);
    answer_rejected(alloc, source, rejection, note)
}

/// What is answered where the named files have no source text, with which of them makes it too long where that is to be shown.
pub fn answer_unread<'a>(
    alloc: Global,
    names: &[&'a str],
    unread: JoinFault,
    is_explained: bool,
) -> Result<Answer<'a>, Fault<'a>>
    ensures refused { IfOk result (λ answer. IsRefusalOf [] too_long answer.text.items answer.exit) }
    ensures long { OnOk result (unread.fault ≡ FileFault.TooLong) }
    ensures unrecorded { IfOk result (λ answer. answer.record ≡ None) }
    ensures object { IfOk result (λ answer. answer.object ≡ None) }
    ensures unread { IfErr result (IsUnread (map (λ name. name.now) names.now) unread) }
{
    let JoinFault { file, fault } = unread;
    match fault {
        FileFault::TooLong => {
            let rejection = Rejection::Text(LexFault::SourceTooLong);
            let note = too_long_note(alloc, name_at(names, file), is_explained);
            answer_rejected(alloc, &Source::new(alloc), &rejection, note)
        }
        FileFault::OutOfMemory => Err(Fault::OutOfMemory),
        FileFault::Unreadable(_) | FileFault::NotUtf8 { offset: _ } => {
            let name = name_at(names, file);
            Err(Fault::CannotRead(name, fault))
        }
    }
}

/// The answer if nothing is made of the source text, with what is added on standard error.
fn answer_rejected<'a>(
    alloc: Global,
    source: &Source,
    rejection: &Rejection,
    note: Result<Vec<u8>, AllocError>,
) -> Result<Answer<'a>, Fault<'a>>
    ensures refused { IfOk result (λ answer. IsRefusalOf source.now rejection.now answer.text.items answer.exit) }
    ensures unrecorded { IfOk result (λ answer. answer.record ≡ None) }
    ensures object { IfOk result (λ answer. answer.object ≡ None) }
    ensures untold { IfErr result (λ fault. fault ≡ spec.out_of_memory) }
{
    match Refused::by(rejection) {
        Some(refused) => {
            let line = line_of(alloc, refused, source)?.into_bytes();
            Ok(Answer::noted(line, Exit::Refused, note))
        }
        None => match rejection {
            Rejection::CodeTooLong => answer_refused(alloc, b"refused CodeTooLong\n", note),
            _ => Err(Fault::OutOfMemory),
        },
    }
}

/// Does with the system of a source text what is asked for.
pub fn examine<'a>(alloc: Global, command: &Command, text: &str) -> Result<Answer<'a>, Rejection>
    ensures answer { IfOk result (λ answer. IsAnswerTo command.now text.now answer.text.items answer.exit) }
    ensures plain { IfOk result (λ answer. (answer.record ≡ None) × (answer.object ≡ None)) }
    ensures rejected { IfErr result (IsRejectedFor command.now text.now) }
{
    match command {
        Command::Check(options) => {
            check_text(alloc, text, &options.root)?;
            let text = Vec::from_slice(alloc, b"ok\n")?;
            Ok(Answer::new(alloc, text, Exit::Done))
        }
        Command::Format => {
            let text = formatted_text(alloc, text)?;
            Ok(Answer::new(alloc, text, Exit::Done))
        }
        Command::Print => {
            let printed = print_text(alloc, text)?;
            Ok(Answer::noted(printed, Exit::Done, left_out(alloc, text)))
        }
    }
}

/// The source text in its layout, if it spells a system.
pub(crate) fn formatted_text(alloc: Global, text: &str) -> Result<Vec<u8>, Rejection>
    ensures laid { IfOk result (λ output. IsInLayout text.now output.items) }
    ensures refused { IfErr result (IsUnreadable text.now) }
{
    print_text(alloc, text)?;
    Ok(format_text(alloc, text)?)
}

/// The answer of a line that reports a refusal, with what is added on standard error.
pub(crate) fn answer_refused<'a>(
    alloc: Global,
    line: &[u8],
    note: Result<Vec<u8>, AllocError>,
) -> Result<Answer<'a>, Fault<'a>>
    ensures text { IfOk result (λ answer. answer.text.items ≡ line.now) }
    ensures exit { IfOk result (λ answer. answer.exit ≡ Exit.Refused) }
    ensures unrecorded { IfOk result (λ answer. answer.record ≡ None) }
    ensures object { IfOk result (λ answer. answer.object ≡ None) }
    ensures err { IfErr result (λ fault. fault ≡ spec.out_of_memory) }
{
    let text = Vec::from_slice(alloc, line)?;
    Ok(Answer::noted(text, Exit::Refused, note))
}

/// What the program ends with where the handlers are left like that.
pub fn exit_of(statuses: &[Status]) -> Exit
    ensures { result ≡ spec.exit_of statuses.now }
{
    let mut have_failed = false;
    let mut are_unfinished = false;
    for status in statuses {
        have_failed = have_failed | has_failed(*status);
        are_unfinished = are_unfinished | is_unfinished(*status);
    }
    if have_failed {
        Exit::Failed
    } else if are_unfinished {
        Exit::Unfinished
    } else {
        Exit::Done
    }
}

fn has_failed(status: Status) -> bool
    ensures { result ≡ spec.has_failed status }
{
    matches!(status, Status::Failed(_))
}

/// Whether the handler is waiting or busy.
fn is_unfinished(status: Status) -> bool
    ensures { result ≡ spec.is_unfinished status }
{
    matches!(status, Status::Busy | Status::Waiting)
}
