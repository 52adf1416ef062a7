//! The arguments of a command line: what is asked for, and of which files.

mod chance;
mod checking;
mod drawing;
mod format;
mod formatting;
mod given;
mod help;
mod language_server;
mod numbers;
mod options;
mod root_option;
mod searching;
mod testing;
mod tracing;
mod words;

ghost use Rattle.std.specs.Prelude.{◌≡◌, IfOk, codes, false, map};
ghost use Rattle.sc_arguments.specs.Asked.{AreRunOptions, IsAskedFor, IsAskedOf, texts_of};
ghost use Rattle.sc_arguments.specs.Usage as spec;
ghost use Rattle.sc_arguments.specs.Words.{given_in};

use crate::arguments::chance::{SEED, TIMES, UNTIL, read_running};
use crate::arguments::checking::{CHECK, read_checking};
use crate::arguments::drawing::{TIMELINE, TRACE_EVENTS, read_drawings};
use crate::arguments::format::read_format;
use crate::arguments::formatting::{FORMATTING, read_formatting};
use crate::arguments::given::given_in;
use crate::arguments::language_server::LANGUAGE_SERVER;
use crate::arguments::numbers::{limit_by, number_up_to, small_number_up_to};
use crate::arguments::options::{
    Beside, CODE, EXPLAIN, FILES, FLAG, FORMAT, KEPT, NO_EXPLAIN, OPTION, OUTPUT_LIMIT, RECORD,
    ROOT, STATS, TRACE, Taken, argument,
};
use crate::arguments::root_option::read_root;
use crate::arguments::searching::{SEARCH, read_search};
use crate::arguments::testing::{TEST, read_tests};
use crate::arguments::tracing::{read_trace, read_trace_by};
use crate::arguments::words::{has_option, value_of, value_or};
pub use chance::{ChanceOptions, Until};
use clap::builder::ValueParser;
use clap::error::ErrorKind;
use clap::{ArgAction, ArgMatches};
pub use drawing::Drawings;
pub use format::Format;
pub use help::ask_for_help;
use sc_class::Root;
pub use searching::{SearchOptions, Sought};
use std::alloc::{AllocError, Global};
use std::convert::AsStr;
pub use testing::{TestFormat, TestOptions};
use thiserror::Error;
pub use tracing::Trace;

/// What the arguments of a command line ask for.
#[derive(Drop)]
pub enum Invocation<'a> {
    /// To do something with the system of these files.
    OnFiles(Command, Vec<&'a str>),
    /// To check every part of the system of these files, and to warn.
    CheckAll(CheckOptions, Vec<&'a str>),
    /// To check the system of these files and run it.
    Run(RunOptions<'a>, Vec<&'a str>),
    /// To check the system of these files and run it by chance.
    Chance(ChanceOptions<'a>, Vec<&'a str>),
    /// To play a record with the system of these files.
    Replay(ReplayOptions<'a>, Vec<&'a str>),
    /// To play the system of these files in every order of turns.
    Search(SearchOptions<'a>, Vec<&'a str>),
    /// To play the tests of the system of these files.
    Test(TestOptions<'a>, Vec<&'a str>),
    /// To put each of these files in its layout, or if that isn't said, to name those that aren't.
    Layout(bool, Vec<&'a str>),
    /// To explain this code or name, or to list all codes.
    Explain(Option<&'a str>),
    /// To answer an editor by the language server protocol.
    LanguageServer,
}

/// What is to be done with a system that isn't run.
#[derive(Drop)]
pub enum Command {
    /// Checks it.
    Check(CheckOptions),
    /// Prints its canonical text.
    Print,
    /// Prints its text in the layout of canonical text, with its comments.
    Format,
}

#[derive(Drop)]
pub struct CheckOptions {
    pub root: Root,
    /// Whether a refusal is to be shown in its line of the text too.
    pub is_explained: bool,
    pub format: Format,
}

#[derive(Drop)]
pub struct RunOptions<'a> {
    pub root: Root,
    /// How many threads play the handlers, from 1 to 8.
    pub workers: u8,
    /// The most turns that are played, from 1 to 10,000,000.
    pub turns: u32,
    /// The most bytes that the handlers print together before the run is ended, if there is such a number.
    pub output_limit: Option<u64>,
    /// The name of the file that the record of the run is written to.
    pub record: Option<&'a str>,
    /// Whether one thread is to play the record, and the result is to be compared with what the run left.
    pub is_audited: bool,
    /// Which turns are reported as they are made; only with one worker.
    pub trace: Option<Trace>,
    /// Whether it is said in numbers what each handler did.
    pub has_stats: bool,
    /// The files that the run is drawn to.
    pub drawings: Drawings<'a>,
    /// Whether a refusal is also shown in its line of the text, and the handlers' states are explained.
    pub is_explained: bool,
    pub format: Format,
}

#[derive(Drop)]
pub struct ReplayOptions<'a> {
    pub root: Root,
    /// The name of the file with the record.
    pub record: &'a str,
    /// Which turns are reported as they are made.
    pub trace: Option<Trace>,
    /// Whether it is said in numbers what each handler did.
    pub has_stats: bool,
    /// The files that the run is drawn to.
    pub drawings: Drawings<'a>,
    /// Whether a refusal is also shown in its line of the text, and the handlers' states are explained.
    pub is_explained: bool,
    pub format: Format,
}

/// Why the arguments ask for nothing that can be done.
#[derive(Debug, Drop, Error)]
pub enum UsageFault {
    /// They don't fit a command, or ask for its help or version: the text for the user.
    #[error("{0}")]
    Arguments(clap::Error),
    /// There is no command among them. `Arguments` comes before it.
    #[error("no command is given")]
    NoCommand,
    /// What `--root` gives isn't two names with one dot between.
    #[error("the root is not two names with a dot between")]
    BadRoot,
    /// A run by several workers is to be traced.
    #[error("only a run by one worker can be traced")]
    TracedWorkers,
    /// Several workers are to run by chance.
    #[error("only a run by one worker has a seed")]
    SeededWorkers,
    /// What was read of the words differs from what they say, which never comes.
    #[error("the words were read in two ways")]
    TwoReadings,
    #[error("out of memory")]
    OutOfMemory,
}

impl From<clap::Error> for UsageFault {
    ghost from_gives = { λ error fault. spec.TellsError error fault };

    fn from(error: clap::Error) -> UsageFault {
        if error.kind() == ErrorKind::OutOfMemory {
            UsageFault::OutOfMemory
        } else {
            UsageFault::Arguments(error)
        }
    }
}

impl From<AllocError> for UsageFault {
    ghost from_gives = { λ _ fault. fault ≡ spec.usage_out_of_memory };

    fn from(_error: AllocError) -> UsageFault {
        UsageFault::OutOfMemory
    }
}

pub const DEFAULT_TURNS: &str = "1000000";

/// The most turns that a run may make.
pub const MOST_TURNS: u32 = 10_000_000;

pub const DEFAULT_WORKERS: &str = "1";

/// The most threads that may play the handlers.
pub const MOST_WORKERS: u8 = 8;

const ABOUT: &str = "Checks and runs systems of SCOOP classes";

const LONG_ABOUT: &str = "\
Checks and runs systems of SCOOP classes.

SCOOP is Eiffel's model of concurrency: each object belongs to a handler, which
alone runs the object's features. A system is the classes of all its files.";

const STATUS_HELP: &str = "\
Exit status:
  0  done, and every handler is free
  1  the system is refused, or the record; or `format --check` names a file
  2  an argument, a file or the output is at fault
  3  a handler has failed, or does in an order that was found
  4  a handler is waiting or busy, or waits for good in an order that was found
  5  memory or a thread is refused, or what the threads did doesn't agree
  6  a search found nothing and proved nothing: it gave up";

const RUN_AFTER_HELP: &str = "\
Limits:
  those of `scoop check`, and 16777216 instructions of its code; 512 handlers; 65536
  objects of a handler, 1024 routines running at once and 4096 requests in its queue;
  1000000 lines of its record

Exit status:
  0  done, and every handler is free
  1  the system is refused
  2  an argument, a file or the output is at fault
  3  a handler has failed
  4  a handler is waiting or busy
  5  memory or a thread is refused, or what the threads did doesn't agree";

const REPLAY_AFTER_HELP: &str = "\
Limits:
  those of `scoop run`, and 64 handlers for a record of version 1; 1000000 lines of a
  record, and 10000000 turns

Exit status:
  0  done, and every handler is free
  1  the system is refused, or the record
  2  an argument, a file or the output is at fault
  3  a handler has failed
  4  a handler is waiting or busy
  5  memory ran out";

const PRINT_AFTER_HELP: &str = "\
Limits:
  1048576 bytes of all files together, 64 constructs around a token

Exit status:
  0  the text is printed
  1  it is no system
  2  an argument, a file or the output is at fault
  5  memory ran out";

const EXPLAIN_AFTER_HELP: &str = "\
Exit status:
  0  done
  2  there is no such code, or the output is at fault
  5  memory ran out";

const RUN_ABOUT: &str = "Runs a system, and reports what became of each handler";

const RUN_LONG_ABOUT: &str = "\
Runs a system, and reports what became of each handler.

The system is checked first, as by `scoop check`. The run begins with the root
procedure and goes on turn by turn, until no handler has anything to do, the turns
are used up, or more is printed than may be. By several workers handlers are played
at once: then the order of their turns is another one each time, and the record says
which it was. By `--seed` the handler of each turn is picked at random among those that
have something to do, and a seed gives the same run on every machine. With `--times` or
`--until` several such runs are played, by one seed after the other. The first that shows
what `--until` names is reported after a line with its seed. If none does, there is a
line `reports COUNT`, and each report once, after a line

  report NUMBER by seed N in COUNT runs

with the first seed that led to it; the exit status is then 0. The report has for each
handler

  handler NUMBER STATUS refused COUNT output BYTES

and then, on lines of its own, what the handler printed. The status is `free`,
`waiting`, `busy` or `failed` with the code of the failure, and COUNT is the
number of requests that were refused. The report ends with `stopped idle`, or
with `stopped limit` where a handler has something to do still.";

const REPLAY_ABOUT: &str = "Plays the turns of a record, and reports what became of each handler";

const REPLAY_LONG_ABOUT: &str = "\
Plays the turns of a record, and reports what became of each handler.

The system is checked first, as by `scoop check`. The record is a text of the lines

  scoop record 2
  HANDLER TURNS
  end LINES

with any number of lines in the middle: each names a handler and how many turns it
takes, one after the other. A turn of a handler that isn't there, or that has nothing to
do, changes nothing. The report is as of `scoop run`.";

const PRINT_ABOUT: &str = "Writes the text of a system in its one canonical layout";

const PRINT_LONG_ABOUT: &str = "\
Writes the text of a system in its one canonical layout.

The text is read, but not checked. Comments and notes are left out, which is
said on standard error, and there are no more parentheses than the grammar
needs. Printed again, the text stays as it is. No file is written.";

const EXPLAIN_ABOUT: &str = "Says what a code stands for, and why";

const EXPLAIN_LONG_ABOUT: &str = "\
Says what a code stands for, and why: the code of a refusal or of a failure.

Each page has a smallest text that is refused, or that fails, and the nearest
one that isn't. Without a code all codes are listed with their names.";

const RUN_EXPLAIN_HELP: &str =
    "Shows where a refusal stands, or says why handlers failed or wait, on standard error; the default where that is a terminal";

pub const TURNS_HELP: &str = "The most turns that are played, 1 to 10000000";

pub const WORKERS_HELP: &str = "How many threads play the handlers, 1 to 8";

const AUDIT_HELP: &str = "Plays the record by one thread, and says whether that ends in the same";

const KEPT_HELP: &str = "Writes the record of the run to this file, for `scoop replay`";

/// A command, with a short and a long text on it, one after its options, and its arguments.
struct Described {
    name: &'static str,
    about: &'static str,
    long_about: &'static str,
    after_help: &'static str,
    takes: &'static [Taken],
}

/// The commands of the program.
const COMMANDS: [Described; 9] = [
    CHECK,
    Described {
        name: "run",
        about: RUN_ABOUT,
        long_about: RUN_LONG_ABOUT,
        after_help: RUN_AFTER_HELP,
        takes: &RUN_TAKES,
    },
    Described {
        name: "replay",
        about: REPLAY_ABOUT,
        long_about: REPLAY_LONG_ABOUT,
        after_help: REPLAY_AFTER_HELP,
        takes: &[
            TRACE,
            STATS,
            TRACE_EVENTS,
            TIMELINE,
            Taken {
                help: RUN_EXPLAIN_HELP,
                ..EXPLAIN
            },
            NO_EXPLAIN,
            FORMAT,
            ROOT,
            RECORD,
            FILES,
        ],
    },
    SEARCH,
    TEST,
    Described {
        name: "print",
        about: PRINT_ABOUT,
        long_about: PRINT_LONG_ABOUT,
        after_help: PRINT_AFTER_HELP,
        takes: &[FILES],
    },
    FORMATTING,
    Described {
        name: "explain",
        about: EXPLAIN_ABOUT,
        long_about: EXPLAIN_LONG_ABOUT,
        after_help: EXPLAIN_AFTER_HELP,
        takes: &[CODE],
    },
    LANGUAGE_SERVER,
];

/// What `run` takes.
const RUN_TAKES: [Taken; 17] = [
    Taken {
        name: "--workers",
        help: WORKERS_HELP,
        value_name: Some("N"),
        parser: ValueParser::Signed(1, 8),
        default: Some(DEFAULT_WORKERS),
        ..OPTION
    },
    Taken {
        name: "--turns",
        help: TURNS_HELP,
        value_name: Some("N"),
        parser: ValueParser::Signed(1, 10_000_000),
        default: Some(DEFAULT_TURNS),
        ..OPTION
    },
    OUTPUT_LIMIT,
    SEED,
    TIMES,
    UNTIL,
    Taken {
        help: KEPT_HELP,
        ..KEPT
    },
    Taken {
        name: "--audit",
        help: AUDIT_HELP,
        beside: Beside::Excludes("seed"),
        ..FLAG
    },
    Taken {
        beside: Beside::Excludes("seed"),
        ..TRACE
    },
    Taken {
        beside: Beside::Excludes("seed"),
        ..STATS
    },
    Taken {
        beside: Beside::Excludes("seed"),
        ..TRACE_EVENTS
    },
    Taken {
        beside: Beside::Excludes("seed"),
        ..TIMELINE
    },
    Taken {
        help: RUN_EXPLAIN_HELP,
        ..EXPLAIN
    },
    NO_EXPLAIN,
    FORMAT,
    ROOT,
    FILES,
];

/// Reads the arguments of a command line, the program's name first. If none of them says whether the answer is to be
/// explained, `explains` does.
pub fn read_arguments<'a, S: AsStr>(
    alloc: Global,
    arguments: &'a [S],
    explains: bool,
) -> Result<Invocation<'a>, UsageFault>
    ensures { IfOk result (IsAskedFor (map S.text arguments.entry.now)) }
{
    read_by(alloc, &COMMANDS, arguments, explains)
}

/// Reads the arguments of a command line that names one of these commands.
fn read_by<'a, S: AsStr>(
    alloc: Global,
    commands: &[Described],
    arguments: &'a [S],
    explains: bool,
) -> Result<Invocation<'a>, UsageFault>
    ensures { IfOk result (IsAskedFor (map S.text arguments.entry.now)) }
{
    let matches = scoop_command(alloc, commands)?.try_get_matches_from(arguments)?;
    match (matches.subcommand(), arguments) {
        (Some((name, options)), [_, command, words @ ..]) => {
            if ask_for_help(arguments) || !are_read_alike(commands, name, options, words) {
                return Err(UsageFault::TwoReadings);
            }
            read_command(alloc, command.as_str(), words, options, explains)
        }
        _ => Err(UsageFault::NoCommand),
    }
}

/// Whether the options of the command of this name were read as the words after it say.
fn are_read_alike<S: AsStr>(
    commands: &[Described],
    name: &str,
    options: &ArgMatches<'_>,
    words: &[S],
) -> bool {
    for described in commands {
        if described.name == name {
            for taken in described.takes {
                if !is_read_alike(taken, options, words) {
                    return false;
                }
            }
            return true;
        }
    }
    false
}

/// Whether an option was read as the words say. No words are compared that say how an answer is explained or traced, nor what
/// is given to the command.
fn is_read_alike<S: AsStr>(taken: &Taken, options: &ArgMatches<'_>, words: &[S]) -> bool {
    let Some(name) = taken.name.strip_prefix("--") else {
        return true;
    };
    if taken.missing.is_some() || matches!(taken.beside, Beside::Undoes(_)) {
        return true;
    }
    if let ArgAction::SetTrue = taken.action {
        return options.get_flag(name) == has_option(words, taken.name);
    }
    let value = value_of(words, taken.name).or(taken.default);
    options.get_str(name) == value
}

/// What is asked for by the command of this name with these words after it.
fn read_command<'a, S: AsStr>(
    alloc: Global,
    name: &str,
    words: &'a [S],
    options: &ArgMatches<'_>,
    explains: bool,
) -> Result<Invocation<'a>, UsageFault>
    ensures { IfOk result (IsAskedOf name.now (map S.text words.entry.now)) }
{
    let given = given_in(alloc, words)?;
    let is_explained = read_explained(options, explains);
    match name {
        "check" => read_checking(alloc, words, given, is_explained),
        "print" => Ok(Invocation::OnFiles(Command::Print, given)),
        "format" => Ok(read_formatting(words, given)),
        "run" => read_running(alloc, words, given, options, is_explained),
        "replay" => read_replay(alloc, words, given, options, is_explained),
        "search" => read_search(alloc, words, given, read_trace(options), is_explained),
        "test" => read_tests(words, given, options),
        "explain" => Ok(Invocation::Explain(given.first().copied())),
        "lsp" => Ok(Invocation::LanguageServer),
        _ => Err(UsageFault::NoCommand),
    }
}

/// Whether an answer is to be explained.
fn read_explained(options: &ArgMatches<'_>, explains: bool) -> bool {
    options.get_flag("explain") || explains && !options.get_flag("no-explain")
}

/// What the words after `run` ask for.
pub fn read_run<'a, S: AsStr>(
    alloc: Global,
    words: &'a [S],
    options: &ArgMatches<'_>,
    is_explained: bool,
) -> Result<RunOptions<'a>, UsageFault>
    ensures { IfOk result (AreRunOptions (map S.text words.entry.now)) }
{
    let workers = small_number_up_to(MOST_WORKERS, value_or(words, "--workers", DEFAULT_WORKERS));
    let turns = number_up_to(MOST_TURNS, value_or(words, "--turns", DEFAULT_TURNS));
    let (Some(workers), Some(turns)) = (workers, turns) else {
        return Err(UsageFault::TwoReadings);
    };
    Ok(RunOptions {
        output_limit: limit_by(value_of(words, "--output-limit"))?,
        root: read_root(alloc, words)?,
        workers,
        turns,
        record: value_of(words, "--record"),
        is_audited: has_option(words, "--audit"),
        trace: read_trace_by(options, workers)?,
        has_stats: has_option(words, "--stats"),
        drawings: read_drawings(words),
        is_explained,
        format: read_format(words),
    })
}

/// What is asked for if the first that is given is a record, and the rest are files.
#[tactic(auto, using(crate::proofs::AskedLemmas::first_apart))]
fn read_replay<'a, S: AsStr>(
    alloc: Global,
    words: &'a [S],
    given: Vec<&'a str>,
    options: &ArgMatches<'_>,
    is_explained: bool,
) -> Result<Invocation<'a>, UsageFault>
    ensures { let behind = map S.text words.entry.now in
        texts_of given.entry.items ≡ given_in false behind → IfOk result (IsAskedOf (codes "replay") behind) }
{
    let mut names = given;
    if names.is_empty() {
        return Err(UsageFault::NoCommand);
    }
    let record = names.remove(0);
    let replay = ReplayOptions {
        root: read_root(alloc, words)?,
        record,
        trace: read_trace(options),
        has_stats: has_option(words, "--stats"),
        drawings: read_drawings(words),
        is_explained,
        format: read_format(words),
    };
    Ok(Invocation::Replay(replay, names))
}

fn scoop_command<'a>(
    alloc: Global,
    commands: &'a [Described],
) -> Result<clap::Command<'a>, AllocError> {
    let mut program = clap::Command::new(alloc, "scoop")
        .about(ABOUT)
        .long_about(LONG_ABOUT)
        .after_help(STATUS_HELP)
        .version("0.1.0")
        .subcommand_required(true)
        .arg_required_else_help(true);
    for described in commands {
        program = program.subcommand(command_of(alloc, described)?)?;
    }
    program.bin_name("scoop")
}

fn command_of<'a>(
    alloc: Global,
    described: &'a Described,
) -> Result<clap::Command<'a>, AllocError> {
    let mut command = clap::Command::new(alloc, described.name)
        .about(described.about)
        .long_about(described.long_about)
        .after_help(described.after_help);
    for taken in described.takes {
        command = command.arg(argument(alloc, taken)?)?;
    }
    Ok(command)
}
