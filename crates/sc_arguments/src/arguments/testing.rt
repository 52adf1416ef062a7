//! The command `test`: which tests are played, and how.

ghost use Rattle.std.specs.Prelude.{◌≡◌, IfOk, codes, false, map};
ghost use Rattle.sc_arguments.specs.Asked as spec;
ghost use Rattle.sc_arguments.specs.Asked.{IsAskedOf, texts_of};
ghost use Rattle.sc_arguments.specs.Words.{given_in, value_or};

use crate::arguments::format::DEFAULT_FORMAT;
use crate::arguments::numbers::{number_up_to, small_number_up_to};
use crate::arguments::options::{EXPLAIN, FILES, FLAG, FORMAT, KEPT, NO_EXPLAIN, OPTION, Taken};
use crate::arguments::searching::{
    DEFAULT_MEMORY, DEFAULT_STATES, MEMORY_HELP, MOST_MEMORY, MOST_STATES, STATES_HELP,
};
use crate::arguments::words::{has_option, value_of, value_or};
use crate::arguments::{
    DEFAULT_TURNS, DEFAULT_WORKERS, Described, Invocation, MOST_TURNS, MOST_WORKERS, TURNS_HELP,
    UsageFault, WORKERS_HELP, read_explained,
};
use clap::ArgMatches;
use clap::builder::ValueParser;
use std::convert::AsStr;

#[derive(Drop)]
pub struct TestOptions<'a> {
    /// The name of the class whose tests are played, in any letter case; None if those of all classes are.
    pub class: Option<&'a str>,
    /// How many threads play the handlers of a test, from 1 to 8.
    pub workers: u8,
    /// The most turns of a test, from 1 to 10,000,000.
    pub turns: u32,
    /// Whether each test is played in every order of turns.
    pub is_searched: bool,
    /// The most states that are kept of a test, from 1 to 10,000,000.
    pub states: u32,
    /// How much memory the states of a test may take, in MB, from 1 to 1,000,000.
    pub memory: u32,
    /// The name of the folder that the records of tests that fail are written to.
    pub folder: Option<&'a str>,
    /// Whether a refusal is also shown in its line of the text, and it is said why a test fails.
    pub is_explained: bool,
    pub format: TestFormat,
}

/// How the results of tests are written.
#[derive(Clone, Copy)]
pub enum TestFormat {
    /// As lines for people.
    Text,
    /// As one object of JSON, on a line.
    Json,
    /// As lines of the Test Anything Protocol.
    Tap,
    /// As the XML that JUnit reports have.
    Junit,
}

const TEST_FORMATS: [&str; 4] = ["text", "json", "tap", "junit"];

const TEST_FORMAT_HELP: &str =
    "How the results are written: as lines, as one object of JSON, as TAP, or as XML of JUnit";

const TEST_ABOUT: &str = "Runs the tests of a system, or plays them in every order of turns";

const TEST_LONG_ABOUT: &str = "\
Runs the tests of a system, or plays them in every order of turns.

A test is a creation procedure without formals whose name begins with `test`. Each
is run from its opening on, one after the other, in the order in which classes and
their `create` clauses list them. It passes if every handler is free in the end, and
none has refused a request. There is a line for each,

  passes CLASS.TEST
  fails CLASS.TEST after N turns

and one with their numbers: `2 passed, 1 failed`. With `--search` every order of the
turns of each test is played, as by `scoop search`:

  passes CLASS.TEST in every order (proved)
  fails CLASS.TEST after N turns     an order was found in which it fails
  fails CLASS.TEST in an order that goes on for ever
  undecided CLASS.TEST               not every order was played";

const TEST_AFTER_HELP: &str = "\
Limits:
  those of `scoop run`

Exit status:
  0  every test passes, or there is none
  1  the system is refused
  2  an argument, a file or the output is at fault
  3  a test fails
  5  memory or a thread is refused
  6  no test fails, and a search is undecided";

const CLASS_HELP: &str = "The class whose tests are run, in place of all classes";

const SEARCH_HELP: &str = "Plays each test in every order of turns";

const FOLDER_HELP: &str =
    "Writes a record of each test that fails to FOLDER/CLASS.TEST.record, for `scoop replay`";

const TEST_EXPLAIN_HELP: &str =
    "Shows where a refusal stands, or says why a test fails; the default";

/// What `test` takes.
const TEST_TAKES: [Taken; 11] = [
    Taken {
        name: "--root-class",
        help: CLASS_HELP,
        value_name: Some("CLASS"),
        ..OPTION
    },
    Taken {
        name: "--workers",
        help: WORKERS_HELP,
        value_name: Some("N"),
        parser: ValueParser::Signed(1, 8),
        default: Some(DEFAULT_WORKERS),
        ..OPTION
    },
    Taken {
        name: "--turns",
        help: TURNS_HELP,
        value_name: Some("N"),
        parser: ValueParser::Signed(1, 10_000_000),
        default: Some(DEFAULT_TURNS),
        ..OPTION
    },
    Taken {
        name: "--search",
        help: SEARCH_HELP,
        ..FLAG
    },
    Taken {
        name: "--states",
        help: STATES_HELP,
        value_name: Some("N"),
        parser: ValueParser::Signed(1, 10_000_000),
        default: Some(DEFAULT_STATES),
        ..OPTION
    },
    Taken {
        name: "--memory",
        help: MEMORY_HELP,
        value_name: Some("MB"),
        parser: ValueParser::Signed(1, 1_000_000),
        default: Some(DEFAULT_MEMORY),
        ..OPTION
    },
    Taken {
        help: FOLDER_HELP,
        value_name: Some("FOLDER"),
        ..KEPT
    },
    Taken {
        help: TEST_EXPLAIN_HELP,
        ..EXPLAIN
    },
    NO_EXPLAIN,
    Taken {
        help: TEST_FORMAT_HELP,
        parser: ValueParser::Names(&TEST_FORMATS),
        ..FORMAT
    },
    FILES,
];

/// The command `test`.
pub const TEST: Described = Described {
    name: "test",
    about: TEST_ABOUT,
    long_about: TEST_LONG_ABOUT,
    after_help: TEST_AFTER_HELP,
    takes: &TEST_TAKES,
};

/// What the words after `test` ask for, if these files are given among them. Why a test fails is said unless an argument says
/// otherwise.
pub fn read_tests<'a, S: AsStr>(
    words: &'a [S],
    given: Vec<&'a str>,
    options: &ArgMatches<'_>,
) -> Result<Invocation<'a>, UsageFault>
    ensures { let behind = map S.text words.entry.now in
        texts_of given.entry.items ≡ given_in false behind → IfOk result (IsAskedOf (codes "test") behind) }
{
    let workers = small_number_up_to(MOST_WORKERS, value_or(words, "--workers", DEFAULT_WORKERS));
    let turns = number_up_to(MOST_TURNS, value_or(words, "--turns", DEFAULT_TURNS));
    let states = number_up_to(MOST_STATES, value_or(words, "--states", DEFAULT_STATES));
    let memory = number_up_to(MOST_MEMORY, value_or(words, "--memory", DEFAULT_MEMORY));
    let (Some(workers), Some(turns), Some(states), Some(memory)) = (workers, turns, states, memory)
    else {
        return Err(UsageFault::TwoReadings);
    };
    let tests = TestOptions {
        class: value_of(words, "--root-class"),
        workers,
        turns,
        is_searched: has_option(words, "--search"),
        states,
        memory,
        folder: value_of(words, "--record"),
        is_explained: read_explained(options, true),
        format: read_test_format(words),
    };
    Ok(Invocation::Test(tests, given))
}

/// The format that the words after `test` ask for.
fn read_test_format<S: AsStr>(words: &[S]) -> TestFormat
    ensures { result ≡ spec.test_format_named (value_or (codes "--format") (codes "text") (map S.text words.now)) }
{
    match value_or(words, "--format", DEFAULT_FORMAT) {
        "json" => TestFormat::Json,
        "tap" => TestFormat::Tap,
        "junit" => TestFormat::Junit,
        _ => TestFormat::Text,
    }
}
