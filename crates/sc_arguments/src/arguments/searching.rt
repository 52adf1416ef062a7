//! The command `search`: what is looked for in the orders of turns, and how far.

ghost use Rattle.std.specs.Prelude.{◌≡◌, IfOk, codes, false, map};
ghost use Rattle.sc_arguments.specs.Asked as spec;
ghost use Rattle.sc_arguments.specs.Asked.{IsAskedOf, texts_of};
ghost use Rattle.sc_arguments.specs.Words.{given_in, value_or};

use crate::arguments::drawing::{Drawings, TIMELINE, TRACE_EVENTS, read_drawings};
use crate::arguments::format::{Format, read_format};
use crate::arguments::numbers::number_up_to;
use crate::arguments::options::{
    EXPLAIN, FILES, FLAG, FORMAT, KEPT, NO_EXPLAIN, OPTION, ROOT, TRACE, Taken,
};
use crate::arguments::root_option::read_root;
use crate::arguments::tracing::Trace;
use crate::arguments::words::{has_option, value_of, value_or};
use crate::arguments::{Described, Invocation, UsageFault};
use clap::builder::ValueParser;
use sc_class::Root;
use std::alloc::Global;
use std::convert::AsStr;

#[derive(Drop)]
pub struct SearchOptions<'a> {
    pub root: Root,
    /// What ends the search.
    pub sought: Sought,
    /// The most states that are kept, from 1 to 10,000,000.
    pub states: u32,
    /// How much memory states may take, in MB, from 1 to 1,000,000.
    pub memory: u32,
    /// The name of the file that the record of a found order is written to.
    pub record: Option<&'a str>,
    /// Whether each outcome is to be listed.
    pub lists_outcomes: bool,
    /// Which turns of a found order are reported.
    pub trace: Option<Trace>,
    /// The files that the order that is found is drawn to.
    pub drawings: Drawings<'a>,
    /// Whether a refusal is to be shown in its line of the text too, and why handlers wait or fail.
    pub is_explained: bool,
    pub format: Format,
}

/// What is looked for among the orders of turns.
#[derive(Clone, Copy)]
pub enum Sought {
    /// One that leaves a handler waiting for good.
    Stuck,
    /// One in which a handler fails.
    Fails,
    /// One in which a handler refuses a request for which no handler waits.
    Refused,
    /// One of any kind.
    Any,
}

const DEFAULT_SOUGHT: &str = "any";

pub const DEFAULT_STATES: &str = "100000";

/// The most states that a search may keep.
pub const MOST_STATES: u32 = 10_000_000;

/// In MB.
pub const DEFAULT_MEMORY: &str = "1000";

/// How much memory the states of a search may take, in MB.
pub const MOST_MEMORY: u32 = 1_000_000;

const SOUGHT: [&str; 4] = ["stuck", "fails", "refused", "any"];

const SEARCH_ABOUT: &str =
    "Looks for an order of turns in which handlers are stuck, or one fails or refuses a request";

const SEARCH_LONG_ABOUT: &str = "\
Looks for an order of turns in which handlers are stuck, or one fails or refuses a
request.

The system is checked first, as by `scoop check`. Then it is played in every order
of turns, first in those that differ where handlers touch each other. The answer is
one of the lines

  none stuck, none fails, none refused (proved)
                         no order of turns makes a handler fail or refuse a request,
                         or leads to where one waits for good: every order was played
  none found             no order was found that does, and some were left out that
                         should come to the same
  stuck after N turns    an order leaves handlers waiting for good
  fails after N turns    a handler fails in an order
  refused after N turns  a handler refuses a request in an order
  undecided              the states, turns or memory were used up before all was played

and below it how many outcomes and states there are. A handler is stuck, and waits
for good, if no order gives it a turn any more, whatever others do. Beside others that
go on it is found only once every order is played. A request counts as refused if no
handler waits for it: else the one that waits fails. By `--for stuck` or `--for refused`
an order may be left out in which a handler fails, and with it how that ends, unless
the answer is `proved`. An order that is found is a record for `scoop replay`, which
plays to the same.";

const SEARCH_AFTER_HELP: &str = "\
Limits:
  those of `scoop run`

Exit status:
  0  it is proved that no handler is stuck, fails or refuses a request in any order
  1  the system is refused
  2  an argument, a file or the output is at fault
  3  an order makes a handler fail, or refuse a request
  4  an order leaves a handler waiting for good
  5  memory ran out before there was an answer
  6  none found, or undecided: states, turns or memory were used up";

pub const STATES_HELP: &str = "The most states that are kept, 1 to 10000000";

pub const MEMORY_HELP: &str = "The most memory that states take, in MB, 1 to 1000000";

const FOUND_HELP: &str = "Writes the record of the order that is found to this file";

const FOUND_TRACE_HELP: &str =
    "Tells each turn of the found order that concerns others, or only what is printed, on standard error";

const OUTCOMES_HELP: &str = "Lists each outcome: the report of an order that ends so";

const SEARCH_EXPLAIN_HELP: &str =
    "Shows where a refusal stands, or says who waits for whom, why one fails or why the search gave up, on standard error; the default where that is a terminal";

/// What `search` takes.
const SEARCH_TAKES: [Taken; 13] = [
    Taken {
        name: "--for",
        help: "What ends the search",
        value_name: Some("WHAT"),
        parser: ValueParser::Names(&SOUGHT),
        default: Some(DEFAULT_SOUGHT),
        ..OPTION
    },
    Taken {
        name: "--states",
        help: STATES_HELP,
        value_name: Some("N"),
        parser: ValueParser::Signed(1, 10_000_000),
        default: Some(DEFAULT_STATES),
        ..OPTION
    },
    Taken {
        name: "--memory",
        help: MEMORY_HELP,
        value_name: Some("MB"),
        parser: ValueParser::Signed(1, 1_000_000),
        default: Some(DEFAULT_MEMORY),
        ..OPTION
    },
    Taken {
        help: FOUND_HELP,
        ..KEPT
    },
    Taken {
        name: "--outcomes",
        help: OUTCOMES_HELP,
        ..FLAG
    },
    Taken {
        help: FOUND_TRACE_HELP,
        ..TRACE
    },
    TRACE_EVENTS,
    TIMELINE,
    Taken {
        help: SEARCH_EXPLAIN_HELP,
        ..EXPLAIN
    },
    NO_EXPLAIN,
    FORMAT,
    ROOT,
    FILES,
];

/// The command `search`.
pub const SEARCH: Described = Described {
    name: "search",
    about: SEARCH_ABOUT,
    long_about: SEARCH_LONG_ABOUT,
    after_help: SEARCH_AFTER_HELP,
    takes: &SEARCH_TAKES,
};

/// What the words after `search` ask for, if these files are given among them, and these turns are to be reported.
pub fn read_search<'a, S: AsStr>(
    alloc: Global,
    words: &'a [S],
    given: Vec<&'a str>,
    trace: Option<Trace>,
    is_explained: bool,
) -> Result<Invocation<'a>, UsageFault>
    ensures { let behind = map S.text words.entry.now in
        texts_of given.entry.items ≡ given_in false behind → IfOk result (IsAskedOf (codes "search") behind) }
{
    let states = number_up_to(MOST_STATES, value_or(words, "--states", DEFAULT_STATES));
    let memory = number_up_to(MOST_MEMORY, value_or(words, "--memory", DEFAULT_MEMORY));
    let (Some(states), Some(memory)) = (states, memory) else {
        return Err(UsageFault::TwoReadings);
    };
    let search = SearchOptions {
        root: read_root(alloc, words)?,
        sought: read_sought(words),
        states,
        memory,
        record: value_of(words, "--record"),
        lists_outcomes: has_option(words, "--outcomes"),
        trace,
        drawings: read_drawings(words),
        is_explained,
        format: read_format(words),
    };
    Ok(Invocation::Search(search, given))
}

/// What the words after `search` look for.
fn read_sought<S: AsStr>(words: &[S]) -> Sought
    ensures { result ≡ spec.sought_named (value_or (codes "--for") (codes "any") (map S.text words.now)) }
{
    match value_or(words, "--for", DEFAULT_SOUGHT) {
        "stuck" => Sought::Stuck,
        "fails" => Sought::Fails,
        "refused" => Sought::Refused,
        _ => Sought::Any,
    }
}
