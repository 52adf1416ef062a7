//! The options of `run` by which chance says which handler is next.

ghost use Rattle.std.specs.Prelude.{◌≡◌, IfOk, Some, codes, false, map};
ghost use Rattle.sc_arguments.specs.Asked as spec;
ghost use Rattle.sc_arguments.specs.Asked.{AreChanceOptions, IsAskedOf, IsLimitBy, texts_of};
ghost use Rattle.sc_arguments.specs.Words.{given_in, has_option, value_of};

use crate::arguments::format::{Format, read_format};
use crate::arguments::numbers::{limit_by, number_up_to, small_number_up_to};
use crate::arguments::options::{Beside, OPTION, Taken};
use crate::arguments::root_option::read_root;
use crate::arguments::words::{has_option, value_of, value_or};
use crate::arguments::{
    DEFAULT_TURNS, DEFAULT_WORKERS, Invocation, MOST_TURNS, MOST_WORKERS, UsageFault, read_run,
};
use clap::ArgMatches;
use clap::builder::ValueParser;
use sc_class::Root;
use std::alloc::Global;
use std::convert::AsStr;

#[derive(Drop)]
pub struct ChanceOptions<'a> {
    pub root: Root,
    /// The seed of the first run, from 0 to 1,000,000,000,000.
    pub seed: u64,
    /// How many runs are played at most, each by the next seed, from 1 to 1,000,000,000.
    pub times: u32,
    /// What ends them.
    pub until: Until,
    /// The most turns of each run, from 1 to 10,000,000.
    pub turns: u32,
    /// The name of the file that the record of the run that is found is written to.
    pub record: Option<&'a str>,
    /// Whether a refusal is also shown in its line of the text, and the handlers' states are explained.
    pub is_explained: bool,
    pub format: Format,
}

/// What ends runs by chance.
#[derive(Clone, Copy)]
pub enum Until {
    /// One in which a handler fails.
    Fails,
    /// One that leaves handlers waiting, and none with anything to do.
    Stuck,
    /// One in which a handler refuses a request for which no handler waits.
    Refused,
    /// One that has another report than the first.
    Differs,
    /// The first one.
    First,
    /// Nothing: all are played.
    Never,
}

const ENDS: [&str; 4] = ["fails", "stuck", "refused", "differs"];

const DEFAULT_TIMES: &str = "1";

/// The most runs that are played.
const MOST_TIMES: u32 = 1_000_000_000;

const SEED_HELP: &str =
    "Picks the handler of each turn at random, by this seed, 0 to 1000000000000";

const TIMES_HELP: &str =
    "Plays at most this many runs, by one seed after the other, and lists their reports, 1 to 1000000000";

const UNTIL_HELP: &str =
    "Ends with the first run that shows this, and reports it; `differs`: another report than the first";

/// The option `--seed`.
pub const SEED: Taken = Taken {
    name: "--seed",
    help: SEED_HELP,
    value_name: Some("N"),
    parser: ValueParser::Unsigned(0, 1_000_000_000_000),
    ..OPTION
};

/// The option `--times`.
pub const TIMES: Taken = Taken {
    name: "--times",
    help: TIMES_HELP,
    value_name: Some("K"),
    parser: ValueParser::Signed(1, 1_000_000_000),
    beside: Beside::Needs("seed"),
    ..OPTION
};

/// The option `--until`.
pub const UNTIL: Taken = Taken {
    name: "--until",
    help: UNTIL_HELP,
    value_name: Some("WHAT"),
    parser: ValueParser::Names(&ENDS),
    beside: Beside::Needs("seed"),
    ..OPTION
};

/// What the words after `run` ask for, if these files are given among them: runs by chance if they have a seed, or else one run.
#[tactic(auto, using(crate::proofs::SeedLemmas::unused))]
pub fn read_running<'a, S: AsStr>(
    alloc: Global,
    words: &'a [S],
    given: Vec<&'a str>,
    options: &ArgMatches<'_>,
    is_explained: bool,
) -> Result<Invocation<'a>, UsageFault>
    ensures { let behind = map S.text words.entry.now in
        texts_of given.entry.items ≡ given_in false behind → IfOk result (IsAskedOf (codes "run") behind) }
{
    match limit_by(value_of(words, "--seed"))? {
        Some(seed) => {
            let chance = read_chance(alloc, words, seed, is_explained)?;
            Ok(Invocation::Chance(chance, given))
        }
        None => {
            let run = read_run(alloc, words, options, is_explained)?;
            Ok(Invocation::Run(run, given))
        }
    }
}

/// What the words after `run` ask for, if they have this seed.
fn read_chance<'a, S: AsStr>(
    alloc: Global,
    words: &'a [S],
    seed: u64,
    is_explained: bool,
) -> Result<ChanceOptions<'a>, UsageFault>
    requires { IsLimitBy (value_of (codes "--seed") (map S.text words.now)) (Some seed) }
    ensures { IfOk result (AreChanceOptions (map S.text words.entry.now)) }
{
    let workers = small_number_up_to(MOST_WORKERS, value_or(words, "--workers", DEFAULT_WORKERS));
    let times = number_up_to(MOST_TIMES, value_or(words, "--times", DEFAULT_TIMES));
    let turns = number_up_to(MOST_TURNS, value_or(words, "--turns", DEFAULT_TURNS));
    let (Some(workers), Some(times), Some(turns)) = (workers, times, turns) else {
        return Err(UsageFault::TwoReadings);
    };
    if workers > 1 {
        return Err(UsageFault::SeededWorkers);
    }
    Ok(ChanceOptions {
        root: read_root(alloc, words)?,
        seed,
        times,
        until: read_until(words),
        turns,
        record: value_of(words, "--record"),
        is_explained,
        format: read_format(words),
    })
}

/// What ends the runs. Without `--until` it is the first one, unless it is said how many there are.
fn read_until<S: AsStr>(words: &[S]) -> Until
    ensures { result ≡ spec.until_by (value_of (codes "--until") (map S.text words.now)) (has_option (codes "--times") (map S.text words.now)) }
{
    match value_of(words, "--until") {
        Some("fails") => Until::Fails,
        Some("stuck") => Until::Stuck,
        Some("refused") => Until::Refused,
        Some(_) => Until::Differs,
        None if has_option(words, "--times") => Until::Never,
        None => Until::First,
    }
}
