//! The command `check`: whether the first fault is asked for, or those of all parts.

ghost use Rattle.std.specs.Prelude.{◌≡◌, IfOk, codes, false, map};
ghost use Rattle.sc_arguments.specs.Asked.{IsAskedOf, texts_of};
ghost use Rattle.sc_arguments.specs.Words.{given_in};

use crate::arguments::format::read_format;
use crate::arguments::options::{EXPLAIN, FILES, FLAG, FORMAT, NO_EXPLAIN, ROOT, Taken};
use crate::arguments::root_option::read_root;
use crate::arguments::words::has_option;
use crate::arguments::{CheckOptions, Command, Described, Invocation, UsageFault};
use std::alloc::Global;
use std::convert::AsStr;

const CHECK_ABOUT: &str = "Says whether a system is well formed";

const CHECK_LONG_ABOUT: &str = "\
Says whether a system is well formed.

Writes `ok`, or one line with the first rule that is broken and where:
`refused CODE Name FILE:LINE:COLUMN`. With `--all` the check goes on: there is
such a line for each fault of the classes or, if they have none, for each place at
which a rule is broken. If the text isn't grammatical, there is one line still. On
standard error `--all` warns of what is allowed and is hardly meant:
`warning: MESSAGE FILE:LINE:COLUMN`.";

const CHECK_AFTER_HELP: &str = "\
Limits:
  1048576 bytes of all files together, 64 constructs around a token, 256 classes,
  256 features of a class, 16 formals and 256 locals of a routine

Exit status:
  0  the system is well formed
  1  it is refused: `scoop explain CODE` says why
  2  an argument, a file or the output is at fault
  5  memory ran out";

const ALL_HELP: &str = "Lists each place at which a rule is broken, and warns";

const CHECK_EXPLAIN_HELP: &str =
    "Shows where a refusal stands, on standard error; the default where that is a terminal";

const CHECK_FORMAT_HELP: &str =
    "How the answer is written: as lines, or as one object of JSON; with `--all` as one array";

/// The command `check`.
pub const CHECK: Described = Described {
    name: "check",
    about: CHECK_ABOUT,
    long_about: CHECK_LONG_ABOUT,
    after_help: CHECK_AFTER_HELP,
    takes: &[
        Taken {
            name: "--all",
            help: ALL_HELP,
            ..FLAG
        },
        Taken {
            help: CHECK_EXPLAIN_HELP,
            ..EXPLAIN
        },
        NO_EXPLAIN,
        Taken {
            help: CHECK_FORMAT_HELP,
            ..FORMAT
        },
        ROOT,
        FILES,
    ],
};

/// What the words after `check` ask for, if these files are given among them.
pub fn read_checking<'a, S: AsStr>(
    alloc: Global,
    words: &[S],
    given: Vec<&'a str>,
    is_explained: bool,
) -> Result<Invocation<'a>, UsageFault>
    ensures { let behind = map S.text words.now in
        texts_of given.entry.items ≡ given_in false behind → IfOk result (IsAskedOf (codes "check") behind) }
{
    let options = CheckOptions {
        root: read_root(alloc, words)?,
        is_explained,
        format: read_format(words),
    };
    if has_option(words, "--all") {
        Ok(Invocation::CheckAll(options, given))
    } else {
        Ok(Invocation::OnFiles(Command::Check(options), given))
    }
}
