//! The command `format`: what is done with the text in its layout.

ghost use Rattle.std.specs.Prelude.{◌≡◌, codes, false, map};
ghost use Rattle.sc_arguments.specs.Asked.{IsAskedOf, texts_of};
ghost use Rattle.sc_arguments.specs.Words.{given_in};

use crate::arguments::options::{FILES, FLAG, Taken};
use crate::arguments::words::has_option;
use crate::arguments::{Command, Described, Invocation};
use std::convert::AsStr;

const FORMAT_ABOUT: &str = "Writes a text in its layout, with its comments";

const FORMAT_LONG_ABOUT: &str = "\
Writes a text in its layout, with its comments.

The layout is that of `scoop print`: one instruction, clause or declaration on a
line, at its depth. Tokens, comments and notes stay, and so do single empty lines
before features and instructions. A comment on a line of its own is put at the
depth of what follows. Formatted again, the text stays as it is. The text is
read, but not checked.";

const FORMAT_AFTER_HELP: &str = "\
Limits:
  1048576 bytes of all files together, 64 constructs around a token

Exit status:
  0  done, or with `--check` no file would change
  1  it is no system, or with `--check` a file would change
  2  an argument, a file or the output is at fault
  5  memory ran out";

const WRITE_HELP: &str =
    "Writes each file in place, whole or not at all, and nothing to standard output";

const CHECK_HELP: &str = "Names the files that would change, and writes none";

/// The command `format`.
pub const FORMATTING: Described = Described {
    name: "format",
    about: FORMAT_ABOUT,
    long_about: FORMAT_LONG_ABOUT,
    after_help: FORMAT_AFTER_HELP,
    takes: &[
        Taken {
            name: "--write",
            help: WRITE_HELP,
            ..FLAG
        },
        Taken {
            name: "--check",
            help: CHECK_HELP,
            ..FLAG
        },
        FILES,
    ],
};

/// What the words after `format` ask for, if these files are given among them.
pub fn read_formatting<'a, S: AsStr>(words: &[S], given: Vec<&'a str>) -> Invocation<'a>
    ensures { let behind = map S.text words.now in
        texts_of given.entry.items ≡ given_in false behind → IsAskedOf (codes "format") behind result }
{
    let is_written = has_option(words, "--write");
    if is_written || has_option(words, "--check") {
        Invocation::Layout(is_written, given)
    } else {
        Invocation::OnFiles(Command::Format, given)
    }
}
