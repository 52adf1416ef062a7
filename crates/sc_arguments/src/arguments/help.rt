//! Arguments that ask for help, or for the version.

ghost use Rattle.std.specs.Prelude.{◌≡◌, map};
ghost use Rattle.sc_arguments.specs.Asked as spec;

use crate::arguments::words::has_option;
use std::convert::AsStr;

/// Whether the arguments of a command line ask for help, or for the version: in place of a command, or by an option after it.
pub fn ask_for_help<S: AsStr>(arguments: &[S]) -> bool
    ensures { result ≡ spec.asks_for_help (map S.text arguments.now) }
{
    match arguments {
        [_, name, words @ ..] => {
            is_help(name.as_str()) || has_option(words, "--help") || has_option(words, "-h")
        }
        _ => false,
    }
}

/// Whether the word that may name a command asks for help, or for the version.
fn is_help(word: &str) -> bool
    ensures { result ≡ spec.is_help word.now }
{
    match word.as_bytes() {
        [b'-', b'h' | b'V', ..] => true,
        _ => word == "help" || word == "--help" || word == "--version",
    }
}
