//! The value of `--format`: how an answer is written.

ghost use Rattle.std.specs.Prelude.{◌≡◌, map};
ghost use Rattle.sc_arguments.specs.Asked as spec;

use crate::arguments::words::value_or;
use std::convert::AsStr;

/// How an answer is written.
#[derive(Clone, Copy)]
pub enum Format {
    /// As lines for people.
    Text,
    /// As one object of JSON, on a line.
    Json,
}

pub const FORMATS: [&str; 2] = ["text", "json"];

pub const FORMAT_HELP: &str = "How the answer is written: as lines, or as one object of JSON";

pub const DEFAULT_FORMAT: &str = "text";

/// The format that the words after a command ask for.
pub fn read_format<S: AsStr>(words: &[S]) -> Format
    ensures { result ≡ spec.format_in (map S.text words.now) }
{
    if value_or(words, "--format", DEFAULT_FORMAT) == "json" {
        Format::Json
    } else {
        Format::Text
    }
}
