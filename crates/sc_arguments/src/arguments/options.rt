//! What commands take: options, and what is given to them.

use crate::arguments::format::{DEFAULT_FORMAT, FORMAT_HELP, FORMATS};
use crate::arguments::root_option::DEFAULT_ROOT;
use crate::arguments::tracing::{TRACE_HELP, TRACED};
use clap::builder::ValueParser;
use clap::{Arg, ArgAction};
use std::alloc::{AllocError, Global};

/// What a command takes, with the text on it in the command's help.
#[derive(Clone, Copy)]
pub struct Taken {
    /// The name of an option, which begins with `--`, or of what is given to the command.
    pub name: &'static str,
    pub help: &'static str,
    pub is_required: bool,
    pub action: ArgAction,
    /// The least and the most values of one use.
    pub values: (usize, usize),
    /// What help calls each value.
    pub value_name: Option<&'static str>,
    /// What each value has to be.
    pub parser: ValueParser<'static>,
    /// The value if it isn't used.
    pub default: Option<&'static str>,
    /// The value of a use without one. If there is such a value, any other follows `=`.
    pub missing: Option<&'static str>,
    pub beside: Beside,
}

/// How an option goes with another one of its command, which is named without `--`.
#[derive(Clone, Copy)]
pub enum Beside {
    /// With each of them.
    Any,
    /// A use of it undoes that one.
    Undoes(&'static str),
    /// It can't be used beside that one.
    Excludes(&'static str),
    /// It can't be used without that one.
    Needs(&'static str),
}

/// An option that takes no value.
pub const FLAG: Taken = Taken {
    name: "",
    help: "",
    is_required: false,
    action: ArgAction::SetTrue,
    values: (0, 0),
    value_name: None,
    parser: ValueParser::Bool,
    default: None,
    missing: None,
    beside: Beside::Any,
};

/// An option that takes any text.
pub const OPTION: Taken = Taken {
    action: ArgAction::Set,
    values: (1, 1),
    parser: ValueParser::String,
    ..FLAG
};

/// What is given to a command.
const GIVEN: Taken = OPTION;

/// The option `--explain`, but for its text. Of it and of `--no-explain` the last is meant.
pub const EXPLAIN: Taken = Taken {
    name: "--explain",
    beside: Beside::Undoes("no-explain"),
    ..FLAG
};

/// The option `--no-explain`.
pub const NO_EXPLAIN: Taken = Taken {
    name: "--no-explain",
    help: "Leaves that out",
    beside: Beside::Undoes("explain"),
    ..FLAG
};

/// The option `--record`, but for its text. Its value is a file to write to.
pub const KEPT: Taken = Taken {
    name: "--record",
    value_name: Some("PATH"),
    ..OPTION
};

/// The option `--output-limit`.
pub const OUTPUT_LIMIT: Taken = Taken {
    name: "--output-limit",
    help: "Ends the run once all that is printed has more bytes than this, 0 to 1000000000000",
    value_name: Some("BYTES"),
    parser: ValueParser::Unsigned(0, 1_000_000_000_000),
    beside: Beside::Excludes("seed"),
    ..OPTION
};

/// The option `--trace`; its value, if it has one, follows `=`.
pub const TRACE: Taken = Taken {
    name: "--trace",
    help: TRACE_HELP,
    values: (0, 1),
    value_name: Some("WHAT"),
    parser: ValueParser::Names(&TRACED),
    missing: Some("all"),
    ..OPTION
};

/// The option `--stats`.
pub const STATS: Taken = Taken {
    name: "--stats",
    help: "Says in numbers what each handler did: turns, requests, waits and objects",
    ..FLAG
};

/// The option `--root`.
pub const ROOT: Taken = Taken {
    name: "--root",
    help: "The root class and its creation procedure",
    value_name: Some("CLASS.PROCEDURE"),
    default: Some(DEFAULT_ROOT),
    ..OPTION
};

/// The option `--format`.
pub const FORMAT: Taken = Taken {
    name: "--format",
    help: FORMAT_HELP,
    value_name: Some("FORMAT"),
    parser: ValueParser::Names(&FORMATS),
    default: Some(DEFAULT_FORMAT),
    ..OPTION
};

/// A record.
pub const RECORD: Taken = Taken {
    name: "RECORD",
    help: "The file of the record; `-` is standard input",
    is_required: true,
    ..GIVEN
};

/// Files.
pub const FILES: Taken = Taken {
    name: "FILE",
    help: "The files of the system's classes, in order; `-` is standard input",
    is_required: true,
    action: ArgAction::Append,
    values: (1, usize::MAX),
    ..GIVEN
};

/// A code.
pub const CODE: Taken = Taken {
    name: "CODE",
    help: "The code, as V6, or its name, in any letter case",
    ..GIVEN
};

/// The argument for what a command takes.
pub fn argument<'a>(alloc: Global, taken: &'a Taken) -> Result<Arg<'a>, AllocError> {
    let (least, most) = taken.values;
    let long = taken.name.strip_prefix("--");
    let mut argument = Arg::new(alloc, long.unwrap_or(taken.name))
        .help(taken.help)
        .required(taken.is_required)
        .action(taken.action)
        .num_args(least..=most)
        .value_names(taken.value_name.as_slice())
        .value_parser(taken.parser)
        .default_values(taken.default.as_slice())
        .default_missing_values(taken.missing.as_slice())
        .require_equals(taken.missing.is_some());
    if let Some(name) = long {
        argument = argument.long(name);
    }
    match taken.beside {
        Beside::Any => Ok(argument),
        Beside::Undoes(other) => argument.overrides_with(other),
        Beside::Excludes(other) => argument.conflicts_with(other),
        Beside::Needs(other) => argument.requires_arg(other),
    }
}
