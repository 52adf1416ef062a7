//! The arguments of a command line: what is asked for, and of which files.
//!
//! [`read_arguments`] returns an [`Invocation`], or a [`UsageFault`] if the arguments ask for nothing that can be
//! done, or for help.
#![tactic(auto)]

mod arguments;

pub use arguments::{
    ChanceOptions, CheckOptions, Command, Drawings, Format, Invocation, ReplayOptions, RunOptions,
    SearchOptions, Sought, TestFormat, TestOptions, Trace, Until, UsageFault, ask_for_help,
    read_arguments,
};
