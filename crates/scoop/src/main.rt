//! `scoop`: checks and runs systems of SCOOP classes.
//!
//! A command line names the files of a system. `scoop check` says whether the system is well formed,
//! and `scoop run` plays it from its root procedure and prints the report of the run.
#![tactic(auto)]

use sc_serve::serve::{self, Fault};
use sc_source::files::SystemFiles;
use sc_source::reading::FileFault;
use std::fs::{self, File, OpenOptions};
use std::io::{self, ErrorKind, IsTerminal};
use std::process::ExitCode;

/// A file that is always empty and takes anything.
const NOTHING: &str = "/dev/null";

/// The folder in which the system lists the open files of this program, each under its number.
const OPEN_FILES: &str = "/proc/self/fd";

fn main(rt: HostRuntime) -> ExitCode {
    let files = SystemFiles::new(&rt);
    let mut err = rt.stderr();
    let is_terminal = err.is_terminal();
    let status = match begin(&rt) {
        // What fills closed streams is held to the end.
        Ok((arguments, _fillers)) => serve::serve(
            &rt,
            arguments.as_slice(),
            &files,
            &mut rt.stdout(),
            &mut err,
            is_terminal,
        ),
        Err(fault) => serve::end_with(&fault, &mut err),
    };
    ExitCode::from(status)
}

/// What is open in place of standard streams that were closed.
#[derive(Drop)]
struct Fillers {
    input: Option<File>,
    output: Option<File>,
    error: Option<File>,
}

/// The arguments of the command line, and what fills closed streams.
fn begin(rt: &HostRuntime) -> Result<(Vec<String>, Fillers), Fault<'static>> {
    match fill_closed(rt) {
        Ok(fillers) => Ok((command_line(rt)?, fillers)),
        Err(error) => Err(Fault::CannotRead(NOTHING, FileFault::Unreadable(error))),
    }
}

/// Opens a file in place of each of standard input, output and error that is closed, in this order, so that no file that
/// is opened later gets its number. If the system doesn't list open files, none counts as closed.
///
/// # Errors
/// One is closed, and none can be opened in its place; or memory runs out.
fn fill_closed(rt: &HostRuntime) -> io::Result<Fillers> {
    if fs::metadata(rt, OPEN_FILES).is_err() {
        return Ok(Fillers {
            input: None,
            output: None,
            error: None,
        });
    }
    let input = fill(rt, "/proc/self/fd/0", true)?;
    let output = fill(rt, "/proc/self/fd/1", false)?;
    let error = fill(rt, "/proc/self/fd/2", false)?;
    Ok(Fillers {
        input,
        output,
        error,
    })
}

/// Opens a file in place of this one, if that is closed; those of lower numbers are open. As before it can't be read, if
/// it is standard input, and can't be written otherwise.
fn fill(rt: &HostRuntime, listed: &str, is_input: bool) -> io::Result<Option<File>> {
    match fs::metadata(rt, listed) {
        Err(error) if error.kind() == ErrorKind::NotFound => {}
        Err(error) if error.kind() == ErrorKind::OutOfMemory => return Err(error),
        _ => return Ok(None),
    }
    let file = OpenOptions::new()
        .read(!is_input)
        .write(is_input)
        .open(rt, NOTHING)?;
    Ok(Some(file))
}

/// The arguments of the command line, the program's name first.
fn command_line(rt: &HostRuntime) -> Result<Vec<String>, Fault<'static>> {
    match std::env::args(rt) {
        Ok(arguments) => Ok(arguments.collect(rt.alloc())?),
        Err(error) if error.kind() == ErrorKind::OutOfMemory => Err(Fault::OutOfMemory),
        Err(_) => Err(Fault::NotText),
    }
}
