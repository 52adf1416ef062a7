//! Why there is no answer, in words. They are written as they come and take no memory, since there may be none left.

use crate::serve::Fault;
use sc_arguments::UsageFault;
use sc_source::reading::FileFault;
use sc_source::writing::Remains;
use std::fmt::Display;
use std::io::{self, ErrorKind, Write};

/// A message that is written as it is made. After an error nothing more of it is written.
#[derive(Drop)]
struct Message<'e, E> {
    err: &'e mut E,
    /// What kind of error writing has failed with, if it has.
    failure: Option<ErrorKind>,
}

/// Says on `err` why the program ends without an answer. False if that failed since memory ran out.
#[inline(never)]
pub fn say<E: Write>(fault: &Fault<'_>, err: &mut E) -> bool {
    let mut message = Message { err, failure: None };
    push_fault(&mut message, fault);
    message.finish()
}

/// Adds why the program ends without an answer.
fn push_fault<E: Write>(message: &mut Message<'_, E>, fault: &Fault<'_>) {
    match fault {
        Fault::Usage(UsageFault::Arguments(error)) => message.push_shown(error),
        Fault::CannotRead(name, fault) => push_unread(message, name, fault),
        Fault::CannotRecord(name, error, remains) => {
            push_unwritten(message, name, error, remains)
        }
        Fault::NoCode(name) | Fault::NoRecord(name) | Fault::NoDrawing(name) => message.fill_name(
            template_of(fault),
            name,
        ),
        _ => message.push(template_of(fault)),
    }
}

/// The words of a fault that always has the same ones, but for a name in place of `~`.
fn template_of(fault: &Fault<'_>) -> &'static str {
    match fault {
        Fault::Usage(UsageFault::NoCommand) => "no command\n",
        Fault::Usage(UsageFault::BadRoot) => {
            "bad root\na root is a class and a procedure of it, as in --root APPLICATION.make\n"
        }
        Fault::Usage(UsageFault::TracedWorkers) => {
            "a run by several workers can't be traced: leave out --workers or --trace\n"
        }
        Fault::Usage(UsageFault::SeededWorkers) => {
            "a run by several workers has no seed: leave out --workers or --seed\n"
        }
        Fault::Usage(UsageFault::TwoReadings) => "the arguments can be read in two ways\n",
        Fault::NoCode(_) => "no code ~\n`scoop explain` lists the codes\n",
        Fault::NoRecord(_) => "~ is there and is no record: name another file\n",
        Fault::NoDrawing(_) => "a picture doesn't replace ~: name another file\n",
        Fault::CannotWrite => "cannot write standard output\n",
        Fault::NoThread => "no thread\n",
        Fault::LogsDiffer => "logs differ\n",
        Fault::NotText => "an argument isn't UTF-8\n",
        _ => "out of memory\n",
    }
}

impl<'e, E: Write> Message<'e, E> {
    /// Adds these words.
    fn push(&mut self, words: &str) {
        if self.failure.is_none() {
            let written = self.err.write_all(words.as_bytes());
            self.note(written)
        }
    }

    /// Adds a text in which this name takes the place of `~`.
    fn fill_name(&mut self, template: &str, name: &str) {
        match template.split_once('~') {
            Some((before, after)) => {
                self.push(before);
                self.push(name);
                self.push(after)
            }
            None => self.push(template),
        }
    }

    /// Adds a number or an error.
    fn push_shown<D: Display>(&mut self, shown: &D) {
        if self.failure.is_none() {
            let written = write!(self.err, "{shown}");
            self.note(written)
        }
    }

    /// Notes with what writing failed, if it did.
    fn note(&mut self, written: io::Result<()>) {
        if let Err(error) = written {
            self.failure = Some(error.kind())
        }
    }

    /// Sees to it that nothing of the message is held back. False if it isn't written since memory ran out.
    fn finish(&mut self) -> bool {
        if self.failure.is_none() {
            let written = self.err.flush();
            self.note(written)
        }
        !matches!(self.failure, Some(ErrorKind::OutOfMemory))
    }
}

/// Adds which file can't be read, and on a line what is wrong with it.
fn push_unread<E: Write>(message: &mut Message<'_, E>, name: &str, fault: &FileFault) {
    message.fill_name("cannot read ~\n", name);
    match fault {
        FileFault::Unreadable(error) => push_cause(message, why_unread(error.kind()), error),
        FileFault::NotUtf8 { offset } => {
            message.push("it isn't UTF-8 at offset ");
            message.push_shown(offset);
            message.push("\n")
        }
        FileFault::TooLong => message.push("it is too long\n"),
        FileFault::OutOfMemory => message.push("out of memory\n"),
    }
}

/// Why a file can't be read; nothing if the error says it.
fn why_unread(kind: ErrorKind) -> &'static str {
    match kind {
        ErrorKind::NotFound => "there is no such file\n",
        ErrorKind::IsADirectory => "it is a folder\n",
        ErrorKind::PermissionDenied => "there is no right to read it\n",
        _ => "",
    }
}

/// Adds on a line why something can't be done with a file, in these words if there are any.
fn push_cause<E: Write>(message: &mut Message<'_, E>, words: &str, error: &io::Error) {
    if words.is_empty() {
        message.push_shown(error);
        message.push("\n")
    } else {
        message.push(words)
    }
}

/// Adds which file can't be written, why, and what is left in it.
fn push_unwritten<E: Write>(
    message: &mut Message<'_, E>,
    name: &str,
    error: &io::Error,
    remains: &Option<Remains>,
) {
    message.fill_name("cannot write ~\n", name);
    push_cause(message, why_unwritten(error.kind()), error);
    match remains {
        None | Some(Remains::Unchanged) => message.push("it is as it was\n"),
        Some(Remains::Beginning) => {
            message.push("a beginning of the record may be written to it\n")
        }
        Some(Remains::Beside(name)) => message.fill_name(
            "it is as it was, and a beginning of the record is left in ~\n",
            name.as_str(),
        ),
    }
}

/// Why a file can't be written; nothing if the error says it.
fn why_unwritten(kind: ErrorKind) -> &'static str {
    match kind {
        ErrorKind::NotFound | ErrorKind::NotADirectory => "there is no such folder\n",
        ErrorKind::IsADirectory => "it is a folder\n",
        ErrorKind::PermissionDenied => "there is no right to write it\n",
        ErrorKind::StorageFull => "there is no room for it\n",
        ErrorKind::FileTooLarge => "it would be larger than a file may be\n",
        ErrorKind::Unsupported => "it is standard input\n",
        ErrorKind::AlreadyExists => "a file in it is no record\n",
        _ => "",
    }
}
