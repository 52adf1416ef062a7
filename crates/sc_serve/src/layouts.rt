//! What `format` does with files one by one: it writes them in place, or names those that would change.

ghost use Rattle.std.specs.Prelude.{◌≡◌, IfOk, None};
ghost use Rattle.sc_serve.specs.Layouts.{IsPlain};

use crate::delivery::finish_file;
use crate::serve::{Answer, Exit, Fault, answer_explained, answer_unread, formatted_text};
use crate::target::fault_of;
use sc_audit::write_whole;
use sc_explain_text::Lines;
use sc_source::files::{Files, read_source};
use sc_source::source::Source;
use std::alloc::{AllocError, Global};
use std::io::{self, ErrorKind};

/// The name of standard input.
const INPUT: &str = "-";

/// A file that would change, and its text in its layout.
#[derive(Drop)]
struct Changed<'a> {
    name: &'a str,
    text: Vec<u8>,
}

/// What is made of a file.
#[derive(Drop)]
enum Read<'a> {
    /// It is in its layout.
    Same,
    /// It would change to this text.
    Changed(Vec<u8>),
    /// It is refused.
    Refused(Answer<'a>),
}

/// Writes each file in its layout in place, or names those that would change. No file is written if one of them is refused.
#[inline(never)]
pub fn answer_layout<'a, F: Files>(
    alloc: Global,
    is_written: bool,
    files: &F,
    names: &[&'a str],
) -> Result<Answer<'a>, Fault<'a>>
    ensures { IfOk result (λ answer. (answer.record ≡ None) × (answer.object ≡ None)) }
{
    let mut changed = Vec::new(alloc);
    for name in names {
        match read_file(alloc, files, name)? {
            Read::Same => {}
            Read::Changed(text) => push_changed(&mut changed, name, text)?,
            Read::Refused(answer) => return Ok(answer),
        }
    }
    answer_changed(alloc, is_written, files, changed.as_slice())
}

/// What is made of the file of this name.
fn read_file<'a, F: Files>(alloc: Global, files: &F, name: &'a str) -> Result<Read<'a>, Fault<'a>>
    ensures { IfOk result IsPlain }
{
    let names = [name];
    match read_source(alloc, files, &names) {
        Ok(source) => read_text(alloc, &source),
        Err(fault) => Ok(Read::Refused(answer_unread(alloc, &names, fault, false)?)),
    }
}

/// What is made of the text of a file.
fn read_text<'a>(alloc: Global, source: &Source) -> Result<Read<'a>, Fault<'a>>
    ensures { IfOk result IsPlain }
{
    match formatted_text(alloc, source.text()) {
        Ok(text) => Ok(compared(source, text)),
        Err(rejection) => {
            let answer = answer_explained(alloc, source, &rejection, None)?;
            Ok(Read::Refused(answer))
        }
    }
}

/// What is made of a file whose text in its layout is this.
fn compared<'a>(source: &Source, text: Vec<u8>) -> Read<'a>
    ensures { IsPlain result }
{
    if is_same(source.text().as_bytes(), text.as_slice()) {
        Read::Same
    } else {
        Read::Changed(text)
    }
}

/// Writes the files that would change, or answers their names.
fn answer_changed<'a, F: Files>(
    alloc: Global,
    is_written: bool,
    files: &F,
    changed: &[Changed<'a>],
) -> Result<Answer<'a>, Fault<'a>>
    ensures { IfOk result (λ answer. (answer.record ≡ None) × (answer.object ≡ None)) }
{
    if is_written {
        write_all(files, changed)?;
        return Ok(Answer::new(alloc, Vec::new(alloc), Exit::Done));
    }
    let exit = if changed.is_empty() {
        Exit::Done
    } else {
        Exit::Refused
    };
    Ok(Answer::new(alloc, names_of(alloc, changed)?, exit))
}

/// Adds a file that would change.
fn push_changed<'a>(
    changed: &mut Vec<Changed<'a>>,
    name: &'a str,
    text: Vec<u8>,
) -> Result<(), AllocError> {
    changed.push(Changed { name, text })?;
    Ok(())
}

/// Whether a source text is this one and a line feed.
fn is_same(source: &[u8], text: &[u8]) -> bool {
    match source {
        [file @ .., _] => file == text,
        [] => false,
    }
}

/// The names of the files that would change, a line each.
fn names_of(alloc: Global, changed: &[Changed<'_>]) -> Result<Vec<u8>, AllocError> {
    let mut lines = Lines::new(alloc);
    for file in changed {
        lines.fill_name("~\n", file.name)
    }
    lines.finish()
}

/// Whether one of them is standard input, which can't be written.
fn has_input(changed: &[Changed<'_>]) -> bool {
    for file in changed {
        if file.name == INPUT {
            return true;
        }
    }
    false
}

/// Writes each file in place. None is written if one of them is standard input.
fn write_all<'a, F: Files>(files: &F, changed: &[Changed<'a>]) -> Result<(), Fault<'a>> {
    if has_input(changed) {
        let error = io::Error::from(ErrorKind::Unsupported);
        return Err(Fault::CannotRecord(INPUT, error, None));
    }
    for file in changed {
        write_file(files, file)?;
    }
    Ok(())
}

/// Writes a file in place, whole or not at all.
fn write_file<'a, F: Files>(files: &F, file: &Changed<'a>) -> Result<(), Fault<'a>> {
    match files.writer(file.name) {
        Ok(mut writer) => {
            let written = write_whole(&mut writer, file.text.as_slice());
            finish_file(files, file.name, writer, written)
        }
        Err(error) => Err(fault_of(file.name, error, None)),
    }
}
