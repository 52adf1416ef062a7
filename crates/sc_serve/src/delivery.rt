//! How an answer leaves the program: what it prints, and the record and the pictures that it writes to files.

ghost use Rattle.std.specs.Prelude.{◌≡◌, OnErr, OnOk};
ghost use Rattle.std.specs.Io.KnownBytes.{Appends};
ghost use Rattle.sc_audit.specs.Writing.{WritesBeginning};
ghost use Rattle.sc_serve.specs.Served.{IsDelivered, IsGivenUp, number_of, written_of};

use crate::drawing::write_drawings;
use crate::serve::{Answer, Exit, Fault, Recording, end_with};
use crate::target::fault_of;
use sc_audit::{RecordLine, Unwritable, write_record, write_whole};
use sc_source::files::Files;
use sc_source::writing::Remains;
use std::io::{self, ErrorKind, Write};

/// Writes an answer, and answers the status that the program ends with.
pub fn deliver<F: Files, O: Write, E: Write>(
    answer: &Answer<'_>,
    files: &F,
    out: &mut O,
    err: &mut E,
) -> u8
    ensures { IsDelivered answer.now (O.contents out.old) (O.contents out.new) result }
{
    match print_and_draw(answer, files, out, err) {
        Ok(()) => status_of(answer.exit),
        Err(fault) => give_up(&fault, answer.exit, err),
    }
}

/// Writes the pictures of an answer, prints it, and writes its record. If a picture can't be written, the rest is done all
/// the same, unless memory ran out.
#[tactic(auto, using(crate::proofs::ServedLemmas::all_begins, crate::proofs::ServedLemmas::none_begins))]
fn print_and_draw<'a, F: Files, O: Write, E: Write>(
    answer: &Answer<'a>,
    files: &F,
    out: &mut O,
    err: &mut E,
) -> Result<(), Fault<'a>>
    ensures ok { OnOk result (Appends (O.contents out.old) (O.contents out.new) (written_of answer.now)) }
    ensures err { OnErr result (WritesBeginning (O.contents out.old) (O.contents out.new) (written_of answer.now)) }
{
    let drawn = write_drawings(files, &answer.beside);
    if let Err(Fault::OutOfMemory) = &drawn {
        return drawn;
    }
    let told = match &answer.record {
        None => print(answer, out, err),
        Some(recording) => print_and_record(answer, recording, files, out, err),
    };
    match told {
        Ok(()) => drawn,
        Err(fault) => Err(fault),
    }
}

/// Says on `err` why an answer with this exit isn't delivered, and answers the status that the program ends with.
fn give_up<E: Write>(fault: &Fault<'_>, exit: Exit, err: &mut E) -> u8
    ensures { IsGivenUp result }
{
    let status = end_with(fault, err);
    // An audit that failed comes first.
    match exit {
        Exit::Broken => status_of(Exit::Broken),
        _ => status,
    }
}

/// The status that the program ends with.
pub fn status_of(exit: Exit) -> u8
    ensures { result ≡ number_of exit }
{
    exit as u8
}

/// Prints an answer, and writes its record to the file, also if no one reads what is printed. Memory is taken first, and
/// the file is opened last.
#[inline(never)]
fn print_and_record<'a, F: Files, O: Write, E: Write>(
    answer: &Answer<'_>,
    recording: &Recording<'a>,
    files: &F,
    out: &mut O,
    err: &mut E,
) -> Result<(), Fault<'a>>
    ensures ok { OnOk result (Appends (O.contents out.old) (O.contents out.new) (written_of answer.now)) }
    ensures err { OnErr result (WritesBeginning (O.contents out.old) (O.contents out.new) (written_of answer.now)) }
{
    match files.writer(recording.name) {
        Ok(writer) => print_and_write(answer, recording, files, writer, out, err),
        Err(error) => Err(print_unrecorded(answer, recording.name, error, out, err)),
    }
}

/// Prints an answer, and writes its record by this writer.
fn print_and_write<'a, F: Files, O: Write, E: Write>(
    answer: &Answer<'_>,
    recording: &Recording<'a>,
    files: &F,
    writer: F::Writer,
    out: &mut O,
    err: &mut E,
) -> Result<(), Fault<'a>>
    ensures ok { OnOk result (Appends (O.contents out.old) (O.contents out.new) (written_of answer.now)) }
    ensures err { OnErr result (WritesBeginning (O.contents out.old) (O.contents out.new) (written_of answer.now)) }
{
    match print(answer, out, err) {
        Ok(()) => write_recording(files, writer, recording),
        Err(Fault::CannotWrite) => {
            write_recording(files, writer, recording)?;
            Err(Fault::CannotWrite)
        }
        Err(fault) => {
            files.discard(writer);
            Err(fault)
        }
    }
}

/// Prints an answer whose record can't be written to the file of this name, since that failed with this error: the fault.
/// Nothing is printed if memory ran out.
fn print_unrecorded<'a, O: Write, E: Write>(
    answer: &Answer<'_>,
    name: &'a str,
    error: io::Error,
    out: &mut O,
    err: &mut E,
) -> Fault<'a>
    ensures { WritesBeginning (O.contents out.old) (O.contents out.new) (written_of answer.now) }
{
    if error.kind() == ErrorKind::OutOfMemory {
        return Fault::OutOfMemory;
    }
    match print(answer, out, err) {
        Ok(()) => Fault::CannotRecord(name, error, None),
        Err(fault) => fault,
    }
}

/// Writes a record, in place of what the file of its name held.
fn write_recording<'a, F: Files>(
    files: &F,
    writer: F::Writer,
    recording: &Recording<'a>,
) -> Result<(), Fault<'a>> {
    match write_lines(files, writer, recording.lines.as_slice()) {
        Ok(()) => Ok(()),
        Err((error, remains)) => Err(Fault::CannotRecord(recording.name, error, Some(remains))),
    }
}

/// Writes the record of these lines, in place of what the file held.
#[inline(never)]
fn write_lines<F: Files>(
    files: &F,
    mut writer: F::Writer,
    lines: &[RecordLine],
) -> Result<(), (io::Error, Remains)> {
    let written = write_record(&mut writer, lines);
    put_in_place(files, writer, written)
}

/// Puts what was written in the place of what a file held, or gives it up if not all was written: then the fault names this
/// file or folder.
pub fn finish_file<'a, F: Files>(
    files: &F,
    name: &'a str,
    writer: F::Writer,
    written: Result<(), Unwritable>,
) -> Result<(), Fault<'a>> {
    match put_in_place(files, writer, written) {
        Ok(()) => Ok(()),
        Err((error, remains)) => Err(fault_of(name, error, Some(remains))),
    }
}

/// Puts what was written in the place of what the file held, or gives it up if not all was written.
fn put_in_place<F: Files>(
    files: &F,
    mut writer: F::Writer,
    written: Result<(), Unwritable>,
) -> Result<(), (io::Error, Remains)> {
    let written = match written {
        Ok(()) => writer.flush(),
        Err(Unwritable(error)) => Err(error),
    };
    match written {
        Ok(()) => files.commit(writer),
        Err(error) => Err((error, files.discard(writer))),
    }
}

/// Prints an answer on standard output, and what it adds on standard error.
fn print<'a, O: Write, E: Write>(
    answer: &Answer<'_>,
    out: &mut O,
    err: &mut E,
) -> Result<(), Fault<'a>>
    ensures ok { OnOk result (Appends (O.contents out.old) (O.contents out.new) (written_of answer.now)) }
    ensures err { OnErr result (WritesBeginning (O.contents out.old) (O.contents out.new) (written_of answer.now)) }
{
    let Ok(note) = &answer.note else {
        return Err(Fault::OutOfMemory);
    };
    if let Err(error) = write_out(written_of(answer), out) {
        return Err(fault_by(error));
    }
    // Nothing can report that `err` failed. The status says so if it failed since memory ran out.
    match write_out(note.as_slice(), err) {
        Err(error) if error.kind() == ErrorKind::OutOfMemory => Err(Fault::OutOfMemory),
        _ => Ok(()),
    }
}

/// Why an answer isn't printed, if standard output failed with this error.
fn fault_by<'a>(error: io::Error) -> Fault<'a> {
    if error.kind() == ErrorKind::OutOfMemory {
        Fault::OutOfMemory
    } else {
        Fault::CannotWrite
    }
}

/// The bytes that are written on standard output: the text, or its object.
fn written_of<'r>(answer: &'r Answer<'_>) -> &'r [u8]
    ensures { result.now ≡ written_of answer.now }
{
    match &answer.object {
        Some(object) => object.as_slice(),
        None => answer.text.as_slice(),
    }
}

/// Writes a text, and sees to it that nothing of it is held back.
fn write_out<O: Write>(text: &[u8], out: &mut O) -> io::Result<()>
    ensures ok { OnOk result (Appends (O.contents out.old) (O.contents out.new) text.now) }
    ensures err { OnErr result (WritesBeginning (O.contents out.old) (O.contents out.new) text.now) }
{
    match write_whole(out, text) {
        Ok(()) => out.flush(),
        Err(Unwritable(error)) => Err(error),
    }
}
