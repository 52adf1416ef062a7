//! Where a record may be written: that is looked at before anything is played.

ghost use Rattle.std.specs.Prelude.{◌≡◌, IfErr, IfOk, IfSome, OnOk, Some};
ghost use Rattle.std.specs.Option.{option_map};
ghost use Rattle.sc_serve.specs.Replaced as spec;
ghost use Rattle.sc_serve.specs.Replaced.{IsUnwritable, MayBeWritten, recorded_to};

use crate::serve::Fault;
use sc_arguments::Invocation;
use sc_lockpass::Version;
use sc_source::files::Files;
use sc_source::reading::{FileFault, read_beginning};
use sc_source::writing::Remains;
use std::alloc::Global;
use std::io::{self, ErrorKind};

/// How many bytes the first line of a record has, with its line feed.
const HEADING_BYTES: usize = b"scoop record 2\n".len();

/// Sees to it that the record that is asked for can be written, if one is, and that it replaces nothing but an empty file or
/// another record, which isn't one of the files that are read.
#[inline(never)]
pub fn check_target<'a, F: Files>(
    alloc: Global,
    files: &F,
    invocation: &Invocation<'a>,
) -> Result<(), Fault<'a>>
    ensures ok { OnOk result (MayBeWritten (F.replaced_by files.now) (recorded_to invocation.now)) }
    ensures err { IfErr result (IsUnwritable (recorded_to invocation.now)) }
{
    match invocation {
        Invocation::Run(options, names) => {
            check_record(alloc, files, options.record, names.as_slice())
        }
        Invocation::Chance(options, names) => {
            check_record(alloc, files, options.record, names.as_slice())
        }
        Invocation::Search(options, names) => {
            check_record(alloc, files, options.record, names.as_slice())
        }
        Invocation::OnFiles(..) | Invocation::CheckAll(..) | Invocation::Layout(..) => Ok(()),
        Invocation::Test(..) | Invocation::Replay(..) => Ok(()),
        Invocation::Explain(_) | Invocation::LanguageServer => Ok(()),
    }
}

/// Checks that the record of the name `asked`, if there is one, can be written. It may replace only an empty file or
/// another record, and none of the files of `names`, which are read.
pub fn check_record<'a, F: Files>(
    alloc: Global,
    files: &F,
    asked: Option<&'a str>,
    names: &[&str],
) -> Result<(), Fault<'a>>
    ensures ok { OnOk result (MayBeWritten (F.replaced_by files.now) (option_map (λ n. n.now) asked.entry)) }
    ensures err { IfErr result (IsUnwritable (option_map (λ n. n.now) asked.entry)) }
{
    let Some(name) = asked else {
        return Ok(());
    };
    if is_read(files, name, names) {
        return Err(Fault::NoRecord(name));
    }
    match may_replace(alloc, files, name) {
        Ok(true) => probe(files, name),
        Ok(false) => Err(Fault::NoRecord(name)),
        Err(FileFault::OutOfMemory) => Err(Fault::OutOfMemory),
        Err(fault) => Err(probed_fault(files, name, fault)),
    }
}

/// Why a record can't be written to the file of this name, which can't be read. That it can't be written either is
/// reported first.
pub fn probed_fault<'a, F: Files>(files: &F, name: &'a str, fault: FileFault) -> Fault<'a>
    ensures { IsUnwritable (Some name.now) result }
{
    match probe(files, name) {
        Ok(()) => Fault::CannotRead(name, fault),
        Err(unwritten) => unwritten,
    }
}

/// Whether writing the file `written` would replace one of the files `names`, which are read.
pub fn is_read<F: Files>(files: &F, written: &str, names: &[&str]) -> bool {
    for read in names {
        if files.is_replaced(written, *read) {
            return true;
        }
    }
    false
}

/// Whether a record may replace the file of this name, as far as its bytes say.
fn may_replace<F: Files>(alloc: Global, files: &F, name: &str) -> Result<bool, FileFault>
    ensures { IfOk result (λ may. IfSome (F.replaced_by files.now name.now) (λ bytes. may ≡ spec.may_be_replaced bytes)) }
{
    match files.replaced(name) {
        Ok(None) => Ok(true),
        Ok(Some(mut reader)) => {
            let beginning = read_beginning(alloc, &mut reader, HEADING_BYTES)?;
            Ok(begins_replaceable(beginning.as_slice()))
        }
        Err(error) => Err(unreadable(error)),
    }
}

/// Why what a file holds isn't known, if opening it failed with this error.
pub fn unreadable(error: io::Error) -> FileFault {
    if error.kind() == ErrorKind::OutOfMemory {
        FileFault::OutOfMemory
    } else {
        FileFault::Unreadable(error)
    }
}

/// Whether a file that begins with these bytes is empty, or a record by its first line.
fn begins_replaceable(beginning: &[u8]) -> bool
    ensures { result ≡ spec.begins_replaceable beginning.now }
{
    beginning.is_empty()
        || is_heading(Version::One, beginning)
        || is_heading(Version::Two, beginning)
}

/// Whether a text is the first line of a record of this version, with its line feed or without.
fn is_heading(version: Version, text: &[u8]) -> bool
    ensures { result ≡ spec.is_heading version text.now }
{
    match version {
        Version::One => text == b"scoop record 1".as_slice()
            || text == b"scoop record 1\n".as_slice(),
        Version::Two => text == b"scoop record 2".as_slice()
            || text == b"scoop record 2\n".as_slice(),
    }
}

/// Tries whether a file of this name can be written.
pub fn probe<'a, F: Files>(files: &F, name: &'a str) -> Result<(), Fault<'a>>
    ensures { IfErr result (IsUnwritable (Some name.now)) }
{
    match files.probe(name) {
        Ok(()) => Ok(()),
        Err((error, remains)) => Err(fault_of(name, error, Some(remains))),
    }
}

/// Why a file of this name isn't written, if that failed with this error.
pub fn fault_of<'a>(name: &'a str, error: io::Error, remains: Option<Remains>) -> Fault<'a>
    ensures { IsUnwritable (Some name.now) result }
{
    if error.kind() == ErrorKind::OutOfMemory {
        Fault::OutOfMemory
    } else {
        Fault::CannotRecord(name, error, remains)
    }
}
