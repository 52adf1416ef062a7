//! The folder that the records of tests that fail are written to.

ghost use Rattle.std.specs.Prelude.{◌≡◌, IfOk, OnOk, Some, string_bytes};
ghost use Rattle.sc_serve.specs.Replaced.{MayBeWritten};
ghost use Rattle.sc_serve.specs.Tests as spec;

use crate::delivery::finish_file;
use crate::serve::Fault;
use crate::target::{check_record, fault_of};
use sc_audit::{RecordLine, write_record};
use sc_source::files::Files;
use std::alloc::{AllocError, Global};
use std::io::{self, ErrorKind};

/// The folder that the records of tests that fail are written to, if there is one.
#[derive(Drop)]
pub struct Folder<'f, 'a, F> {
    pub files: &'f F,
    /// None if no record is written.
    pub name: Option<&'a str>,
    /// The names of the files that are read, which no record replaces.
    read: &'f [&'a str],
}

impl<'f, 'a, F: Files> Folder<'f, 'a, F> {
    pub fn new(files: &'f F, name: Option<&'a str>, read: &'f [&'a str]) -> Self {
        Folder { files, name, read }
    }

    /// Sees to it that the record of the test of this name can be written, and that it replaces nothing but an empty file or
    /// another record.
    #[inline(never)]
    pub fn check(&self, alloc: Global, test: &str) -> Result<(), Fault<'a>>
        ensures { OnOk result (MayBeWritten (F.replaced_by self.now.files.now) (spec.record_in self.now.name test.now)) }
    {
        let Some(folder) = self.name else {
            return Ok(());
        };
        let path = path_in(alloc, folder, test)?;
        check_path(alloc, self.files, folder, path.as_str(), self.read)
    }

    /// Writes the record of the test of this name, whole or not at all.
    #[inline(never)]
    pub fn keep(&self, alloc: Global, test: &str, lines: &[RecordLine]) -> Result<(), Fault<'a>> {
        let Some(folder) = self.name else {
            return Ok(());
        };
        let path = path_in(alloc, folder, test)?;
        match self.files.writer(path.as_str()) {
            Ok(mut writer) => {
                let written = write_record(&mut writer, lines);
                finish_file(self.files, folder, writer, written)
            }
            Err(error) => Err(fault_of(folder, error, None)),
        }
    }
}

/// The name of the file that the record of a test is written to.
fn path_in(alloc: Global, folder: &str, test: &str) -> Result<String, AllocError>
    ensures { IfOk result (λ path. string_bytes path ≡ spec.record_of folder.now test.now) }
{
    format!(in alloc; "{folder}/{test}.record")
}

/// Sees to it that a record can be written to this file of a folder, and that it replaces nothing but an empty file or another
/// record, which isn't one of the files that are read.
fn check_path<'a, F: Files>(
    alloc: Global,
    files: &F,
    folder: &'a str,
    path: &str,
    read: &[&str],
) -> Result<(), Fault<'a>>
    ensures { OnOk result (MayBeWritten (F.replaced_by files.now) (Some path.now)) }
{
    match check_record(alloc, files, Some(path), read) {
        Ok(()) => Ok(()),
        Err(fault) => Err(fault_in(folder, fault)),
    }
}

/// Why a record can't be written to this folder, if it can't be written to a file in it.
fn fault_in<'a>(folder: &'a str, fault: Fault<'_>) -> Fault<'a> {
    match fault {
        Fault::CannotRecord(_, error, remains) => Fault::CannotRecord(folder, error, remains),
        Fault::CannotRead(_, fault) => Fault::CannotRead(folder, fault),
        Fault::OutOfMemory => Fault::OutOfMemory,
        _ => Fault::CannotRecord(folder, io::Error::from(ErrorKind::AlreadyExists), None),
    }
}
