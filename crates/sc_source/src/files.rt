//! Files by name.

ghost use Rattle.std.specs.Prelude.{◌≡◌, ◌<◌, ◌⊎◌, ◌↔◌, ℕ, List, Option, None, Some, IfErr, IfOk, IfSome, IsErr, IsTrue, MatchResult, codes, length, map};
ghost use Rattle.sc_text.specs.Spelling.{max_source_bytes};
ghost use Rattle.sc_source.specs.Joining.{AreJoined, AreSound, AreTold, FailsForGood, IsJoinFault, IsReaderFault, no_memory, source_text};
ghost use Rattle.sc_source.specs.Files.{IsLeftIn, is_input};
ghost use Rattle.sc_source.specs.Source.{names_of};

use crate::source::{JoinFault, Source};
use crate::writing::{Remains, SystemWriter};
use std::alloc::Global;
use std::io::{self, ErrorKind, Input, Read, Write};
use std::os::unix::fs::MetadataExt;
use std::{fs, rt};

/// Files that are opened by name.
pub trait Files {
    /// Reads a file from its start.
    type Reader: Read + Drop;
    /// Writes a file anew. What stood in it stays until that is committed, if the file is one that can be replaced.
    type Writer: Write + Drop;

    // The bytes of the file of a name, where they are known.
    ghost bytes_of: { Self → List ℕ → Option (List ℕ) } = { λ _ _. None };

    // The bytes that are replaced by writing the file of a name, where they are known.
    ghost replaced_by: { Self → List ℕ → Option (List ℕ) } = { λ _ _. None };

    /// Opens a file to be read. Fails where there is none, where it can't be opened and where memory
    /// runs out.
    fn reader(&self, name: &str) -> io::Result<Self::Reader>
        ensures { IfOk result (λ reader. IfSome (bytes_of self.now name.now)
            (λ bytes. Self.Reader.remaining reader ≡ Some bytes)) };

    /// What a file of this name holds that would be replaced by writing it, to be read; none where there is no such file, or
    /// an empty one, and of a device or a pipe, which isn't replaced. Fails where that can't be known, where the file can't be
    /// opened and where memory runs out.
    fn replaced(&self, name: &str) -> io::Result<Option<Self::Reader>>
        ensures { IfOk result (λ replaced. IfSome (replaced_by self.now name.now) (IsLeftIn Self.Reader.remaining replaced)) };

    /// Whether writing a file of the name `written` would replace that which is read by the name `read`.
    fn is_replaced(&self, written: &str, read: &str) -> bool;

    /// Tries whether a file of this name can be written, of a device or a pipe only whether it is there. What is there
    /// stays, and nothing else does. Fails where it can't be written, with what is left, and where memory runs out.
    fn probe(&self, name: &str) -> Result<(), (io::Error, Remains)>;

    /// A writer of a file, empty at first, which is opened or made with the first byte. Memory is taken before. Fails where it
    /// can't be written, as far as that is seen so, and where memory runs out.
    fn writer(&self, name: &str) -> io::Result<Self::Writer>;

    /// Puts what was written in the place of what stood in the file. Fails where that can't be done, and says what is left.
    fn commit(&self, writer: Self::Writer) -> Result<(), (io::Error, Remains)>;

    /// Gives up what was written: what is left of it.
    fn discard(&self, writer: Self::Writer) -> Remains;
}

/// The files of the system that the program runs on. Of the name `-` what is read is standard input; a file of that name
/// is `./-`. A file is replaced whole or not at all, but for a device or a pipe, which is written to at once.
#[derive(Drop)]
pub struct SystemFiles<'r, R> {
    rt: &'r R,
}

impl<'r, R: rt::Files> SystemFiles<'r, R> {
    /// The files that the host reaches.
    pub fn new(rt: &'r R) -> Self {
        SystemFiles { rt }
    }
}

impl<'r, R: rt::Files + Input + AllocGlobal> Files for SystemFiles<'r, R> {
    type Reader = SystemReader<R::File, R::Reader>;

    type Writer = SystemWriter<'r, R>;

    #[inline(never)]
    fn reader(&self, name: &str) -> io::Result<SystemReader<R::File, R::Reader>>
        ensures source { IfOk result (λ reader. IsTrue (is_input reader) ↔ name.now ≡ codes "-") }
        ensures told { IfOk result (λ reader. IfSome (None) (λ (bytes : List ℕ). None ≡ Some bytes)) }
    {
        if name == "-" {
            return Ok(SystemReader::Input(self.rt.reader()));
        }
        Ok(SystemReader::File(fs::open(self.rt, name)?))
    }

    fn replaced(&self, name: &str) -> io::Result<Option<SystemReader<R::File, R::Reader>>> {
        match fs::metadata(self.rt, name) {
            Ok(metadata) if metadata.is_file() && metadata.len() > 0 => {
                Ok(Some(SystemReader::File(fs::open(self.rt, name)?)))
            }
            Ok(_) => Ok(None),
            Err(error) if error.kind() == ErrorKind::NotFound => Ok(None),
            Err(error) => Err(error),
        }
    }

    fn is_replaced(&self, written: &str, read: &str) -> bool {
        if read == "-" {
            return false;
        }
        match (fs::metadata(self.rt, written), fs::metadata(self.rt, read)) {
            (Ok(one), Ok(other)) => {
                one.is_file() && one.dev() == other.dev() && one.ino() == other.ino()
            }
            _ => false,
        }
    }

    fn probe(&self, name: &str) -> Result<(), (io::Error, Remains)> {
        match SystemWriter::new(self.rt, name) {
            Ok(writer) => writer.probe(),
            Err(error) => Err((error, Remains::Unchanged)),
        }
    }

    fn writer(&self, name: &str) -> io::Result<SystemWriter<'r, R>> {
        SystemWriter::new(self.rt, name)
    }

    fn commit(&self, writer: SystemWriter<'r, R>) -> Result<(), (io::Error, Remains)> {
        writer.commit()
    }

    fn discard(&self, writer: SystemWriter<'r, R>) -> Remains {
        writer.discard()
    }
}

/// A reader of a file or of standard input.
#[derive(Drop)]
pub enum SystemReader<F, I> {
    File(F),
    Input(I),
}

impl<F: Read, I: Read> Read for SystemReader<F, I> {
    fn read(&mut self, buf: &mut [u8]) -> io::Result<usize> {
        match self {
            SystemReader::File(file) => file.read(buf),
            SystemReader::Input(input) => input.read(buf),
        }
    }
}

/// A file by name, opened when it is first read and closed at its end.
#[derive(Drop)]
pub struct NamedFile<'a, F: Files> {
    files: &'a F,
    name: &'a str,
    state: FileState<F::Reader>,
}

#[derive(Drop)]
enum FileState<R> {
    Unopened,
    Open(R),
    AtEnd,
}

impl<'a, F: Files> NamedFile<'a, F> {
    /// The file of that name among these, which isn't opened yet.
    pub fn new(files: &'a F, name: &'a str) -> Self
        ensures { ⟦<NamedFile<'a, F> as Read>⟧.remaining result ≡ F.bytes_of files.now name.now }
    {
        NamedFile {
            files,
            name,
            state: FileState::Unopened,
        }
    }
}

impl<'a, F: Files> Read for NamedFile<'a, F> {
    ghost use Rattle.sc_source.specs.Files.{left_of};

    ghost remaining = { λ file. left_of F.Reader.remaining (F.bytes_of file.files.now file.name.now) file.state };

    /// Fails where the file can't be opened too.
    fn read(&mut self, buf: &mut [u8]) -> io::Result<usize> {
        if let FileState::Unopened = self.state {
            self.state = FileState::Open(self.files.reader(self.name)?);
        }
        let FileState::Open(reader) = &mut self.state else {
            return Ok(0);
        };
        let count = reader.read(buf)?;
        if count == 0 && !buf.is_empty() {
            self.state = FileState::AtEnd;
        }
        Ok(count)
    }
}

/// The source text of the named files. They are opened and read in order, up to the first that is at fault.
pub fn read_source<F: Files>(alloc: Global, files: &F, names: &[&str]) -> Result<Source, JoinFault>
    ensures answer { (texts : List (List ℕ)) → AreTold (map (λ name. F.bytes_of files.now name.now) names.now) texts
        → MatchResult result (AreJoined texts) (λ why. (why.fault ≡ no_memory) ⊎ IsJoinFault texts why) }
    ensures fits { (texts : List (List ℕ)) → AreTold (map (λ name. F.bytes_of files.now name.now) names.now) texts
        → AreSound texts → IfErr result (λ why. IsReaderFault why.fault) }
    ensures too_long { (texts : List (List ℕ)) → AreTold (map (λ name. F.bytes_of files.now name.now) names.now) texts
        → max_source_bytes < length (source_text texts) → IsErr result }
    ensures named { IfOk result (λ source. names_of source ≡ map (λ name. name.now) names.now) }
    ensures which { let named = map (λ name. name.now) names.now in
        IfErr result (λ why. (why.fault ≡ no_memory) ⊎ (why.file < length named)) }
    ensures failed { IfErr result (λ why. FailsForGood why.fault) }
{
    let mut readers = Vec::with_capacity(alloc, names.len())?;
    for name in names {
        readers.push(NamedFile::new(files, name))?;
    }
    Source::join(alloc, names, readers.as_mut_slice())
}
