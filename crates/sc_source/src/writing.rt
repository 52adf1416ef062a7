//! Files that are written whole or not at all.
//!
//! What is to stand in a file is written to a new one beside it, which takes its name at the end. A device or a pipe can't
//! be replaced so: it is written to at once. Nothing is opened before the first byte, so that a program that is ended on
//! its way to that leaves nothing.

use std::alloc::{AllocError, Global};
use std::fs::{self, Metadata, OpenFile, OpenOptions, Permissions};
use std::io::{self, ErrorKind, Write};
use std::rt::Files;

/// What a file that couldn't be written is left with.
#[derive(Drop)]
pub enum Remains {
    /// What it was.
    Unchanged,
    /// A beginning of what was to be written: it is a device or a pipe.
    Beginning,
    /// What it was. A beginning is in the file of this name, which couldn't be removed.
    Beside(String),
}

/// How many names are tried for the new file.
const NAMES: u32 = 100;

/// How many bytes the name of the new file has after that of the file, at most.
const ENDING: usize = ".99.part".len();

/// The file in which the system lists the limits of this program, a line each, and how the line of the largest file begins.
const LIMITS: &str = "/proc/self/limits";

const FILE_SIZE: &str = "Max file size";

/// Writes a file of the host. All memory that this takes is taken when it is made.
#[derive(Drop)]
pub struct SystemWriter<'r, R: Files> {
    rt: &'r R,
    name: String,
    /// How the file is replaced, unless it is a device or a pipe.
    replacing: Option<Replacing>,
    /// What is written to, from the first byte on.
    file: Option<R::File>,
    /// How many more bytes it takes.
    room: u64,
}

/// The name of the new file, which has room for each that is tried, and the permissions of the file that is replaced.
#[derive(Drop)]
struct Replacing {
    new: String,
    permissions: Option<Permissions>,
}

impl<'r, R: Files> Write for SystemWriter<'r, R> {
    /// Fails where the file can't be opened or made too. A file that may not be so large fails by `FileTooLarge`, for
    /// which the system would end the program.
    fn write(&mut self, buf: &[u8]) -> io::Result<usize> {
        self.open()?;
        let most = self.room.min(buf.len() as u64) as usize;
        if most == 0 && !buf.is_empty() {
            return Err(io::Error::from(ErrorKind::FileTooLarge));
        }
        let Some(file) = &mut self.file else {
            return Ok(0);
        };
        let count = file.write(&buf[..most])?;
        self.room -= count as u64;
        Ok(count)
    }

    fn flush(&mut self) -> io::Result<()> {
        match &mut self.file {
            Some(file) => file.flush(),
            None => Ok(()),
        }
    }
}

impl<'r, R: Files + AllocGlobal> SystemWriter<'r, R> {
    /// A writer of the file of this name. Where there is one that can be replaced, it stays until `commit`.
    ///
    /// # Errors
    /// Where it is a folder or can't be opened to be written, and where memory runs out.
    #[inline(never)]
    pub fn new(rt: &'r R, name: &str) -> io::Result<Self> {
        match fs::metadata(rt, name) {
            Ok(metadata) if metadata.is_file() => Self::over(rt, name, metadata),
            Ok(metadata) if metadata.is_dir() => Err(io::Error::from(ErrorKind::IsADirectory)),
            Ok(_) => Ok(SystemWriter {
                rt,
                name: String::from_str(rt.alloc(), name)?,
                replacing: None,
                file: None,
                room: u64::MAX,
            }),
            Err(error) if error.kind() == ErrorKind::NotFound => Self::beside(rt, name, None),
            Err(error) => Err(error),
        }
    }

    /// A writer of the file of this name, which exists. Links to the file stay, and the file keeps its permissions.
    #[inline(never)]
    fn over(rt: &'r R, name: &str, metadata: Metadata) -> io::Result<Self> {
        OpenOptions::new().write(true).open(rt, name)?;
        let path = fs::canonicalize(rt, name)?;
        let Some(path) = path.to_str() else {
            return Err(io::Error::from(ErrorKind::InvalidFilename));
        };
        Self::beside(rt, path, Some(metadata.permissions()))
    }

    /// A writer of the file of this name by a new file beside it, which gets these permissions if there are any.
    fn beside(rt: &'r R, name: &str, permissions: Option<Permissions>) -> io::Result<Self> {
        let room = longest_file(rt)?;
        let replacing = Replacing::new(rt.alloc(), name, permissions)?;
        Ok(SystemWriter {
            rt,
            name: String::from_str(rt.alloc(), name)?,
            replacing: Some(replacing),
            file: None,
            room,
        })
    }
}

impl<'r, R: Files> SystemWriter<'r, R> {
    /// Opens or makes what is written to, unless it is open.
    fn open(&mut self) -> io::Result<()> {
        if self.file.is_some() {
            return Ok(());
        }
        let opened = match &mut self.replacing {
            Some(replacing) => replacing.make(self.rt, self.name.as_str()),
            None => fs::create(self.rt, self.name.as_str()),
        };
        match opened {
            Ok(file) => {
                self.file = Some(file);
                Ok(())
            }
            Err(error) => Err(error),
        }
    }

    /// Tries whether the file can be written, as far as that is seen without writing: whether a new one can be made beside it.
    /// It is removed at once.
    ///
    /// # Errors
    /// Where it can't be made or removed, and what is left then.
    #[inline(never)]
    pub fn probe(mut self) -> Result<(), (io::Error, Remains)> {
        let Some(mut replacing) = self.replacing.take() else {
            return Ok(());
        };
        if let Err(error) = replacing.make(self.rt, self.name.as_str()) {
            return Err((error, Remains::Unchanged));
        }
        replacing.remove(self.rt)
    }

    /// Puts what was written in the place of the file.
    ///
    /// # Errors
    /// Where the new file can't take the name: then it is as if nothing was written.
    #[inline(never)]
    pub fn commit(mut self) -> Result<(), (io::Error, Remains)> {
        if let Err(error) = self.open() {
            return Err((error, Remains::Unchanged));
        }
        match self.replacing.take() {
            Some(replacing) => replacing.take_name(self.rt, self.name.as_str()),
            None => Ok(()),
        }
    }

    /// Gives up what was written, and answers what is left of it.
    pub fn discard(mut self) -> Remains {
        if self.file.is_none() {
            return Remains::Unchanged;
        }
        match self.replacing.take() {
            Some(replacing) => replacing.discard(self.rt),
            None => Remains::Beginning,
        }
    }
}

impl Replacing {
    /// By a new file beside that of the name, which isn't made yet.
    fn new(
        alloc: Global,
        name: &str,
        permissions: Option<Permissions>,
    ) -> Result<Replacing, AllocError> {
        let mut new = String::from_str(alloc, name)?;
        new.reserve(ENDING)?;
        Ok(Replacing { new, permissions })
    }

    /// Makes a new file beside that of the name, with the permissions of that.
    fn make<R: Files>(&mut self, rt: &R, name: &str) -> io::Result<R::File> {
        let file = create_part(rt, name, &mut self.new)?;
        let Some(permissions) = self.permissions.take() else {
            return Ok(file);
        };
        match file.set_permissions(permissions) {
            Ok(()) => Ok(file),
            Err(error) => {
                let _ = fs::remove_file(rt, self.new.as_str());
                Err(error)
            }
        }
    }

    /// Gives the new file the name of the other; where that can't be done it is removed.
    fn take_name<R: Files>(self, rt: &R, name: &str) -> Result<(), (io::Error, Remains)> {
        match fs::rename(rt, self.new.as_str(), name) {
            Ok(()) => Ok(()),
            Err(error) => Err((error, self.discard(rt))),
        }
    }

    /// Removes the new file.
    fn remove<R: Files>(self, rt: &R) -> Result<(), (io::Error, Remains)> {
        match fs::remove_file(rt, self.new.as_str()) {
            Ok(()) => Ok(()),
            Err(error) => Err((error, Remains::Beside(self.new))),
        }
    }

    /// Removes the new file, and answers what is left.
    #[inline(never)]
    fn discard<R: Files>(self, rt: &R) -> Remains {
        match self.remove(rt) {
            Ok(()) => Remains::Unchanged,
            Err((_, remains)) => remains,
        }
    }
}

/// A new file beside that of the name, and its own name in `new`.
#[inline(never)]
fn create_part<R: Files>(rt: &R, name: &str, new: &mut String) -> io::Result<R::File> {
    for number in 0..NAMES {
        new.clear();
        write!(new, "{name}.{number}.part")?;
        match OpenOptions::new()
            .write(true)
            .create_new(true)
            .open(rt, new.as_str())
        {
            Err(error) if error.kind() == ErrorKind::AlreadyExists => {}
            made => return made,
        }
    }
    Err(io::Error::from(ErrorKind::AlreadyExists))
}

/// How many bytes a file may have that this program writes, if the system lists that; else as many as it likes.
#[inline(never)]
fn longest_file<R: Files + AllocGlobal>(rt: &R) -> io::Result<u64> {
    match fs::read_to_string(rt, LIMITS) {
        Ok(limits) => Ok(file_size_in(limits.as_str())),
        Err(error) if error.kind() == ErrorKind::OutOfMemory => Err(error),
        Err(_) => Ok(u64::MAX),
    }
}

/// The limit of a file's size in a list of limits; none is the largest number.
fn file_size_in(limits: &str) -> u64 {
    for line in limits.lines() {
        if let Some(values) = line.strip_prefix(FILE_SIZE) {
            let soft = values.split_ascii_whitespace().next().unwrap_or("");
            return soft.parse::<u64>().unwrap_or(u64::MAX);
        }
    }
    u64::MAX
}
