//! The files that a server writes when it ends.

use crate::late_file::LateFile;
use crate::places::{Place, place_of};
use crate::replaced_file::{ReplacedFile, try_beside};
use std::fs::{Files, OpenOptions};
use std::io::{ErrorKind, Write};
use std::os::unix::fs::FileTypeExt;
use std::{fs, io};

/// A writer to the file at a path, which was looked at before.
#[derive(Drop)]
pub enum OutputFile<'a, R: Files> {
    /// To a device, a pipe, or a file in a folder where no other can be made.
    InPlace(LateFile<'a, R>),
    /// To a regular file, or to a new one.
    Replaced(ReplacedFile<'a, R>),
}

impl<'a, R: Files + AllocGlobal> OutputFile<'a, R> {
    /// Makes a writer to the file at the path. Fails if it can be seen beforehand that the file can't be written; then, as
    /// otherwise, nothing is left behind.
    pub fn new(rt: &'a R, path: &'a str) -> io::Result<OutputFile<'a, R>> {
        match place_of(rt, path)? {
            Place::Regular(_) => {
                writable(rt, path)?;
                match try_beside(rt, path) {
                    Ok(()) => Ok(OutputFile::Replaced(ReplacedFile::new(rt, path)?)),
                    Err(_) => Ok(OutputFile::InPlace(LateFile::new(rt, path))),
                }
            }
            Place::Missing(..) => {
                try_beside(rt, path)?;
                Ok(OutputFile::Replaced(ReplacedFile::new(rt, path)?))
            }
            Place::Other => {
                other(rt, path)?;
                Ok(OutputFile::InPlace(LateFile::new(rt, path)))
            }
        }
    }
}

// It is opened and neither read nor changed.
fn writable<R: Files>(rt: &R, path: &str) -> io::Result<()> {
    OpenOptions::new().write(true).open(rt, path)?;
    Ok(())
}

// A device or a pipe isn't opened, since that may have an effect, or wait.
fn other<R: Files>(rt: &R, path: &str) -> io::Result<()> {
    let found = fs::metadata(rt, path)?;
    if found.is_dir() {
        return Err(io::Error::from(ErrorKind::IsADirectory));
    }
    if found.file_type().is_socket() {
        return Err(io::Error::from(ErrorKind::AddrInUse));
    }
    Ok(())
}

impl<R: Files + AllocGlobal> Write for OutputFile<'_, R> {
    fn write(&mut self, buf: &[u8]) -> io::Result<usize> {
        match self {
            OutputFile::InPlace(file) => file.write(buf),
            OutputFile::Replaced(file) => file.write(buf),
        }
    }

    fn flush(&mut self) -> io::Result<()> {
        match self {
            OutputFile::InPlace(file) => file.flush(),
            OutputFile::Replaced(file) => file.flush(),
        }
    }
}
