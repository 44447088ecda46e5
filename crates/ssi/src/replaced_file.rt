//! Files whose content changes all at once.

use crate::places::{end_of_links, folder_of};
use std::alloc::AllocError;
use std::fs::{Files, OpenFile, OpenOptions};
use std::io::{ErrorKind, Write};
use std::path::{Path, PathBuf};
use std::{fs, io};

/// How many names are tried for a file beside another one.
const NAMES: u32 = 1000;

/// A writer to the regular file at a path, or to a new one. What is written goes to a new file in the same folder, which
/// takes the place of the other when it is flushed. Until then, and if anything fails, the other stays as it was.
#[derive(Drop)]
pub struct ReplacedFile<'a, R: Files> {
    rt: &'a R,
    path: PathBuf,
    state: State<R::File>,
}

/// How far the writing is.
#[derive(Drop)]
enum State<F> {
    /// Nothing was written.
    Unwritten,
    /// What was written is in this file at this path.
    Written(F, PathBuf),
    /// The new file has taken the place.
    Replaced,
    /// Something failed, and nothing is left of the new file.
    Failed,
}

impl<'a, R: Files + AllocGlobal> ReplacedFile<'a, R> {
    /// Makes a writer to the file that the path leads to, and leaves it alone.
    pub fn new(rt: &'a R, path: &str) -> Result<ReplacedFile<'a, R>, AllocError> {
        Ok(ReplacedFile {
            rt,
            path: end_of_links(rt, path)?,
            state: State::Unwritten,
        })
    }

    /// Gives the place to the file that was written.
    fn replace(&self, file: &mut R::File, beside: &PathBuf) -> io::Result<()> {
        file.flush()?;
        file.sync_all()?;
        if let Ok(old) = fs::metadata(self.rt, self.path.as_path()) {
            // a file system without modes refuses this
            let _ = file.set_permissions(old.permissions());
        }
        fs::rename(self.rt, beside.as_path(), self.path.as_path())
    }
}

impl<R: Files + AllocGlobal> Write for ReplacedFile<'_, R> {
    fn write(&mut self, buf: &[u8]) -> io::Result<usize> {
        let (mut file, beside) = match std::mem::replace(&mut self.state, State::Failed) {
            State::Unwritten => created_beside(self.rt, self.path.as_path())?,
            State::Written(file, beside) => (file, beside),
            State::Replaced | State::Failed => return Err(io::Error::from(ErrorKind::Other)),
        };
        let written = file.write(buf);
        match &written {
            Err(e) if e.kind() != ErrorKind::Interrupted => removed(self.rt, beside),
            _ => self.state = State::Written(file, beside),
        }
        written
    }

    fn flush(&mut self) -> io::Result<()> {
        match std::mem::replace(&mut self.state, State::Failed) {
            State::Unwritten => self.state = State::Unwritten,
            State::Replaced => self.state = State::Replaced,
            State::Failed => return Err(io::Error::from(ErrorKind::Other)),
            State::Written(mut file, beside) => {
                if let Err(e) = self.replace(&mut file, &beside) {
                    removed(self.rt, beside);
                    return Err(e);
                }
                self.state = State::Replaced;
            }
        }
        Ok(())
    }
}

/// Makes a new file in the folder of this path, and returns it with its own path.
fn created_beside<R: Files + AllocGlobal>(
    rt: &R,
    path: Path<'_>,
) -> io::Result<(R::File, PathBuf)> {
    let mut how = OpenOptions::new();
    how.write(true).create_new(true);
    for number in 0..NAMES {
        let name = format!(in rt.alloc(); ".ssi-{number}.part")?;
        let beside = folder_of(path).join(rt.alloc(), name.as_str())?;
        match how.open(rt, beside.as_path()) {
            Ok(file) => return Ok((file, beside)),
            Err(e) if e.kind() == ErrorKind::AlreadyExists => {}
            Err(e) => return Err(e),
        }
    }
    Err(io::Error::from(ErrorKind::AlreadyExists))
}

// What can't be removed stays, beside the file that was not replaced.
fn removed<R: Files>(rt: &R, beside: PathBuf) {
    let _ = fs::remove_file(rt, beside.as_path());
}

/// Returns the error with which a file beside this path couldn't be made, and leaves nothing behind.
pub fn try_beside<R: Files + AllocGlobal>(rt: &R, path: &str) -> io::Result<()> {
    let end = end_of_links(rt, path)?;
    let (_, beside) = created_beside(rt, end.as_path())?;
    removed(rt, beside);
    Ok(())
}
