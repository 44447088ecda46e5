//! Files that are made when they are first written to.

use std::fs::Files;
use std::io::Write;
use std::{fs, io};

/// A writer to the file at a path. The first write creates the file, or overwrites what is there.
#[derive(Drop)]
pub struct LateFile<'a, R: Files> {
    rt: &'a R,
    path: &'a str,
    file: Option<R::File>,
}

impl<'a, R: Files> LateFile<'a, R> {
    /// Makes a writer, and leaves the file at the path alone.
    pub fn new(rt: &'a R, path: &'a str) -> LateFile<'a, R> {
        LateFile {
            rt,
            path,
            file: None,
        }
    }
}

impl<R: Files> Write for LateFile<'_, R> {
    fn write(&mut self, buf: &[u8]) -> io::Result<usize> {
        if let Some(file) = &mut self.file {
            return file.write(buf);
        }
        let mut file = fs::create(self.rt, self.path)?;
        let written = file.write(buf);
        self.file = Some(file);
        written
    }

    fn flush(&mut self) -> io::Result<()> {
        match &mut self.file {
            Some(file) => file.flush(),
            None => Ok(()),
        }
    }
}
