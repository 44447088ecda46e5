//! Files that are made when they are first written to.

use std::alloc::AllocError;
use std::fs::Files;
use std::io::{BufWriter, Write};
use std::{fs, io};

/// A writer to the file at a path. The first write creates the file, or overwrites what is there. Without a path all that is
/// written is dropped.
#[derive(Drop)]
pub struct LateFile<'a, R: Files + AllocGlobal> {
    rt: &'a R,
    path: Option<&'a str>,
    file: Option<BufWriter<R::File>>,
}

impl<'a, R: Files + AllocGlobal> LateFile<'a, R> {
    /// Makes a writer, and leaves the file at the path alone.
    pub fn new(rt: &'a R, path: Option<&'a str>) -> LateFile<'a, R> {
        LateFile {
            rt,
            path,
            file: None,
        }
    }
}

impl<R: Files + AllocGlobal> Write for LateFile<'_, R> {
    fn write(&mut self, buf: &[u8]) -> io::Result<usize> {
        let Some(path) = self.path else {
            return Ok(buf.len());
        };
        if let Some(file) = &mut self.file {
            return file.write(buf);
        }
        let mut file = BufWriter::new(self.rt.alloc(), fs::create(self.rt, path)?)?;
        let written = file.write(buf);
        self.file = Some(file);
        written
    }

    fn flush(&mut self) -> io::Result<()> {
        match &mut self.file {
            Some(file) => file.flush(),
            None => Ok(()),
        }
    }
}
