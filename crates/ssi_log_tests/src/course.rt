//! A course of calls, with what was added to the text and how much of it was synced.

use sqlite_disk::Disk;
use ssi_log::{Log, LogFault};
use std::alloc::Global;

/// What was added to the text of a log, the bytes of a call that failed among it, and how many bytes were synced for sure.
#[derive(Drop)]
pub struct Course {
    pub added: Vec<u8>,
    pub sure: usize,
}

impl Course {
    /// A log was opened with this text.
    pub fn from(alloc: Global, text: &[u8]) -> Result<Course, LogFault> {
        let mut added = Vec::new(alloc);
        added.extend_from_slice(text)?;
        Ok(Course {
            added,
            sure: text.len(),
        })
    }

    fn add<D: Disk>(&mut self, log: &mut Log<D>, bytes: &[u8]) -> Result<(), LogFault> {
        self.added.extend_from_slice(bytes)?;
        log.append(bytes)
    }

    fn sync<D: Disk>(&mut self, log: &mut Log<D>) -> Result<(), LogFault> {
        log.sync()?;
        self.sure = self.added.len();
        Ok(())
    }

    fn extend<D: Disk>(&mut self, log: &mut Log<D>, more: usize) -> Result<(), LogFault> {
        log.extend(more)?;
        self.sure = self.added.len();
        Ok(())
    }

    /// Adds some lines: some are synced one by one, some together, and some aren't.
    pub fn follow<D: Disk>(&mut self, log: &mut Log<D>) -> Result<(), LogFault> {
        self.add(log, b"begin a\n")?;
        self.sync(log)?;
        self.add(log, b"put a k 1\n")?;
        self.add(log, b"put a m 2\n")?;
        self.extend(log, 50)?;
        self.add(log, b"commit a\nbegin b\n")?;
        self.add(log, b"get b k\n")?;
        self.sync(log)?;
        self.extend(log, 30)?;
        self.add(log, b"put b k a longer value than before\n")?;
        self.sync(log)?;
        self.add(log, b"commit b\n")?;
        self.add(log, b"begin c\n")
    }

    /// This is a front of what was added, with all that was synced.
    pub fn is_kept_by(&self, text: &[u8]) -> bool {
        self.added.starts_with(text) && self.sure <= text.len()
    }
}
