//! An open file of the system, with the record of its calls.

ghost use Rattle.std.specs.Prelude.{◌≡◌, ◌<◌, ◌≤◌, ◌^◌, [], ◌∷◌, length, IfOk};
ghost use Rattle.sqlite_disk.specs.Events.{settled};

use crate::record::Record;
use sqlite_disk::{Calls, is_no_room};
use std::fs::File;
use std::io;
use std::os::fd::AsRawFd;
use std::os::unix::fs::FileExt;

// The calls, by the numbers that `sqlite_disk` gives them.
const SETTLED: u64 = 0;

const MEASURED: u64 = 1;

const READ: u64 = 2;

const WRITTEN: u64 = 3;

const CUT: u64 = 4;

const SYNCED: u64 = 5;

const TESTED: u64 = 6;

/// No byte of a file has a greater place.
const MAX_OFFSET: usize = (1 << 63) - 1;

/// An open file of the system. Each method makes one call of the system, and then notes it with its result.
#[derive(Drop)]
pub struct Host {
    file: File,
    calls: Record,
}

impl Host {
    /// Waits until the file is on the disk. It also has the system forget its own copy of the file: after a sync that
    /// failed in an earlier process, that copy may differ from the disk.
    pub(crate) fn settle(file: File) -> io::Result<Host>
        ensures { IfOk result (λ host. host.calls.events ≡ settled 0 ∷ []) }
    {
        file.sync_all()?;
        let status = libc::posix_fadvise(file.as_raw_fd(), 0, 0, libc::POSIX_FADV_DONTNEED);
        if status != 0 {
            return Err(io::Error::from_raw_os_error(status));
        }
        let mut calls = Record::new();
        calls.note(&[SETTLED, 0, 0, 1], &[]);
        Ok(Host { file, calls })
    }
}

fn measure(file: &File) -> io::Result<usize> {
    Ok(file.metadata()?.len() as usize)
}

fn read(file: &File, at: usize, buf: &mut [u8]) -> io::Result<usize>
    ensures { IfOk result (λ n. (0 < n) × (n ≤ length buf.old) × (at < 2 ^ 63)) }
{
    if at > MAX_OFFSET {
        return Err(io::ErrorKind::InvalidInput.into());
    }
    let count = file.read_at(buf, at as u64)?;
    if count == 0 {
        return Err(io::ErrorKind::UnexpectedEof.into());
    }
    Ok(count)
}

fn write(file: &File, at: usize, bytes: &[u8]) -> io::Result<usize>
    ensures { IfOk result (λ n. (0 < n) × (n ≤ length bytes.now) × (at < 2 ^ 63)) }
{
    if at > MAX_OFFSET {
        return Err(io::ErrorKind::InvalidInput.into());
    }
    let count = file.write_at(bytes, at as u64)?;
    if count == 0 {
        return Err(io::ErrorKind::WriteZero.into());
    }
    Ok(count)
}

impl Calls for Host {
    ghost history = { λ host. host.calls.events };

    fn len(&mut self) -> io::Result<usize> {
        let result = measure(&self.file);
        match result {
            Ok(len) => self.calls.note(&[MEASURED, len as u64, 0, 1], &[]),
            Err(_) => self.calls.note(&[MEASURED, 0, 0, 0], &[]),
        }
        result
    }

    fn read_some(&mut self, at: usize, buf: &mut [u8]) -> io::Result<usize> {
        let (place, wanted) = (at as u64, buf.len() as u64);
        let result = read(&self.file, at, buf);
        match result {
            Ok(count) => self.calls.note(&[READ, place, wanted, 1], &buf[..count]),
            Err(_) => self.calls.note(&[READ, place, wanted, 0], &[]),
        }
        result
    }

    fn read_under(&mut self, key: u64, want: u64, at: usize, buf: &mut [u8]) -> io::Result<usize> {
        let (place, wanted) = (at as u64, buf.len() as u64);
        let result = read(&self.file, at, buf);
        match result {
            Ok(count) => self
                .calls
                .note(&[TESTED, place, wanted, 1, key, want], &buf[..count]),
            Err(_) => self.calls.note(&[TESTED, place, wanted, 0, key, want], &[]),
        }
        result
    }

    fn write_some(&mut self, at: usize, bytes: &[u8]) -> io::Result<usize> {
        let result = write(&self.file, at, bytes);
        match result {
            Ok(count) => self
                .calls
                .note(&[WRITTEN, at as u64, count as u64, 1], bytes),
            Err(error) => self.calls.note(
                &[WRITTEN, at as u64, u64::from(is_no_room(&error)), 0],
                bytes,
            ),
        }
        result
    }

    fn resize(&mut self, len: usize) -> io::Result<()> {
        let result = self.file.set_len(len as u64);
        match result {
            Ok(()) => self.calls.note(&[CUT, len as u64, 0, 1], &[]),
            Err(error) => self
                .calls
                .note(&[CUT, len as u64, u64::from(is_no_room(&error)), 0], &[]),
        }
        result
    }

    fn sync(&mut self) -> io::Result<()> {
        let result = self.file.sync_data();
        match result {
            Ok(()) => self.calls.note(&[SYNCED, 0, 0, 1], &[]),
            Err(error) => self
                .calls
                .note(&[SYNCED, 0, u64::from(is_no_room(&error)), 0], &[]),
        }
        result
    }
}
