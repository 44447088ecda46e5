//! A reader or writer that is watched.

ghost use Rattle.std.specs.Prelude.{◌≡◌, ◌≢◌, ◌↔◌, ℕ, ◌-◌, ◌+◌, ◌<◌, ◌≤◌, List, length, IsTrue, true, false, IsErr, IsErrAnd, IfErr, IfOk, OnOk, OnErr, Ok};
ghost use Rattle.std.specs.Io.{ReadsAtMost, WritesAtMost};
ghost use Rattle.std.specs.Io.KnownBytes.{ReadConsumes, WriteAppends, Keeps, Appends};
ghost use Rattle.std.specs.IoError.{error_kind};
ghost use Rattle.devices.specs.Mirror.{has_failed, reads_left, device_of, watched_remaining, watched_contents};
ghost use Rattle.devices.specs.Clauses.Writing.{Broke};

use std::io;
use std::io::{Error, ErrorKind, Read, Write};

/// A reader or writer that remembers whether a call of it failed, with a bound on its read calls. Once it has failed or
/// met its bound, it passes no more calls on to the device: each call returns an error that isn't `Interrupted`. An
/// interrupted call counts as a failed one.
#[derive(Drop)]
pub struct Watched<D> {
    device: D,
    left: u32,
    is_failed: bool,
}

impl<D> Watched<D> {
    /// Watches the device, with a bound of 4294967295 read calls.
    pub fn new(device: D) -> Watched<D>
        ensures device { device_of result ≡ device }
        ensures left { reads_left result ≡ 4294967295 }
        ensures works { has_failed result ≡ false }
    {
        Watched::with_bound(device, u32::MAX)
    }

    /// Watches the device, with a bound of `most_reads` read calls: a later one isn't passed on, and fails.
    pub fn with_bound(device: D, most_reads: u32) -> Watched<D>
        ensures device { device_of result ≡ device }
        ensures left { reads_left result ≡ most_reads }
        ensures works { has_failed result ≡ false }
    {
        Watched {
            device,
            left: most_reads,
            is_failed: false,
        }
    }

    /// Returns true from the first call on that returned an error, met the bound, or wrote 0 bytes of a slice that isn't
    /// empty.
    pub fn failed(&self) -> bool
        ensures { result ≡ has_failed self.now }
    {
        self.is_failed
    }

    /// Returns the device.
    pub fn into_inner(self) -> D
        ensures { result ≡ device_of self }
    {
        self.device
    }
}

fn not_passed_on() -> Error
    ensures { error_kind result ≡ ErrorKind.Other }
{
    Error::other("the device failed before, or its bound was met")
}

impl<D: Read> Read for Watched<D> {
    ghost remaining = { watched_remaining D.remaining };

    fn read(&mut self, buf: &mut [u8]) -> io::Result<usize>
        ensures bound { ReadsAtMost result buf.new }
        ensures bytes { ReadConsumes (watched_remaining D.remaining self.old) (watched_remaining D.remaining self.new) result buf.new }
        ensures fault { IsErr result ↔ (has_failed self.new ≡ true) }
        ensures one_less { OnOk result (reads_left self.new + 1 ≡ reads_left self.old) }
        ensures counted { has_failed self.old ≡ false → 0 < reads_left self.old → reads_left self.new + 1 ≡ reads_left self.old }
        ensures no_more { reads_left self.new ≤ reads_left self.old }
        ensures few { reads_left self.old ≤ reads_left self.new + 1 }
        ensures met { reads_left self.old ≡ 0 → IsErr result }
        ensures untouched { reads_left self.old ≡ 0 → device_of self.new ≡ device_of self.old }
        ensures kept { has_failed self.old ≡ true → self.new ≡ self.old }
        ensures bound_kind { reads_left self.old ≡ 0 → IfErr result (λ e. error_kind e ≢ ErrorKind.Interrupted) }
        ensures held { (has_failed self.old ≡ true) → IfErr result (λ e. error_kind e ≢ ErrorKind.Interrupted) }
    {
        if self.is_failed {
            return Err(not_passed_on());
        }
        if self.left == 0 {
            self.is_failed = true;
            return Err(not_passed_on());
        }
        self.left -= 1;
        match self.device.read(buf) {
            Ok(n) => Ok(n),
            Err(e) => {
                self.is_failed = true;
                Err(e)
            }
        }
    }
}

impl<D: Write> Write for Watched<D> {
    ghost contents = { watched_contents D.contents };

    fn write(&mut self, buf: &[u8]) -> io::Result<usize>
        ensures bound { WritesAtMost result buf.now }
        ensures bytes { WriteAppends (watched_contents D.contents self.old) (watched_contents D.contents self.new) result buf.now }
        ensures fault { IsErr result → has_failed self.new ≡ true }
        ensures nothing { 0 < length buf.now → result ≡ Ok 0 → has_failed self.new ≡ true }
        ensures empty { length buf.now ≡ 0 → result ≡ Ok 0 → has_failed self.new ≡ has_failed self.old }
        ensures something { IfOk result (λ n. 0 < n → (has_failed self.old ≡ false) × (has_failed self.new ≡ false)) }
        ensures kept { has_failed self.old ≡ true → self.new ≡ self.old }
        ensures held { (has_failed self.old ≡ true) → IsErrAnd result (λ e. error_kind e ≢ ErrorKind.Interrupted) }
        ensures left { reads_left self.new ≡ reads_left self.old }
    {
        if self.is_failed {
            return Err(not_passed_on());
        }
        match self.device.write(buf) {
            Ok(n) => {
                self.is_failed = n == 0 && !buf.is_empty();
                Ok(n)
            }
            Err(e) => {
                self.is_failed = true;
                Err(e)
            }
        }
    }

    fn flush(&mut self) -> io::Result<()>
        ensures bytes { Keeps (watched_contents D.contents self.old) (watched_contents D.contents self.new) }
        ensures fault { IsErr result ↔ (has_failed self.new ≡ true) }
        ensures kept { has_failed self.old ≡ true → self.new ≡ self.old }
        ensures held { (has_failed self.old ≡ true) → IsErrAnd result (λ e. error_kind e ≢ ErrorKind.Interrupted) }
        ensures left { reads_left self.new ≡ reads_left self.old }
    {
        if self.is_failed {
            return Err(not_passed_on());
        }
        match self.device.flush() {
            Ok(()) => Ok(()),
            Err(e) => {
                self.is_failed = true;
                Err(e)
            }
        }
    }

    fn write_all(&mut self, buf: &[u8]) -> io::Result<()>
        ensures bytes { OnOk result (Appends (watched_contents D.contents self.old) (watched_contents D.contents self.new) buf.now) }
        ensures fault { IsErr result → has_failed self.new ≡ true }
        ensures works { OnOk result (has_failed self.new ≡ has_failed self.old) }
        ensures broke { OnErr result (Broke D.contents self.old self.new buf.now) }
        ensures kept { has_failed self.old ≡ true → self.new ≡ self.old }
        ensures left { reads_left self.new ≡ reads_left self.old }
    {
        let mut rest = buf;
        while !rest.is_empty() {
            let n = self.write(rest)?;
            if n == 0 {
                return Err(Error::new(ErrorKind::WriteZero, "the device took nothing"));
            }
            rest = &rest[n..];
        }
        Ok(())
    }
}
