//! Readers and writers for tests: over memory, in pieces, and failing on demand.

ghost use Rattle.std.specs.Prelude.{◌≡◌, ◌↔◌, ◌+◌, ◌-◌, ◌^◌, ◌<◌, ◌≤◌, ℕ, Some, None, IsErr, IsErrAnd, IsTrue, IfOk, OnOk, length};
ghost use Rattle.std.specs.Prelude.{take, drop, min};
ghost use Rattle.std.specs.Io.{ReadsAtMost, WritesAtMost};
ghost use Rattle.std.specs.Io.KnownBytes.{ReadConsumes, WriteAppends};
ghost use Rattle.std.specs.IoError.{error_kind};

use std::io;
use std::io::{Error, ErrorKind, Read, Write};

/// A reader of bytes that gives at most `most` of them a call.
#[derive(Drop)]
pub struct Pieces<'a> {
    /// The bytes that are left.
    pub bytes: &'a [u8],
    /// The most bytes that a call gives, at least 1.
    pub most: usize,
    pub ghost gives: { 0 < most },
}

impl<'a> Pieces<'a> {
    /// Makes a reader of these bytes that gives at most `most` of them a call.
    pub fn new(bytes: &'a [u8], most: usize) -> Pieces<'a>
        requires { 0 < most }
        ensures bytes { result.bytes.now ≡ bytes.entry.now }
        ensures most { result.most ≡ most }
    {
        Pieces { bytes, most }
    }
}

impl Read for Pieces<'_> {
    ghost remaining = { λ p. Some p.bytes.now };

    fn read(&mut self, buf: &mut [u8]) -> io::Result<usize> {
        let n = buf.len().min(self.most);
        self.bytes.read(&mut buf[..n])
    }
}

/// A reader or writer whose k-th call fails, and no other.
#[derive(Drop)]
pub struct FailsAt<D> {
    device: D,
    failing_call: u64,
    kind: ErrorKind,
    calls: u64,
}

impl<D> FailsAt<D> {
    /// Makes a device whose k-th call, counted from 1, fails with this kind of error; if k is 0, none does.
    pub fn new(device: D, k: u64, kind: ErrorKind) -> FailsAt<D>
        ensures device { result.device ≡ device }
        ensures none { result.calls ≡ 0 }
        ensures fault { (result.failing_call ≡ k) × (result.kind ≡ kind) }
    {
        FailsAt {
            device,
            failing_call: k,
            kind,
            calls: 0,
        }
    }

    /// Returns how many calls were made, the failed one included.
    pub fn calls(&self) -> u64
        ensures { result ≡ self.now.calls }
    {
        self.calls
    }

    /// Returns the device.
    pub fn get_ref(&self) -> &D
        ensures { result.now ≡ self.now.device }
    {
        &self.device
    }

    fn is_failing_call(&mut self) -> bool
        ensures device { self.new.device ≡ self.old.device }
        ensures fault { (self.new.failing_call ≡ self.old.failing_call) × (self.new.kind ≡ self.old.kind) }
        ensures counted { self.new.calls ≡ min (self.old.calls + 1) (2 ^ 64 - 1) }
        ensures bad { IsTrue result ↔ (self.new.calls ≡ self.new.failing_call) }
    {
        self.calls = self.calls.saturating_add(1);
        self.calls == self.failing_call
    }
}

impl<D: Read> Read for FailsAt<D> {
    ghost remaining = { λ f. D.remaining f.device };

    fn read(&mut self, buf: &mut [u8]) -> io::Result<usize>
        ensures bound { ReadsAtMost result buf.new }
        ensures bytes { ReadConsumes (D.remaining self.old.device) (D.remaining self.new.device) result buf.new }
        ensures counted { self.new.calls ≡ min (self.old.calls + 1) (2 ^ 64 - 1) }
        ensures fails { (self.new.calls ≡ self.old.failing_call)
            → (self.new.device ≡ self.old.device) × IsErrAnd result (λ e. error_kind e ≡ self.old.kind) }
    {
        if self.is_failing_call() {
            return Err(Error::from(self.kind));
        }
        self.device.read(buf)
    }
}

impl<D: Write> Write for FailsAt<D> {
    ghost contents = { λ f. D.contents f.device };

    fn write(&mut self, buf: &[u8]) -> io::Result<usize>
        ensures bound { WritesAtMost result buf.now }
        ensures bytes { WriteAppends (D.contents self.old.device) (D.contents self.new.device) result buf.now }
        ensures counted { self.new.calls ≡ min (self.old.calls + 1) (2 ^ 64 - 1) }
        ensures fails { (self.new.calls ≡ self.old.failing_call)
            → (self.new.device ≡ self.old.device) × IsErrAnd result (λ e. error_kind e ≡ self.old.kind) }
    {
        if self.is_failing_call() {
            return Err(Error::from(self.kind));
        }
        self.device.write(buf)
    }

    fn flush(&mut self) -> io::Result<()> {
        self.device.flush()
    }
}

/// A reader that gives one byte forever.
#[derive(Drop)]
pub struct Endless(pub u8);

impl Read for Endless {
    fn read(&mut self, buf: &mut [u8]) -> io::Result<usize> {
        buf.fill(self.0);
        Ok(buf.len())
    }
}

/// A writer that takes at most `most` bytes a call.
#[derive(Drop)]
pub struct Narrow {
    /// The bytes that were written.
    pub bytes: Vec<u8>,
    /// The most bytes that a call takes; if this is 0, it takes none.
    pub most: usize,
}

impl Write for Narrow {
    ghost contents = { λ n. Some n.bytes.items };

    fn write(&mut self, buf: &[u8]) -> io::Result<usize> {
        let n = buf.len().min(self.most);
        self.bytes.extend_from_slice(&buf[..n])?;
        Ok(n)
    }

    fn flush(&mut self) -> io::Result<()> {
        Ok(())
    }
}
