//! Lines out of a source, without memory.

ghost use Rattle.std.specs.Prelude.{◌≡◌, ◌≢◌, ◌↔◌, ℕ, ◌+◌, ◌<◌, ◌≤◌, List, [], ◌++◌, length, drop, All, true, false, IfOk, IsErr};
ghost use Rattle.std.specs.Io.KnownBytes.{Consumes, IsAtEnd};
ghost use Rattle.devices.specs.Clauses.Lines.{line_end};

use crate::Source;
use memchr::memchr;
use std::marker::Model;

/// The most bytes of one read.
const ROOM: usize = 8192;

/// The source failed.
#[derive(Clone, Copy)]
pub struct SourceFault;

/// The bytes that were read from a source, and not yet taken: at most 8192. One buffer belongs to one source.
#[derive(Drop)]
pub struct LineBuffer {
    bytes: [u8; ROOM],
    start: usize,
    end: usize,
}

impl Model for LineBuffer {
    ghost use Rattle.std.specs.Prelude.{List, ℕ, ◌≤◌, slice_range};

    ghost Value = { List ℕ };

    ghost view = { λ b. slice_range b.bytes b.start b.end };

    ghost invariant = { λ b. (b.start ≤ b.end) × (b.end ≤ 8192) };
}

impl LineBuffer {
    /// Makes a buffer for a source of which nothing was read.
    pub fn new() -> LineBuffer
        ensures { result ≡ [] }
    {
        LineBuffer {
            bytes: [0; ROOM],
            start: 0,
            end: 0,
        }
    }

    /// Returns the bytes up to the first line feed, and true; or all bytes, and false if there is none.
    pub fn front(&self) -> (&[u8], bool)
        ensures parts { (rest : List ℕ) × (self.now ≡ result.0.now ++ line_end result.1 ++ rest)
            × (result.1 ≡ false → rest ≡ []) }
        ensures plain { All (λ b. b ≢ 10) result.0.now }
        ensures short { length result.0.now ≤ 8192 }
    {
        let pending = &self.bytes[self.start..self.end];
        match memchr(b'\n', pending) {
            Some(at) => (&pending[..at], true),
            None => (pending, false),
        }
    }

    /// Takes this many bytes from the front, of those that there are, and with `feed` the line feed behind them.
    pub fn take(&mut self, count: usize, feed: bool)
        requires { count + length (line_end feed) ≤ length self.old }
        ensures { self.new ≡ drop (count + length (line_end feed)) self.old }
    {
        self.start += count;
        if feed {
            self.start += 1;
        }
    }

    /// Reads more bytes after all were taken, 8192 at most, by one read. Returns whether any came: none come at the end.
    /// `SourceFault` if the source failed.
    pub fn fill<S: Source>(&mut self, source: &mut S) -> Result<bool, SourceFault>
        requires { self.old ≡ [] }
        ensures bytes { Consumes (S.remaining source.old) (S.remaining source.new) self.new }
        ensures short { length self.new ≤ 8192 }
        ensures end { IfOk result (λ some. some ≡ false → (self.new ≡ []) × IsAtEnd (S.remaining source.new)) }
        ensures broken { IsErr result → self.new ≡ [] }
        ensures fault { IsErr result ↔ (S.is_failed source.new ≡ true) }
        ensures kept { S.is_failed source.old ≡ true → S.is_failed source.new ≡ true }
        ensures less { IfOk result (λ some. some ≡ true → S.left source.new < S.left source.old) }
        ensures no_more { S.left source.new ≤ S.left source.old }
        ensures few { S.left source.old ≤ S.left source.new + 1 }
        ensures some { IfOk result (λ some. some ≡ true → 0 < length self.new) }
        ensures stream { S.same source.old source.new }
    {
        self.start = 0;
        self.end = 0;
        match source.pull(&mut self.bytes) {
            Ok(n) => {
                self.end = n;
                Ok(n != 0)
            }
            Err(_) => Err(SourceFault),
        }
    }
}
