//! Streams in both directions.

ghost use Rattle.std.specs.Prelude.{◌≡◌, ◌<◌, ℕ, Bool, true, false, IsOk, IfOk, MatchResult, length};
ghost use Rattle.std.specs.Io.{ReadsAtMost, WritesAtMost};
ghost use Rattle.std.specs.Io.KnownBytes.{ReadConsumes, WriteAppends};
ghost use Rattle.ssi_cli.specs.Clauses.Peers.{IsFinal};

use mio::net::UnixStream;
use std::io;
use std::io::{Read, Write};

/// A stream that is read and written, where neither touches the bytes of the other.
pub trait Stream: Read + Write {
    // a read of it never fails, and a write takes at least a byte of those that it is given
    ghost is_steady: { Self → Bool } = { λ _. false };
    // a write of it takes at least a byte of those that it is given, or fails for good
    ghost never_waits: { Self → Bool } = { λ _. false };

    /// Reads as the library's `read` does.
    fn pull(&mut self, buf: &mut [u8]) -> io::Result<usize>
        ensures bound { ReadsAtMost result buf.new }
        ensures bytes { ReadConsumes (Self.remaining self.old) (Self.remaining self.new) result buf.new }
        ensures apart { Self.contents self.new ≡ Self.contents self.old }
        ensures steady { is_steady self.old ≡ true → (is_steady self.new ≡ true) × IsOk result };

    /// Writes as the library's `write` does.
    fn push(&mut self, buf: &[u8]) -> io::Result<usize>
        ensures bound { WritesAtMost result buf.now }
        ensures bytes { WriteAppends (Self.contents self.old) (Self.contents self.new) result buf.now }
        ensures apart { Self.remaining self.new ≡ Self.remaining self.old }
        ensures steady { is_steady self.old ≡ true → (is_steady self.new ≡ true) × IsOk result
            × IfOk result (λ n. 0 < length buf.now → 0 < n) }
        ensures taken { never_waits self.old ≡ true → (never_waits self.new ≡ true)
            × MatchResult result (λ n. 0 < length buf.now → 0 < n) IsFinal };
}

/// What a socket holds no contract can say.
impl Stream for UnixStream {
    fn pull(&mut self, buf: &mut [u8]) -> io::Result<usize> {
        self.read(buf)
    }

    fn push(&mut self, buf: &[u8]) -> io::Result<usize> {
        self.write(buf)
    }
}
