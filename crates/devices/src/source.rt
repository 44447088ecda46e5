//! Sources of bytes.
ghost use Rattle.std.specs.Prelude.{◌≡◌, ◌↔◌, ℕ, ◌+◌, ◌<◌, ◌≤◌, Bool, true, IsErr, IfOk, OnOk};
ghost use Rattle.std.specs.Io.{ReadsAtMost};
ghost use Rattle.std.specs.Io.KnownBytes.{ReadConsumes};
ghost use Rattle.devices.specs.Mirror.{has_failed, reads_left, watched_remaining};

use crate::Watched;
use std::io;
use std::io::Read;

/// A reader that reports whether it has failed, and that gives bytes only so many times. A read returns an error only
/// if `failed()` is true afterwards, and once it is true every read fails.
pub trait Source: Read {
    // `failed()`
    ghost is_failed: { Self → Bool };

    // the second value reads the same stream as the first; a source that holds a reference says that it is the same one
    ghost same: { Self → Self → Type 0 } = { λ _ _. Unit {0} };

    // how many reads can still give a byte
    ghost left: { Self → ℕ };

    /// Returns whether a read failed, or met the bound on read calls.
    fn failed(&self) -> bool
        ensures { result ≡ is_failed self.now };

    /// Reads as the library's `read` does, by at most one of the reads left. A read that gives a byte lowers their number.
    fn pull(&mut self, buf: &mut [u8]) -> io::Result<usize>
        ensures bound { ReadsAtMost result buf.new }
        ensures bytes { ReadConsumes (Self.remaining self.old) (Self.remaining self.new) result buf.new }
        ensures fault { IsErr result ↔ (is_failed self.new ≡ true) }
        ensures kept { is_failed self.old ≡ true → is_failed self.new ≡ true }
        ensures less { IfOk result (λ n. 0 < n → left self.new < left self.old) }
        ensures no_more { left self.new ≤ left self.old }
        ensures few { left self.old ≤ left self.new + 1 }
        ensures stream { same self.old self.new };

    ghost same_refl: { (x : Self) → same x x };

    ghost same_trans: { (x y z : Self) → same x y → same y z → same x z };
}

impl<D: Read> Source for Watched<D> {
    ghost is_failed = { has_failed };

    ghost left = { reads_left };

    ghost same_refl = { λ _. tt };

    ghost same_trans = { λ _ _ _ _ _. tt };

    fn failed(&self) -> bool {
        Watched::failed(self)
    }

    fn pull(&mut self, buf: &mut [u8]) -> io::Result<usize> {
        self.read(buf)
    }
}
