//! Bytes in a queue.

ghost use Rattle.std.specs.Prelude.{◌≡◌, ◌≤◌, ℕ, List, [], Some, ◌++◌, length, take, drop, OnOk, OnErr, IsOk, IfOk};
ghost use Rattle.std.specs.Io.{WritesAtMost};
ghost use Rattle.std.specs.Io.KnownBytes.{WriteAppends, Keeps};

use std::alloc::{AllocError, Global};
use std::io;
use std::io::Write;
use std::marker::Model;

/// Bytes that are added at the end and taken from the front. The memory that it has taken stays with it until it is dropped.
#[derive(Drop)]
pub(crate) struct Queue {
    bytes: Vec<u8>,
    // how many of the bytes are taken
    taken: usize,
}

impl Model for Queue {
    ghost use Rattle.std.specs.Prelude.{List, ℕ, ◌≤◌, length, drop};

    ghost Value = { List ℕ };

    ghost view = { λ q. drop q.taken q.bytes.items };

    ghost invariant = { λ q. q.taken ≤ length q.bytes.items };
}

impl Queue {
    /// Makes an empty queue, which takes no memory.
    pub(crate) fn new(alloc: Global) -> Queue
        ensures { result ≡ [] }
    {
        Queue {
            bytes: Vec::new(alloc),
            taken: 0,
        }
    }

    /// Returns the bytes.
    pub(crate) fn bytes(&self) -> &[u8]
        ensures { result.now ≡ self.now }
    {
        &self.bytes[self.taken..]
    }

    /// Returns the number of bytes.
    pub(crate) fn len(&self) -> usize
        ensures { result ≡ length self.now }
    {
        self.bytes.len() - self.taken
    }

    /// Adds bytes at the end. `AllocError` if memory runs out: then none is added.
    pub(crate) fn add(&mut self, more: &[u8]) -> Result<(), AllocError>
        ensures ok { OnOk result (self.new ≡ self.old ++ more.now) }
        ensures err { OnErr result (self.new ≡ self.old) }
    {
        self.bytes.extend_from_slice(more)
    }

    /// Takes the first `count` bytes, or all if there are no more. The rest moves to the front once it is no longer than what
    /// was taken, so a byte moves once on average.
    pub(crate) fn take(&mut self, count: usize)
        ensures { self.new ≡ drop count self.old }
    {
        self.taken += count.min(self.len());
        if self.taken >= self.len() {
            drop_front(&mut self.bytes, self.taken);
            self.taken = 0;
        }
    }

    /// Keeps the first `count` bytes alone.
    pub(crate) fn cut(&mut self, count: usize)
        requires { count ≤ length self.old }
        ensures { self.new ≡ take count self.old }
    {
        self.bytes.truncate(self.taken + count);
    }
}

/// Removes the first `count` bytes.
fn drop_front(bytes: &mut Vec<u8>, count: usize)
    requires { count ≤ length bytes.old.items }
    ensures { bytes.new.items ≡ drop count bytes.old.items }
{
    let left = bytes.len() - count;
    bytes.copy_within(count.., 0);
    bytes.truncate(left);
}

impl Write for Queue {
    ghost use Rattle.std.specs.Prelude.{Some};

    ghost contents = { λ q. Some q };

    fn write(&mut self, buf: &[u8]) -> io::Result<usize>
        ensures bound { WritesAtMost result buf.now }
        ensures bytes { WriteAppends (Some self.old) (Some self.new) result buf.now }
    {
        self.add(buf)?;
        Ok(buf.len())
    }

    fn flush(&mut self) -> io::Result<()>
        ensures bytes { Keeps (Some self.old) (Some self.new) }
    {
        Ok(())
    }
}
