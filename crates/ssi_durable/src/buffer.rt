//! Lines on their way to a log.

ghost use Rattle.std.specs.Prelude.{◌≡◌, ◌≤◌, ◌+◌, ℕ, List, [], ◌∷◌, ◌++◌, length, nat_le, if◌then◌else◌, IfOk};

use std::alloc::{AllocError, Global};
use std::marker::Model;

/// So many bytes are gathered before they are handed to the log.
pub(crate) const SIZE: usize = 65_536;

/// The most bytes of a line that counts, without its line feed.
pub(crate) const MAX_LINE_LEN: usize = 4_096;

/// Lines, each with its line feed. Adding one takes no memory.
#[derive(Drop)]
pub(crate) struct Buffer {
    bytes: Vec<u8>,
}

impl Model for Buffer {
    ghost use Rattle.std.specs.Prelude.{List, ℕ, ◌≤◌, vec_capacity};

    ghost Value = { List ℕ };

    ghost view = { λ b. b.bytes.items };

    ghost invariant = { λ b. 65536 ≤ vec_capacity b.bytes };
}

impl Buffer {
    /// Makes an empty one.
    pub(crate) fn new(alloc: Global) -> Result<Buffer, AllocError>
        ensures { IfOk result (λ b. b ≡ []) }
    {
        Ok(Buffer {
            bytes: Vec::with_capacity(alloc, SIZE)?,
        })
    }

    pub(crate) fn bytes(&self) -> &[u8]
        ensures { result.now ≡ self.now }
    {
        &self.bytes
    }

    pub(crate) fn len(&self) -> usize
        ensures { result ≡ length self.now }
    {
        self.bytes.len()
    }

    /// Adds the line.
    pub(crate) fn add(&mut self, line: &[u8])
        requires { length self.old + length line.now + 1 ≤ 65536 }
        ensures { self.new ≡ self.old ++ (line.now ++ 10 ∷ []) }
    {
        let _ = self.bytes.extend_from_slice(line);
        self.bytes.push_reserved(b'\n');
    }

    /// Removes all lines.
    pub(crate) fn clear(&mut self)
        ensures { self.new ≡ [] }
    {
        self.bytes.clear();
    }
}

/// A line that is about to be carried out.
#[derive(Drop)]
pub(crate) struct Noted {
    bytes: Vec<u8>,
}

impl Model for Noted {
    ghost use Rattle.std.specs.Prelude.{List, ℕ, ◌≤◌, length, vec_capacity};

    ghost Value = { List ℕ };

    ghost view = { λ n. n.bytes.items };

    ghost invariant = { λ n. (4096 ≤ vec_capacity n.bytes) × (length n.bytes.items ≤ 4096) };
}

impl Noted {
    ghost use Rattle.ssi_durable.specs.Machinery.Noting.{noted};

    /// Makes an empty one.
    pub(crate) fn new(alloc: Global) -> Result<Noted, AllocError>
        ensures { IfOk result (λ n. n ≡ []) }
    {
        Ok(Noted {
            bytes: Vec::with_capacity(alloc, MAX_LINE_LEN)?,
        })
    }

    pub(crate) fn bytes(&self) -> &[u8]
        ensures line { result.now ≡ self.now }
        ensures short { length result.now ≤ 4096 }
    {
        &self.bytes
    }

    /// Notes this line in place of the one before, or nothing if it is too long to count.
    pub(crate) fn note(&mut self, line: &[u8])
        ensures { self.new ≡ noted line.now }
    {
        self.bytes.clear();
        if line.len() <= MAX_LINE_LEN {
            let _ = self.bytes.extend_from_slice(line);
        }
    }
}
