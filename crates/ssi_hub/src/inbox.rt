//! What a connection has sent and is not carried out.

ghost use Rattle.std.specs.Prelude.{◌≡◌, ◌≤◌, ℕ, List, [], ◌∷◌, ◌++◌, length, drop, IfOk, OnOk, OnErr, IfSome, IfNone};
ghost use Rattle.adya_line.specs.Meaning.Lines.{IsPlain};
ghost use Rattle.ssi_hub.specs.Clauses.Clipping.{has_line, clipped, clipped_after, kept_of_last};

use crate::Queue;
use memchr::memchr;
use std::alloc::{AllocError, Global};
use std::marker::Model;

/// The most bytes that are kept of a line, without its line feed: one more than it may have, so that it is still too long.
const MOST_KEPT: usize = 4097;

/// The bytes that came and are not yet carried out. Of each line the first 4097 bytes are kept, so an unfinished line takes
/// no more memory than that.
#[derive(Drop)]
pub(crate) struct Inbox {
    waiting: Queue,
    // how many bytes follow the last line feed
    unfinished: usize,
}

impl Model for Inbox {
    ghost use Rattle.std.specs.Prelude.{List, ℕ, ◌≡◌};
    ghost use Rattle.ssi_hub.specs.Clauses.Clipping.{clipped, kept_of_last};

    ghost Value = { List ℕ };

    ghost view = { λ i. i.waiting };

    ghost invariant = { λ i. (clipped i.waiting ≡ i.waiting) × (i.unfinished ≡ kept_of_last 0 i.waiting) };
}

impl Inbox {
    /// Makes an empty one.
    pub(crate) fn new(alloc: Global) -> Inbox
        ensures { result ≡ [] }
    {
        Inbox {
            waiting: Queue::new(alloc),
            unfinished: 0,
        }
    }

    /// Adds bytes. `AllocError` if memory runs out: then none is added.
    pub(crate) fn add(&mut self, bytes: &[u8]) -> Result<(), AllocError>
        ensures ok { OnOk result (self.new ≡ clipped (self.old ++ bytes.now)) }
        ensures err { OnErr result (self.new ≡ self.old) }
    {
        let len = self.waiting.len();
        match add_clipped(&mut self.waiting, self.unfinished, bytes) {
            Ok(unfinished) => {
                self.unfinished = unfinished;
                Ok(())
            }
            Err(e) => {
                self.waiting.cut(len);
                Err(e)
            }
        }
    }

    /// Returns whether a whole line waits.
    pub(crate) fn has_line(&self) -> bool
        ensures { result ≡ has_line self.now }
    {
        self.waiting.len() > self.unfinished
    }

    /// Returns the first line that waits, without its line feed. `None` if no whole line does.
    pub(crate) fn line(&self) -> Option<&[u8]>
        ensures some { IfSome result (λ line. IsPlain line.now × ((rest : List ℕ) × (self.now ≡ line.now ++ (10 ∷ rest)))) }
        ensures none { IfNone result (IsPlain self.now) }
    {
        let (line, _) = first_line(self.waiting.bytes())?;
        Some(line)
    }

    /// Takes the first line, which has `len` bytes, and its line feed.
    pub(crate) fn pass(&mut self, len: usize)
        requires { (line : List ℕ) × (rest : List ℕ) × IsPlain line × (self.old ≡ line ++ (10 ∷ rest)) × (len ≡ length line) }
        ensures { self.new ≡ drop 1 (drop len self.old) }
    {
        self.waiting.take(len);
        self.waiting.take(1);
    }
}

/// Adds bytes that follow so many bytes of an unfinished line, and returns how many of such a line there are then. What was
/// there stays, also at an error.
fn add_clipped(to: &mut Queue, unfinished: usize, bytes: &[u8]) -> Result<usize, AllocError>
    ensures ok { OnOk result (to.new ≡ to.old ++ clipped_after unfinished bytes.now) }
    ensures unfinished { IfOk result (λ n. n ≡ kept_of_last unfinished bytes.now) }
    ensures kept { (added : List ℕ) × (to.new ≡ to.old ++ added) }
{
    let mut rest = bytes;
    let mut unfinished = unfinished;
    while let Some((line, after)) = first_line(rest) {
        add_part(to, unfinished, line)?;
        to.add(b"\n")?;
        unfinished = 0;
        rest = after;
    }
    add_part(to, unfinished, rest)
}

/// Adds to an unfinished line of which there are so many bytes, as much as is kept of it. Returns how many there are then.
fn add_part(to: &mut Queue, unfinished: usize, part: &[u8]) -> Result<usize, AllocError>
    ensures ok { IsPlain part.now → OnOk result (to.new ≡ to.old ++ clipped_after unfinished part.now) }
    ensures unfinished { IsPlain part.now → IfOk result (λ n. n ≡ kept_of_last unfinished part.now) }
    ensures err { OnErr result (to.new ≡ to.old) }
{
    let room = MOST_KEPT.saturating_sub(unfinished);
    let count = part.len().min(room);
    to.add(&part[..count])?;
    Ok(unfinished + count)
}

/// Returns the bytes before the first line feed, and what follows it. `None` if there is none.
fn first_line(bytes: &[u8]) -> Option<(&[u8], &[u8])>
    ensures some { IfSome result (λ r. IsPlain r.0.now × (bytes.now ≡ r.0.now ++ (10 ∷ r.1.now))) }
    ensures none { IfNone result (IsPlain bytes.now) }
{
    let at = memchr(b'\n', bytes)?;
    Some((&bytes[..at], &bytes[at + 1..]))
}
