//! Room for one line.

ghost use Rattle.std.specs.Prelude.{◌≡◌, ◌≤◌, ◌++◌, List, ℕ, [], Some};
ghost use Rattle.std.specs.Option.{option_copied};
ghost use Rattle.ssi_line.specs.Clauses.Answers.{kept};

use std::marker::Model;

/// The most bytes of a line, without its line feed.
pub(crate) const MAX_LINE_LEN: usize = 4096;

/// A line of at most [`MAX_LINE_LEN`] bytes, or the fact that it is longer.
#[derive(Drop)]
pub(crate) struct ShortLine {
    bytes: [u8; MAX_LINE_LEN],
    len: usize,
    is_long: bool,
}

impl Model for ShortLine {
    ghost use Rattle.std.specs.Prelude.{List, ℕ, ◌≤◌, Option, Some, None, take, if◌then◌else◌};

    ghost Value = { Option (List ℕ) };

    ghost view = { λ l. if l.is_long then None else Some (take l.len l.bytes) };

    ghost invariant = { λ l. l.len ≤ 4096 };
}

impl ShortLine {
    /// Makes an empty line.
    pub(crate) fn new() -> ShortLine
        ensures { result ≡ Some [] }
    {
        ShortLine {
            bytes: [0; MAX_LINE_LEN],
            len: 0,
            is_long: false,
        }
    }

    /// Forgets the line.
    pub(crate) fn clear(&mut self)
        ensures { self.new ≡ kept [] }
    {
        self.len = 0;
        self.is_long = false;
    }

    /// Adds to the line. Once it is too long it stays so.
    pub(crate) fn extend(&mut self, more: &[u8])
        ensures { (line : List ℕ) → self.old ≡ kept line → self.new ≡ kept (line ++ more.now) }
    {
        if self.is_long || more.len() > MAX_LINE_LEN - self.len {
            self.is_long = true;
            return;
        }
        let end = self.len + more.len();
        self.bytes[self.len..end].copy_from_slice(more);
        self.len = end;
    }

    /// Returns the line, if it isn't too long.
    pub(crate) fn text(&self) -> Option<&[u8]>
        ensures { option_copied result ≡ self.now }
    {
        if self.is_long {
            return None;
        }
        Some(&self.bytes[..self.len])
    }
}
