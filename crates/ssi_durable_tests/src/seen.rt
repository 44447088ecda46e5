//! What the runs have shown, so that it is known of what the tests speak.

/// What some lives have shown.
#[derive(Clone, Copy)]
pub struct Seen {
    /// Replies were given out.
    pub given: bool,
    /// Replies were given out before all lines were on the disk.
    pub early: bool,
    /// A crash has left a line to which the reply wasn't given out.
    pub kept: bool,
    /// A crash has taken a line.
    pub lost: bool,
    /// A crash has left a part of a line.
    pub torn: bool,
    /// A file couldn't grow.
    pub full: bool,
    /// A call of a file has failed otherwise.
    pub failed: bool,
}

impl Seen {
    /// Nothing so far.
    pub const NOTHING: Seen = Seen {
        given: false,
        early: false,
        kept: false,
        lost: false,
        torn: false,
        full: false,
        failed: false,
    };

    /// Adds what others have shown.
    pub fn add(&mut self, other: Seen) {
        self.given |= other.given;
        self.early |= other.early;
        self.kept |= other.kept;
        self.lost |= other.lost;
        self.torn |= other.torn;
        self.full |= other.full;
        self.failed |= other.failed;
    }
}
