//! Where a file was written.

ghost use Rattle.std.specs.Prelude.{◌≤◌};

/// Two places in a file, between which is all that was written since the last sync. Most of a file is elsewhere, and a crash
/// needn't go through it.
#[derive(Clone, Copy)]
pub(crate) struct Written {
    from: usize,
    to: usize,
}

impl Written {
    pub(crate) const NOTHING: Written = Written {
        from: usize::MAX,
        to: 0,
    };

    /// So many bytes are written at this place.
    pub(crate) fn add(&mut self, at: usize, len: usize) {
        self.from = self.from.min(at);
        self.to = self.to.max(at.saturating_add(len));
    }

    /// Returns the places in a file of so many bytes.
    pub(crate) fn within(self, len: usize) -> (usize, usize)
        ensures { (result.0 ≤ result.1) × (result.1 ≤ len) }
    {
        let to = self.to.min(len);
        (self.from.min(to), to)
    }
}
