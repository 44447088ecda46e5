//! When replies are given out.

ghost use Rattle.std.specs.Prelude.{◌≡◌};

/// When replies are given out, if the lines are put in a log.
#[derive(Clone, Copy, Debug, PartialEq, Eq)]
pub enum Release {
    /// Each once its line is on the disk, and all lines before it that count.
    Synced,
    /// `committed` as well; any other reply at once, but for those that come after such a one to the same connection. A crash may
    /// take away lines whose replies were given out, but none up to a `commit` that was answered so.
    Early,
}

impl Release {
    ghost use Rattle.ssi_durable.specs.Clauses.Holding.{is_early};

    /// Returns whether only `committed` waits for the disk.
    pub fn is_early(self) -> bool
        ensures { result ≡ is_early self }
    {
        matches!(self, Release::Early)
    }
}
