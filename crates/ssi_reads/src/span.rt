//! Ranges of keys.

ghost use Rattle.std.specs.Prelude.{◌≡◌};
ghost use Rattle.adya_keys.specs.Meaning.Keys.{lies_in};

use adya_values::{Key, Txn};

/// The keys from `low` to `high`, both included; none if `high` is below `low`.
#[derive(Clone, Copy, PartialEq, Eq, PartialOrd, Ord)]
pub(crate) struct Span {
    pub(crate) low: Key,
    pub(crate) high: Key,
}

impl Span {
    pub(crate) fn covers(&self, key: Key) -> bool
        ensures { result ≡ lies_in self.now.low self.now.high key }
    {
        self.low <= key && key <= self.high
    }
}

/// A mark of the transaction over each key of the range.
#[derive(Clone, Copy, PartialEq, Eq, PartialOrd, Ord)]
pub(crate) struct Mark {
    pub(crate) span: Span,
    pub(crate) txn: Txn,
}
