//! The answers of a tracker.

use adya_values::Txn;

/// Whether a read or a commit may be carried out.
#[derive(Clone, Copy, PartialEq, Eq)]
pub enum Answer {
    /// No pivot would stand.
    Safe,
    /// A pivot would stand, and this is the smallest one.
    Unsafe { pivot: Txn },
}
