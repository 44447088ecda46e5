//! An element in the list of a key.

/// An element in the list of a key.
#[derive(Clone, Copy, PartialEq, Eq, Hash)]
pub(crate) struct Item {
    pub key: u64,
    pub element: u64,
}
