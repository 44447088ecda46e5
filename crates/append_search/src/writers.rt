//! Who appended what, as the search asks for it.

/// The transaction that appends each element to the list of each key.
pub trait Writers {
    /// Returns the place in the history of the transaction that appends the element to the list of the key; `None` if no
    /// transaction does.
    fn writer(&self, key: u64, element: u64) -> Option<u32>;
}
