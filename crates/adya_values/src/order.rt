//! Version orders and final values.

use crate::{Key, Txn, Value};

/// The version order of a key: the committed transactions that wrote it, first to last (Adya 1999, section 3.1.2).
#[derive(Drop)]
pub struct Order {
    /// The key.
    pub key: Key,
    /// The committed writers of the key, in the order of their versions.
    pub writers: Vec<Txn>,
}

/// The final value of a key.
#[derive(Clone, Copy)]
pub struct FinalPair {
    /// The key.
    pub key: Key,
    /// The value of the key's last version.
    pub value: Value,
}
