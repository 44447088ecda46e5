//! Records of transactions.

use adya_values::Key;

/// What is kept of a transaction.
#[derive(Drop)]
pub(crate) struct Record {
    pub(crate) snapshot: u64,
    // after the commit
    pub(crate) stamp: Option<u64>,
    // the written keys, after the commit
    pub(crate) keys: Vec<Key>,
    // the least stamp of those to which pairs lead from it
    pub(crate) first_out: Option<u64>,
}
