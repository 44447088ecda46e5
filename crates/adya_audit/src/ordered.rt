//! What the search for a certificate came to.

use crate::Verdict;

/// The kind of answer that was written.
#[derive(Clone, Copy)]
pub enum Ordered {
    /// A certificate with which the history is accepted.
    Serial,
    /// A cycle of the history's edges: no certificate is accepted.
    Cycle,
    /// A verdict of kinds 1 to 4, which is that on the history with any certificate.
    No(Verdict),
}
