//! What is found of a history.

use crate::Edge;
use adya_values::Serial;

/// A certificate with which a history is accepted, or why there is none.
#[derive(Drop)]
pub enum Found {
    /// The certificate: each committed transaction once, and each edge forward.
    Serial(Serial),
    /// A cycle of the graph: at least one edge, in a path from a transaction back to itself. No two of the edges begin at the
    /// same transaction.
    Cycle(Vec<Edge>),
}
