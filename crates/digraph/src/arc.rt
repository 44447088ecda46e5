//! Arcs between nodes.

/// An arc of a directed graph: one node has to come before another.
#[derive(Clone, Copy, PartialEq, Eq)]
pub struct Arc {
    /// The node that the arc leaves, which has to come first.
    pub from: u32,
    /// The node that the arc enters, which has to come later.
    pub to: u32,
}
