//! Why a connection is closed.

/// Why a connection is closed.
#[derive(Clone, Copy, Debug, PartialEq, Eq)]
pub enum Closing {
    /// No more is read of it, its whole lines are carried out, and all its replies are written. After `stop` lines may be left.
    Ended,
    /// A write to it failed or took nothing, and replies are unsent.
    Broken,
    /// Memory can't hold what it sent, or what it is to get.
    Memory,
    /// The run was stopped, and replies are unsent that it doesn't take at once.
    Stopped,
}
