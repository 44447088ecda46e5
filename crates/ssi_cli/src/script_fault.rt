//! Why the texts of a run are not written.

/// Why the history of a store and its certificate are not both written.
#[derive(Clone, Copy, Debug, PartialEq, Eq)]
pub enum ScriptFault {
    /// Writing the history failed. The certificate was not begun.
    History,
    /// Writing the certificate failed. The history is written.
    Certificate,
    /// Memory ran out. Neither text was begun.
    Memory,
}
